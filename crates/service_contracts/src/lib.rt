// What numbers and bytes hold of the tables' ports, and what a service at a port, a doer's act and a partition's call over them are: definitions in specs/,
// laws in proofs/. No code stands here. That ports hold what the tables say (`Held`, `Fits`) stays a clause of each service: it ties two values, of
// which one is lent and changes, and a struct that holds a `&mut` has to keep such a fact at each write. `Rows` and acceptance stay clauses too: what may
// not change is that the services of a name and of a mode ask for the rows' ranges alone.
#![tactic(auto)]
