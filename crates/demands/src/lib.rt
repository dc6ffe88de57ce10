// The demands of document 01 carried to the public calls and to what hosts link: definitions in specs/, theorems in proofs/. No code stands here.
#![tactic(auto)]
