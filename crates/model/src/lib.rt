// The model of document 01: definitions in specs/, theorems about them in proofs/. No code stands here: the crates above prove theirs equal to it.
#![tactic(auto)]
