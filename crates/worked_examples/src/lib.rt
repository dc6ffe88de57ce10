// Examples worked out through the model, computed: 01's own listing, and a pair of runs for demand 3. No code stands here.
#![tactic(auto)]
