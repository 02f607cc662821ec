// Demand 3 at the border to C; no code.
#![tactic(auto)]
