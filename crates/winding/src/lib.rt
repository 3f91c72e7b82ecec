// How often directed edges wind about a point: demand 3 point by point. Definitions and theorems, no code.
#![tactic(auto)]
