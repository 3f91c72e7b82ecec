// What rounding does to the coordinates of an overlay: how large they become, where a grid puts them, and how far a new point may be off. Definitions stand in
// specs/, theorems in proofs/. There is no code here.
#![tactic(auto)]
