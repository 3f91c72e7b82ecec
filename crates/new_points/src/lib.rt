// Which new points are corners of pieces: definitions stand in specs/, theorems in proofs/. There is no code here.
#![tactic(auto)]
