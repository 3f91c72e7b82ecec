// What rounding does to numbers. Laws of f64 stand in proofs/: half a unit in the last place (`half_ulp`, `rounds_half_ulp`); monotone (`round_order`, and so sums,
// differences and quotients: `add_order`, `difference_rises`, `difference_falls`, `quotient_order`); exact where it fits (`exact_where_it_fits`, `rounds_exact`); and
// what follows: by how much operations err (`rounds_near`, `mul_near`), the sign of a difference (`difference_side`). Samples.antt has the border cases. There is no code here.
#![tactic(auto)]
