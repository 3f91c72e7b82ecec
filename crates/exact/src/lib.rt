// Exact signs of sums of products of f64, and the exact order of directions. Coordinates are whole
// numbers of 2^-1074, products of 2^-2148, and nothing here rounds. Any f64 is taken: what is not
// finite counts as 0.
#![tactic(auto)]

mod angle; // the order of directions
mod cross; // the sign of a cross product
mod floats; // an f64 taken apart by its bits
mod near; // orientation where the exponents are close
mod orient; // orientation, by the path that fits
mod parts; // numbers by sign, significand and exponent
mod products; // the sizes of products
mod rows; // orientation whatever the exponents
mod vectors; // points and directions of such numbers

pub use angle::{compare_angles, compare_around};
pub use floats::{is_finite, take_apart};
pub use orient::orient2d;
pub use parts::Parts;
