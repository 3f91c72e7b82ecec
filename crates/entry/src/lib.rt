// The entry of an overlay: the refusals because of the input, 1 to 7 and 13.
#![tactic(auto)]

mod coords;
mod kinds;
mod meshes;
mod nodes;
mod operation;
mod shape;

pub use meshes::entry;
pub use operation::Operation;
