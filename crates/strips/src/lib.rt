// Which things' boxes meet a box, without a look at each thing. The plane is cut into strips by x and by y, and each thing is on the chain of one square.
// Things are runs of a flat list of node numbers, by their ends; where there are no ends they are pairs.
#![tactic(auto)]

mod building;
mod gathering;
mod near;
mod squares;
mod things;

pub use building::index_size;
pub use gathering::Index;
pub use near::Near;
pub use things::Things;
