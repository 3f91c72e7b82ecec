// What the cells are cut by, found before any cell is cut (document 01, module 7): both meshes' coordinates placed, their nodes under one numbering,
// their edges, and where these meet. Refusals 12, 8, 12 and 9, in this order.
#![tactic(auto)]

mod numbering;
mod stages;

pub use stages::{Found, find};
