// The definitions of the overlay stand in specs/, the theorems about them in proofs/: there is no code here, only types that code and definitions both name.
#![tactic(auto)]

// A closed box.
#[derive(Clone, Copy)]
pub struct Bounds {
    pub left: f64,
    pub low: f64,
    pub right: f64,
    pub high: f64,
}

// The nearest node so far, if there is one, and the squared distance that the next must stay below.
#[derive(Clone, Copy)]
pub struct Nearest {
    pub dist2: f64,
    pub node: Option<u32>,
}
