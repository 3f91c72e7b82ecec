// What a caller sets for each overlay.
#![tactic(auto)]

// The operation by its number, the limit of meetings M, and k of the grid of 1/2^k metre on which new points are booked, or no grid. Numbers as C and the text hand
// them over: what they may be the entry says (refusals 1 and 13).
#[derive(Clone, Copy, Debug, PartialEq, Eq)]
pub struct Settings {
    pub op: u32,
    pub m: u32,
    pub grid: Option<u32>,
}
