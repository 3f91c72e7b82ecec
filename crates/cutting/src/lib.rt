// A cell's dart table, its order and its walk: definitions, and the theorem that the pieces close up to the outline. The one type of the code is a slot.
#![tactic(auto)]

// A slot of a table, at the node `src`: a neighbour, and a mark, set where the slot may not be walked any more. The mark
// stands beside the nodes, which a marked slot has too.
#[derive(Clone, Copy, Debug, Default, PartialEq, Eq)]
pub struct Slot {
    pub src: u32,
    pub dst: u32,
    pub marked: bool,
}
