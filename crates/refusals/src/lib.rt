// The refusals: why an overlay gives no answer.
#![tactic(auto)]

ghost use Rattle.std.specs.Prelude.{◌≡◌};
ghost use Rattle.refusals.specs.Numbers.{number};

use thiserror::Error;

// By the numbers that the rules give them: 1 to 7 and 13 are of the input, 8 to 12 and 19 of the state.
#[derive(Clone, Copy, Debug, PartialEq, Eq, PartialOrd, Ord, Error)]
pub enum Refusal {
    #[error("no such operation, or no such limit of meetings")]
    Call = 1,
    #[error("the lists do not go together, or are too long")]
    Lists = 2,
    #[error("a coordinate is not finite, too large or -0")]
    Coordinates = 3,
    #[error("a kind is not taken, out of order or has a wrong node count")]
    Kinds = 4,
    #[error("a node number is not below the node count")]
    NodeNumbers = 5,
    #[error("a node stands twice in one cell or line")]
    NodeTwice = 6,
    #[error("the working list is too short")]
    WorkingList = 7,
    #[error("there are more meetings than the limit")]
    TooManyMeetings = 8,
    #[error("over 256 nodes are collected on one edge")]
    CrowdedEdge = 9,
    #[error("a cell's table has over 1,024 slots")]
    FullTable = 10,
    #[error("the walk round a cell cannot go on")]
    OpenWalk = 11,
    #[error("an output list has no place for the next item")]
    NoPlace = 12,
    #[error("the survey grid is finer than 1/2^10")]
    FineGrid = 13,
    #[error("a cell's outline repeats an edge, or has one from a node to itself")]
    RepeatedEdge = 19,
}

impl Refusal {
    pub fn number(self) -> u32
        ensures { result ≡ number self }
    {
        self as u32
    }
}

// As std has it, for Rust programs; `number` is the form with a clause, and the one that contracts cite.
impl From<Refusal> for u32 {
    ghost from_gives = { λ r n. n ≡ number r };

    fn from(r: Refusal) -> u32 {
        r.number()
    }
}
