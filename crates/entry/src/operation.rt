// The operations of an overlay, by their numbers.
ghost use Rattle.std.specs.Prelude.{◌≡◌, eqb};
ghost use Rattle.entry.specs.Named.{op_number, NamesOperation};

use refusals::Refusal;

// In the order of their numbers: 0 to 5. Lines cut a mesh as Imprint does.
#[derive(Clone, Copy, Debug, PartialEq, Eq, PartialOrd, Ord)]
pub enum Operation {
    Imprint,
    Union,
    Intersection,
    Difference,
    SymmetricDifference,
    Lines,
}

impl Operation {
    // Whether the cutter has lines.
    pub fn takes_lines(self) -> bool
        ensures { result ≡ eqb (op_number self) 5 }
    {
        matches!(self, Operation::Lines)
    }
}

// C and the text hand operations over as numbers.
impl TryFrom<u32> for Operation {
    type Error = Refusal;

    ghost try_from_gives = { NamesOperation };

    fn try_from(op: u32) -> Result<Self, Refusal> {
        match op {
            0 => Ok(Operation::Imprint),
            1 => Ok(Operation::Union),
            2 => Ok(Operation::Intersection),
            3 => Ok(Operation::Difference),
            4 => Ok(Operation::SymmetricDifference),
            5 => Ok(Operation::Lines),
            _ => Err(Refusal::Call),
        }
    }
}
