// Pieces placed one behind the other in lists.
ghost use Rattle.std.specs.Prelude.{◌≡◌, ◌+◌, ◌^◌, ◌≤◌, Err, [], ◌∷◌, ℕ, ◌<◌, length};
ghost use Rattle.lists.specs.Gather.{passing};
ghost use Rattle.entry.specs.Mesh.{Rising};

use crate::{Keep, Listed};
use lists::{Runs, copy_at};
use refusals::Refusal;
use strips::Index;

// The lists that pieces go to: their corners, where each ends among them, and a tag for each; and how many stand there. A piece has a place in both of ends
// and tags. Each method promises that they are the same lists, so that a caller knows what its own come to hold.
#[derive(Drop)]
pub struct PieceLists<'a> {
    pub corners: &'a mut [u32],
    pub ends: &'a mut [u32],
    pub tags: &'a mut [u32],
    pub placed: Listed,
    ghost counted: { placed.count ≤ length ends.now },
    ghost tagged: { length ends.now ≤ length tags.now },
    ghost within: { placed.entries ≤ length corners.now },
}

impl<'a> PieceLists<'a> {
    ghost use Rattle.pieces.specs.Pieces.{runs_of, cells_in, is_kept, tagged, left, left_by, refused_in, placed_on, BeforeZeroing, SameLists};

    // Places one piece behind those that stand there. Nothing is counted where it has no place. That the ends stay below 2^32 each asks for what it places: a ghost
    // field could only bound the lists lent, which asks more of callers.
    #[tactic(auto, using(crate::proofs::Piece::no_end, crate::proofs::Piece::no_corners))]
    fn place(&mut self, piece: &[u32], tag: u32) -> Result<(), Refusal>
        requires { self.old.placed.entries + length piece.now < 2 ^ 32 }
        ensures placed { BeforeZeroing (placed_on (tagged tag (piece.now ∷ [])) self.old) result self.new }
        ensures same_lists { SameLists self.new self.old }
    {
        let p = self.placed;
        let next = p.count + 1;
        if self.ends.len() < next {
            return Err(Refusal::NoPlace);
        }
        if !copy_at(self.corners, p.entries, piece) {
            return Err(Refusal::NoPlace);
        }
        let entries = p.entries + piece.len();
        self.ends[p.count] = entries as u32;
        self.tags[p.count] = tag;
        self.placed = Listed {
            count: next,
            entries,
        };
        Ok(())
    }

    // Places the pieces that are kept, one after the other, up to the first that has no place.
    #[tactic(auto, using(crate::proofs::Loops::laid, crate::proofs::Loops::end))]
    fn place_run(
        &mut self,
        keep: Keep,
        cells: Index,
        runs: &[u32],
        stops: &[u32],
        tag: u32,
    ) -> Result<(), Refusal>
        requires { Rising stops.now (length runs.now) × (self.old.placed.entries + length runs.now < 2 ^ 32) }
        ensures placed { BeforeZeroing (placed_on (tagged tag
            (passing (is_kept keep cells.entry.things.coords.now (cells_in cells.entry.things)) (runs_of runs.now stops.now)))
            self.old) result self.new }
        ensures same_lists { SameLists self.new self.old }
    {
        for piece in Runs::new(runs, stops) {
            if keep.is_kept(cells, piece) {
                self.place(piece, tag)?;
            }
        }
        Ok(())
    }

    // Makes the lists zero, as a refusal leaves them.
    pub fn clear(&mut self)
        ensures cleared { (code : ℕ) → left_by (Err code) self.new ≡ refused_in code self.old }
        ensures same_lists { SameLists self.new self.old }
    {
        self.corners.fill(0);
        self.ends.fill(0);
        self.tags.fill(0);
    }

    // Places the pieces that are kept behind those that stand there, each with the tag. As many pieces have a place as there is room for ends; a refusal
    // leaves zeros. No `or_else`: its closure would have to be lent the lists, and what it does to them isn't known behind it.
    #[tactic(auto, using(crate::proofs::Loops::left_ok))]
    pub fn place_pieces(
        &mut self,
        keep: Keep,
        cells: Index,
        runs: &[u32],
        stops: &[u32],
        tag: u32,
    ) -> Result<(), Refusal>
        requires { Rising stops.now (length runs.now) × (self.old.placed.entries + length runs.now < 2 ^ 32) }
        ensures placed { left result self.new ≡ placed_on (tagged tag
            (passing (is_kept keep cells.entry.things.coords.now (cells_in cells.entry.things)) (runs_of runs.now stops.now)))
            self.old }
        ensures same_lists { SameLists self.new self.old }
    {
        let placed = self.place_run(keep, cells, runs, stops, tag);
        if placed.is_ok() {
            return placed;
        }
        self.clear();
        placed
    }
}
