// Which pieces of a cell an operation keeps (document 01, "Operations"), and their placing behind those of the cells before.
#![tactic(auto)]

ghost use Rattle.std.specs.Prelude.{◌≡◌, Some};
ghost use Rattle.rules.specs.Inside.{some_holds, point_inside};
ghost use Rattle.pieces.specs.Pieces.{side_of, cells_in, keep_of, is_kept};

mod piece_lists;

use corners::Ring;
use entry::Operation;
use insides::inside;
pub use piece_lists::PieceLists;
use plane::Point;
use polygons::strict_interior_point;
use spatial_index::point_bounds;
use strips::Index;

// ---- Inside the other mesh or not

// Whether some cell holds the point: of those whose boxes hold it some contains it.
fn some_holds(cells: Index, p: Point) -> bool
    ensures { result ≡ some_holds cells.entry.things.coords.now (cells_in cells.entry.things) (Some p) }
{
    let things = cells.things;
    cells
        .near(point_bounds(p))
        .any(|j| inside(Ring::new(things.coords, things.run(j)), p))
}

// Whether the piece lies inside the mesh of the given cells.
#[tactic(auto, unfolding(rules::specs::Inside::some_holds, rules::specs::Inside::point_inside))]
fn point_inside(cells: Index, piece: &[u32]) -> bool
    ensures { result ≡ point_inside cells.entry.things.coords.now (cells_in cells.entry.things) piece.now }
{
    let Some(p) = strict_interior_point(Ring::new(cells.things.coords, piece)) else {
        return false;
    };
    some_holds(cells, p)
}

// ---- Kept or not

// Whether the operation keeps those pieces of a mesh that lie inside the other, and those that don't. Two flags, since each is kept or not for itself.
#[derive(Clone, Copy)]
pub struct Keep {
    pub inside: bool,
    pub outside: bool,
}

// What the operation keeps of the mesh whose cells are cut. By its number, since the promise is for each number, one that names no operation too; the mesh
// is the cutter or not, a flag, since a type of the two sides would say no more and ask callers for it.
pub fn keep_of(op: u32, cutter: bool) -> Keep
    ensures { result ≡ keep_of op (side_of cutter) }
{
    let (inside, outside) = match Operation::try_from(op) {
        Ok(Operation::Union) => (!cutter, true),
        Ok(Operation::Intersection) => (true, false),
        Ok(Operation::Difference | Operation::SymmetricDifference) => (false, true),
        _ => (true, true),
    };
    Keep { inside, outside }
}

impl Keep {
    // Where the piece is kept either way it isn't asked whether it lies inside.
    pub(crate) fn is_kept(self, cells: Index, piece: &[u32]) -> bool
        ensures { result ≡ is_kept self cells.entry.things.coords.now (cells_in cells.entry.things) piece.now }
    {
        if self.inside & self.outside {
            return true;
        }
        if point_inside(cells, piece) {
            self.inside
        } else {
            self.outside
        }
    }
}

// ---- Placed

// How many pieces and corners there are. Not dart_walk's `Counts`: those are of one cell, these of all lists, and neither crate needs the other.
#[derive(Clone, Copy)]
pub struct Listed {
    pub count: usize,
    pub entries: usize,
}
