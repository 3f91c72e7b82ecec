// Refusal 4: the kinds and their node counts.
ghost use Rattle.std.specs.Prelude.{◌≡◌, true, length};
ghost use Rattle.entry.specs.Named.{NamesKind};
ghost use Rattle.entry.specs.Refused.{ends_ok, kind_ok, kinds_ok};

use lists::Runs;
use views::MeshView;

// A line; a triangle, a quadrilateral, a polygon.
#[derive(Clone, Copy, Debug, PartialEq, Eq, PartialOrd, Ord)]
pub(crate) enum Kind {
    Seg2,
    Tri3,
    Quad4,
    Pgon,
}

// A number that no kind has.
#[derive(Clone, Copy, Debug, PartialEq, Eq)]
pub(crate) struct UnknownKind(pub u8);

// C and the text hand kinds over as numbers.
impl TryFrom<u8> for Kind {
    type Error = UnknownKind;

    ghost try_from_gives = { NamesKind };

    fn try_from(kind: u8) -> Result<Self, UnknownKind> {
        match kind {
            1 => Ok(Kind::Seg2),
            5 => Ok(Kind::Tri3),
            8 => Ok(Kind::Quad4),
            11 => Ok(Kind::Pgon),
            _ => Err(UnknownKind(kind)),
        }
    }
}

// A kind comes as its number, and one that there isn't is refused here. `lines` says of which mesh, by the operation (`takes_lines`): a flag, as the
// definition has it. Each kind has its own size.
#[tactic(auto, unfolding(crate::specs::Refused::kind_ok))]
fn kind_ok(lines: bool, kind: u8, n: usize) -> bool
    ensures { result ≡ kind_ok lines kind n }
{
    match Kind::try_from(kind) {
        Ok(Kind::Seg2) => lines && n == 2,
        Ok(Kind::Tri3) => !lines && n == 3,
        Ok(Kind::Quad4) => !lines && n == 4,
        Ok(Kind::Pgon) => !lines && 3 <= n && n <= 256,
        Err(_) => false,
    }
}

// A cell has as many nodes as its run is long.
pub(crate) fn kinds_ok(lines: bool, mesh: &MeshView) -> bool
    requires as_many { length mesh.now.kinds.now ≡ length mesh.now.ends.now }
    requires ends { ends_ok mesh.now.ends.now (length mesh.now.nodes.now) ≡ true }
    ensures { result ≡ kinds_ok lines mesh.now.kinds.now mesh.now.ends.now }
{
    mesh.kinds.is_sorted()
        && mesh
            .kinds
            .iter()
            .zip(Runs::new(mesh.nodes, mesh.ends))
            .all(|(kind, cell)| kind_ok(lines, *kind, cell.len()))
}
