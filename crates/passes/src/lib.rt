// Passes over the pieces once all cells are cut: what a piece's tag says of it goes to the output lists, and the nodes that the pieces name are counted. The tag is
// twice the number of the piece's cell among those of both meshes, the subject's first, and one more where the cell is cut.
#![tactic(auto)]

ghost use Rattle.std.specs.Prelude.{◌≡◌, ◌++◌, ◌+◌, ◌*◌, ◌/◌, eqb, not, map, ◌≤◌, length, get_or};
ghost use Rattle.lists.specs.Search.{named, many};
ghost use Rattle.lists.specs.Marks.{marks_from};
ghost use Rattle.lists.specs.Regions.{front};
ghost use Rattle.passes.specs.Tags.{kind_by, family_by, mesh_by, cell_by};

use lists::mark_named;

// The kind of what is cut out of a cell.
const PGON: u8 = 11;

// The cell of a piece, by its number among those of both meshes, and whether it is cut. It lies as one u32 in the list of families, which C lends, until the
// families take its place: the lists hold the number, and each function reads it here.
#[derive(Clone, Copy)]
struct Tag {
    cell: usize,
    cut: bool,
}

impl From<u32> for Tag {
    ghost from_gives = { λ n tag. (tag.cell ≡ n / 2) × (tag.cut ≡ not (eqb (2 * (n / 2)) n)) };

    fn from(n: u32) -> Tag
        ensures cell_is { result.cell ≡ n / 2 }
        ensures cut_is { result.cut ≡ not (eqb (2 * (n / 2)) n) }
    {
        let cell = n / 2;
        Tag {
            cell: cell as usize,
            cut: 2 * cell != n,
        }
    }
}

// Entry k of two lists one behind the other, `none` where there is none.
fn entry_at<T: Copy>(a: &[T], b: &[T], k: usize, none: T) -> T
    ensures { result ≡ get_or (a.now ++ b.now) k none }
{
    match a.get(k) {
        Some(x) => *x,
        None => b.get(k - a.len()).copied().unwrap_or(none),
    }
}

// A copied cell keeps its kind, and what is cut out of a cell is a PGON. The subject's list and the cutter's come as two: a struct of both would be made by the caller
// for one call each, once of u8 and once of u32.
fn kind_by(subject: &[u8], cutter: &[u8], tag: u32) -> u8
    ensures { result ≡ kind_by subject.now cutter.now tag }
{
    let Tag { cell, cut } = Tag::from(tag);
    if cut {
        PGON
    } else {
        entry_at(subject, cutter, cell, 0)
    }
}

// The family of the piece's cell.
fn family_by(subject: &[u32], cutter: &[u32], tag: u32) -> u32
    ensures { result ≡ family_by subject.now cutter.now tag }
{
    entry_at(subject, cutter, Tag::from(tag).cell, 0)
}

// The mesh of the piece's cell, 0 the subject or 1 the cutter, as the output lists number them. The subject has n cells.
fn mesh_by(n: usize, tag: u32) -> u32
    ensures { result ≡ mesh_by n tag }
{
    u32::from(n <= Tag::from(tag).cell)
}

// The number of the piece's cell in its mesh. The subject has n cells.
fn cell_by(n: usize, tag: u32) -> u32
    ensures { result ≡ cell_by n tag }
{
    let k = Tag::from(tag).cell;
    (if k < n { k } else { k - n }) as u32
}

// The kinds of the pieces with these tags, to the front of a list, by those of the subject's and the cutter's cells: one list behind the other.
pub fn write_kinds(tags: &[u32], subject: &[u8], cutter: &[u8], kinds: &mut [u8])
    requires { length tags.now ≤ length kinds.old }
    ensures { kinds.new ≡ front kinds.old (map (kind_by subject.now cutter.now) tags.now) }
{
    // Written by index: of a list written through a zipped `iter_mut` a proof knows the length alone.
    for (i, tag) in tags.iter().enumerate() {
        kinds[i] = kind_by(subject, cutter, *tag);
    }
}

// The parents of the pieces with these tags, their meshes and their cells there, to the fronts of two lists; the subject has n cells.
pub fn write_parents(tags: &[u32], n: usize, meshes: &mut [u32], cells: &mut [u32])
    requires { (length tags.now ≤ length meshes.old) × (length tags.now ≤ length cells.old) }
    ensures { (meshes.new ≡ front meshes.old (map (mesh_by n) tags.now))
        × (cells.new ≡ front cells.old (map (cell_by n) tags.now)) }
{
    // By index, as the kinds are; two lists, as the C interface has them.
    for (i, tag) in tags.iter().enumerate() {
        meshes[i] = mesh_by(n, *tag);
        cells[i] = cell_by(n, *tag);
    }
}

// The families of the pieces in the place of their tags, by those of the subject's and the cutter's cells: one list behind the other, as at the kinds.
pub fn write_families(subject: &[u32], cutter: &[u32], tags: &mut [u32])
    ensures { tags.new ≡ map (family_by subject.now cutter.now) tags.old }
{
    for tag in tags.iter_mut() {
        *tag = family_by(subject, cutter, *tag);
    }
}

// How many of the nodes first, first + 1, .. some entry of the list is, each once; by a mark for each.
#[tactic(auto, using(crate::proofs::Named::marks_counted))]
pub fn count_named(nodes: &[u32], first: usize, marks: &mut [u32]) -> usize
    ensures count { result ≡ many (λ k. named nodes.now (first + k)) (length marks.old) }
    ensures marks { marks.new ≡ marks_from nodes.now first (length marks.old) }
    ensures few { result ≤ length marks.old }
{
    mark_named(nodes, first, marks);
    marks.iter().filter(|mark| **mark != 0).count()
}
