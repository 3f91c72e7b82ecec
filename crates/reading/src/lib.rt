// Reading an input of the program into lent lists.
#![tactic(auto)]

ghost use Rattle.std.specs.Prelude.{◌≡◌, ◌*◌, ◌/◌, ◌≤◌, length, IfSome};
ghost use Rattle.text.specs.Read.{mesh_from, input_from};
ghost use Rattle.text.specs.Given.{at_most};
ghost use Rattle.reading_lines.specs.Lines.{read_by};
ghost use Rattle.reading.specs.Seen.{limits_of, mesh_seen, mesh_of, input_as, subject_of, cutter_of, Within, SameLists, Zeroed, MeshRest};

use reading_lines::lines::{CellCounts, CellLists, read_cells, read_first, read_nodes};
use reading_lines::words::{CLOSE, MESH, read_word};
use settings::Settings;

// the lists that a mesh is read into, those of a `MeshView`, lent to be written: coordinates (x then y), layers, node numbers (flat), cell ends, kinds, families. Each contract
// says that the lists are the same still, as a struct of `&mut` lists needs. The counts are an answer beside it: who lends lists has none to give yet
#[derive(Drop)]
pub struct MeshLists<'a> {
    pub coords: &'a mut [f64],
    pub layers: &'a mut [u32],
    pub nodes: &'a mut [u32],
    pub ends: &'a mut [u32],
    pub kinds: &'a mut [u8],
    pub families: &'a mut [u32],
}

// how much of the six lists is a mesh
#[derive(Clone, Copy, Default)]
pub struct Counts {
    pub points: usize,
    pub cells: usize,
    pub entries: usize,
}

// an input: what its first line sets, and how much of the lent lists its meshes are
#[derive(Clone, Copy)]
pub struct Input {
    pub settings: Settings,
    pub subject: Counts,
    pub cutter: Counts,
}

// a mesh of at most 512 nodes, 512 cells and 2,048 entries, and what the lent lists hold
fn read_mesh<'a>(s: &'a [u8], lists: &mut MeshLists) -> Option<(Counts, &'a [u8])>
    ensures read { read_by (λ c. mesh_of c lists.new) result ≡ mesh_from (limits_of lists.old) s.now }
    ensures within { IfSome result (λ p. Within p.0 lists.old) }
    ensures same_lists { SameLists lists.new lists.old }
{
    let points = 512.min(lists.coords.len() / 2).min(lists.layers.len());
    let cells = 512
        .min(lists.ends.len())
        .min(lists.kinds.len())
        .min(lists.families.len());
    let entries = 2048.min(lists.nodes.len());
    let coords = &mut *lists.coords;
    let layers = &mut *lists.layers;
    let nodes = &mut *lists.nodes;
    let ends = &mut *lists.ends;
    let kinds = &mut *lists.kinds;
    let families = &mut *lists.families;
    read_within(
        s,
        &mut coords[..2 * points],
        &mut layers[..points],
        &mut nodes[..entries],
        &mut ends[..cells],
        &mut kinds[..cells],
        &mut families[..cells],
    )
}

// A mesh that the lists have room for. They come one by one, since a struct of parts of a lent struct's lists isn't covered by the borrow checker.
#[tactic(auto, unfolding(text::specs::Read::mesh_from, text::specs::Read::and_then, text::specs::Read::after_word))]
fn read_within<'a>(
    s: &'a [u8],
    coords: &mut [f64],
    layers: &mut [u32],
    nodes: &mut [u32],
    ends: &mut [u32],
    kinds: &mut [u8],
    families: &mut [u32],
) -> Option<(Counts, &'a [u8])>
    requires few { length nodes.old ≤ 4294967295 }
    requires as_many { (length coords.old / 2 ≤ length layers.old) × (length ends.old ≤ length kinds.old) × (length ends.old ≤ length families.old) }
    ensures read { read_by (λ c. mesh_seen c coords.new layers.new nodes.new ends.new kinds.new families.new) result
        ≡ mesh_from (at_most (length coords.old / 2) (length ends.old) (length nodes.old)) s.now }
    ensures within { IfSome result (λ p. (2 * p.0.points ≤ length coords.old) × (p.0.points ≤ length layers.old) × (p.0.cells ≤ length ends.old) × (p.0.entries ≤ length nodes.old)) }
{
    let s = read_word(s, MESH)?;
    let (points, s) = read_nodes(s, coords, layers)?;
    let mut lists = CellLists {
        nodes,
        ends,
        kinds,
        families,
    };
    let (CellCounts { cells, entries }, s) = read_cells(s, &mut lists)?;
    let s = read_word(s, CLOSE)?;
    Some((
        Counts {
            points,
            cells,
            entries,
        },
        s,
    ))
}

// an input: what is read of it stands in the front of the lent lists
#[tactic(auto, unfolding(text::specs::Read::input_from, text::specs::Read::and_then, text::specs::Read::after_word))]
fn read_text(s: &[u8], subject_lists: &mut MeshLists, cutter_lists: &mut MeshLists) -> Option<Input>
    ensures read { input_as result subject_lists.new cutter_lists.new ≡ input_from (limits_of subject_lists.old) (limits_of cutter_lists.old) s.now }
    ensures within { Within (subject_of result) subject_lists.old × Within (cutter_of result) cutter_lists.old }
    ensures same_lists { SameLists subject_lists.new subject_lists.old × SameLists cutter_lists.new cutter_lists.old }
{
    if 65536 < s.len() {
        return None;
    }
    let (settings, s) = read_first(s)?;
    let (subject, s) = read_mesh(s, subject_lists)?;
    let (cutter, s) = read_mesh(s, cutter_lists)?;
    let s = read_word(s, CLOSE)?;
    if !s.is_empty() {
        return None;
    }
    Some(Input {
        settings,
        subject,
        cutter,
    })
}

// sets to zero what stands in the lists after a mesh
fn clear_rest(mesh: Counts, lists: &mut MeshLists)
    requires { Within mesh lists.old }
    ensures zeroed { Zeroed mesh lists.old lists.new }
    ensures same_lists { SameLists lists.new lists.old }
{
    lists.coords[2 * mesh.points..].fill(0.0);
    lists.layers[mesh.points..].fill(0);
    lists.nodes[mesh.entries..].fill(0);
    lists.ends[mesh.cells..].fill(0);
    lists.kinds[mesh.cells..].fill(0);
    lists.families[mesh.cells..].fill(0);
}

// An input of at most 65,536 bytes: each lent list holds what is read of it, then zeros.
pub fn read_input(
    s: &[u8],
    subject_lists: &mut MeshLists,
    cutter_lists: &mut MeshLists,
) -> Option<Input>
    ensures read { input_as result subject_lists.new cutter_lists.new ≡ input_from (limits_of subject_lists.old) (limits_of cutter_lists.old) s.now }
    ensures rest { MeshRest (subject_of result) subject_lists.old subject_lists.new × MeshRest (cutter_of result) cutter_lists.old cutter_lists.new }
    ensures same_lists { SameLists subject_lists.new subject_lists.old × SameLists cutter_lists.new cutter_lists.old }
{
    let input = read_text(s, subject_lists, cutter_lists);
    let (subject, cutter) = match input {
        Some(i) => (i.subject, i.cutter),
        None => (Counts::default(), Counts::default()),
    };
    clear_rest(subject, subject_lists);
    clear_rest(cutter, cutter_lists);
    input
}
