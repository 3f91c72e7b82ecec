// Lines: what is read of them stands in the front of the lent lists.
ghost use Rattle.std.specs.Prelude.{◌≡◌, [], ◌/◌, ◌*◌, ◌≤◌, length, take, IfSome};
ghost use Rattle.text.specs.Read.{node_from, nodes_from, entries_from, head_from, cell_from, cells_from, grid_from, first_from, no_nodes, empty};
ghost use Rattle.reading_lines.specs.Lines.{read_as, read_by, node_of, nodes_of, heading_of, cell_of, cells_of, SameCellLists};

use crate::words::{
    CELL, CLOSE, NEWLINE, NODE, OVERLAY, SPACE, coordinate_of, read_decimal, read_hex, read_word,
};
use settings::Settings;

// Not plane's Point: the crates of the text rest on no geometry, and its two numbers and the layer alone go on.
#[derive(Clone, Copy)]
pub struct Node {
    pub x: f64,
    pub y: f64,
    pub layer: u32,
}

// Any number up to 255 is read as a kind, as any as an operation (`read_first`): the entry refuses one that is none.
#[derive(Clone, Copy)]
pub struct Heading {
    pub kind: u8,
    pub family: u32,
}

// a cell line, whose corners stand in a lent list
#[derive(Clone, Copy)]
pub struct Cell {
    pub heading: Heading,
    pub corners: usize,
}

// the lists that cells are read into
#[derive(Drop)]
pub struct CellLists<'a> {
    pub nodes: &'a mut [u32],
    pub ends: &'a mut [u32],
    pub kinds: &'a mut [u8],
    pub families: &'a mut [u32],
}

#[derive(Clone, Copy)]
pub struct CellCounts {
    pub cells: usize,
    pub entries: usize,
}

// a node line after its word
#[tactic(auto, unfolding(text::specs::Read::node_from, text::specs::Read::and_then, text::specs::Read::after_word))]
pub fn read_node(s: &[u8]) -> Option<(Node, &[u8])>
    ensures { read_by node_of result ≡ node_from s.now }
{
    let (x, s) = read_hex(s)?;
    let s = read_word(s, SPACE)?;
    let (y, s) = read_hex(s)?;
    let s = read_word(s, SPACE)?;
    let (layer, s) = read_decimal(s)?;
    let s = read_word(s, CLOSE)?;
    let node = Node {
        x: coordinate_of(x),
        y: coordinate_of(y),
        layer,
    };
    Some((node, s))
}

// a cell line's kind and family
#[tactic(auto, unfolding(text::specs::Read::head_from, text::specs::Read::and_then, text::specs::Read::after_word))]
pub fn read_head(s: &[u8]) -> Option<(Heading, &[u8])>
    ensures { read_by heading_of result ≡ head_from s.now }
{
    let (kind, s) = read_decimal(s)?;
    let kind = u8::try_from(kind).ok()?;
    let s = read_word(s, SPACE)?;
    let (family, s) = read_decimal(s)?;
    Some((Heading { kind, family }, s))
}

// k of the grid, where a space follows M
#[tactic(auto, unfolding(text::specs::Read::grid_from, text::specs::Read::and_then, text::specs::Read::if_word))]
fn read_grid(s: &[u8]) -> Option<(Option<u32>, &[u8])>
    ensures { read_as result ≡ grid_from s.now }
{
    let Some(number) = read_word(s, SPACE) else {
        return Some((None, s));
    };
    let (k, s) = read_decimal(number)?;
    Some((Some(k), s))
}

// The first line. Any number is read as an operation and as k: one that is none is refused 1 or 13, no fault of the text.
#[tactic(auto, unfolding(text::specs::Read::first_from, text::specs::Read::and_then, text::specs::Read::after_word))]
pub fn read_first(s: &[u8]) -> Option<(Settings, &[u8])>
    ensures { read_as result ≡ first_from s.now }
{
    let s = read_word(s, OVERLAY)?;
    let (op, s) = read_decimal(s)?;
    let s = read_word(s, SPACE)?;
    let (m, s) = read_decimal(s)?;
    let (grid, s) = read_grid(s)?;
    let s = read_word(s, NEWLINE)?;
    Some((Settings { op, m, grid }, s))
}

// Node lines, as many as the lists have room for: how many there are, and the text after them. The lists are written by index, since after a loop over
// chunks_exact_mut a proof knows its length and no element.
#[tactic(auto, using(crate::proofs::Many::nodes_steps))]
pub fn read_nodes<'a>(
    s: &'a [u8],
    coords: &mut [f64],
    layers: &mut [u32],
) -> Option<(usize, &'a [u8])>
    requires { length coords.old / 2 ≤ length layers.old }
    ensures read { read_by (λ n. nodes_of n coords.new layers.new) result ≡ nodes_from (length coords.old / 2) no_nodes s.now }
    ensures within { IfSome result (λ p. (2 * p.0 ≤ length coords.old) × (p.0 ≤ length layers.old)) }
{
    let mut rest = s;
    let room = coords.len() / 2;
    for k in 0..room {
        let Some(line) = read_word(rest, NODE) else {
            return Some((k, rest));
        };
        let (node, after) = read_node(line)?;
        coords[2 * k] = node.x;
        coords[2 * k + 1] = node.y;
        layers[k] = node.layer;
        rest = after;
    }
    Some((room, rest))
}

// Numbers with a space before each, as many as the list has room for: how many there are, and the text after them. Written by index, since of
// `nodes.iter_mut().enumerate()` a proof knows no element.
#[tactic(auto, using(crate::proofs::Many::entries_steps))]
pub fn read_entries<'a>(s: &'a [u8], nodes: &mut [u32]) -> Option<(usize, &'a [u8])>
    ensures read { read_by (λ n. take n nodes.new) result ≡ entries_from (length nodes.old) [] s.now }
    ensures within { IfSome result (λ p. p.0 ≤ length nodes.old) }
{
    let mut rest = s;
    for k in 0..nodes.len() {
        let Some(number) = read_word(rest, SPACE) else {
            return Some((k, rest));
        };
        let (node, after) = read_decimal(number)?;
        nodes[k] = node;
        rest = after;
    }
    Some((nodes.len(), rest))
}

// a cell line after its word: its corners stand in the front of the list
#[tactic(auto, unfolding(text::specs::Read::cell_from, text::specs::Read::and_then, text::specs::Read::after_word))]
pub fn read_cell<'a>(s: &'a [u8], nodes: &mut [u32]) -> Option<(Cell, &'a [u8])>
    ensures read { read_by (λ c. cell_of c nodes.new) result ≡ cell_from (length nodes.old) [] s.now }
    ensures within { IfSome result (λ p. p.0.corners ≤ length nodes.old) }
{
    let (heading, s) = read_head(s)?;
    let (corners, s) = read_entries(s, nodes)?;
    let s = read_word(s, CLOSE)?;
    Some((Cell { heading, corners }, s))
}

// Cell lines, as many as the lists have room for: how many there are, with how many entries, and the text after them. Written by index, since of
// `iter_mut` zipped with another a proof knows no element.
#[tactic(auto, using(crate::proofs::Many::cells_steps))]
pub fn read_cells<'a>(s: &'a [u8], lists: &mut CellLists) -> Option<(CellCounts, &'a [u8])>
    requires few { length lists.old.nodes.now ≤ 4294967295 }
    requires kinds { length lists.old.ends.now ≤ length lists.old.kinds.now }
    requires families { length lists.old.ends.now ≤ length lists.old.families.now }
    ensures read { read_by (λ n. cells_of n lists.new) result ≡ cells_from (length lists.old.nodes.now) (length lists.old.ends.now) empty s.now }
    ensures within { IfSome result (λ p. (p.0.cells ≤ length lists.old.ends.now) × (p.0.entries ≤ length lists.old.nodes.now)) }
    ensures same_lists { SameCellLists lists.new lists.old }
{
    let mut rest = s;
    let mut entries = 0;
    let room = lists.ends.len();
    for k in 0..room {
        let Some(line) = read_word(rest, CELL) else {
            return Some((CellCounts { cells: k, entries }, rest));
        };
        let (cell, after) = read_cell(line, &mut lists.nodes[entries..])?;
        entries += cell.corners;
        lists.ends[k] = entries as u32;
        lists.kinds[k] = cell.heading.kind;
        lists.families[k] = cell.heading.family;
        rest = after;
    }
    Some((
        CellCounts {
            cells: room,
            entries,
        },
        rest,
    ))
}
