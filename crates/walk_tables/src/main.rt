// Stored cells: the table is built edge by edge and walked. For each cell its pieces, a line each, or its refusal.
#![tactic(auto)]

ghost use Rattle.std.specs.Prelude.{◌≤◌, length};

use dart_table::DartTable;
use dart_walk::{Counts, walk_dart_map};
use refusals::Refusal;
use std::io;
use std::io::{BufWriter, Write};

// An edge from one node to another, by its sorted nodes, of which a whole edge has none.
#[derive(Clone, Copy)]
struct Edge<'a> {
    from: u32,
    to: u32,
    nodes: &'a [u32],
}

fn along<'a>(from: u32, to: u32, nodes: &'a [u32]) -> Edge<'a> {
    Edge { from, to, nodes }
}

fn whole<'a>(from: u32, to: u32) -> Edge<'a> {
    along(from, to, &[])
}

// Walks the table of the cell's own edges and the edges near it: two lists that don't run side by side.
fn walk(
    coords: &[f64],
    own: &[Edge<'_>],
    near: &[Edge<'_>],
    nodes: &mut [u32],
    stops: &mut [u32],
) -> Result<Counts, Refusal>
    requires { (1024 ≤ length nodes.old) × (1024 ≤ length stops.old) }
{
    let mut table = DartTable::new();
    for e in own {
        table.add_own_edge(coords, e.from, e.to, e.nodes)?;
    }
    if outlines::edges_repeat(table.outline()) {
        return Err(Refusal::RepeatedEdge);
    }
    for e in near {
        table.add_near_edge(coords, e.from, e.to, e.nodes)?;
    }
    walk_dart_map(table.slots(), table.outline(), nodes, stops)
}

// The pieces' nodes, a line for each piece. Node by node: by `Runs` the last node of each piece would be split off, as a line has no space at its end.
fn show_pieces<W: Write>(out: &mut W, nodes: &[u32], stops: &[u32]) -> io::Result<()>
    requires { length nodes.now ≤ 1024 }
{
    let mut rest = stops.iter();
    let mut stop = rest.next();
    for (j, node) in nodes.iter().enumerate() {
        let ends = stop.is_some_and(|s| *s == j as u32 + 1);
        if ends {
            stop = rest.next();
        }
        write!(out, "{node}{}", if ends { "\n" } else { " " })?;
    }
    Ok(())
}

// Shows the pieces of such a cell, or its refusal; the lists are as `walk` has them.
fn show<W: Write>(
    out: &mut W,
    coords: &[f64],
    own: &[Edge<'_>],
    near: &[Edge<'_>],
) -> io::Result<()> {
    let mut nodes = [0u32; 1024];
    let mut stops = [0u32; 1024];
    match walk(coords, own, near, &mut nodes, &mut stops) {
        Ok(counts) => {
            let corners = counts.entries.min(1024);
            let pieces = counts.pieces.min(1024);
            show_pieces(out, &nodes[..corners], &stops[..pieces])
        }
        Err(why) => writeln!(out, "refused {}", why.number()),
    }
}

// A cell of one edge with `count` sorted nodes: 0 to 511, then 0 again.
fn show_ring<W: Write>(out: &mut W, count: usize) -> io::Result<()>
    requires { count ≤ 514 }
{
    let mut nodes = [0u32; 514];
    for (node, i) in nodes[..512].iter_mut().zip(0..) {
        *node = i;
    }
    show(out, &[0.0; 2], &[along(0, 1, &nodes[..count])], &[])
}

// Coordinates: the square 0 1 2 3, K1's square 4 5 6 7, the points 8 and 9 where they meet.
const K1: [f64; 20] = [
    0.0, 0.0, 2.0, 0.0, 2.0, 2.0, 0.0, 2.0, 1.0, -1.0, 3.0, -1.0, 3.0, 3.0, 1.0, 3.0, 1.0, 0.0,
    1.0, 2.0,
];

// Cells that other edges cross.
fn show_crossed<W: Write>(out: &mut W) -> io::Result<()> {
    let own = [
        along(0, 1, &[0, 8, 1]),
        whole(1, 2),
        along(2, 3, &[2, 9, 3]),
        whole(3, 0),
    ];
    show(out, &K1, &own, &[along(7, 4, &[4, 8, 9, 7])])?;
    // K10: a line 4 5 that ends inside, at 6 on the edge 0 1
    let k10 = [
        0.0, 0.0, 2.0, 0.0, 2.0, 2.0, 0.0, 2.0, 1.0, -1.0, 1.0, 1.0, 1.0, 0.0,
    ];
    let k10_own = [
        along(0, 1, &[0, 6, 1]),
        whole(1, 2),
        whole(2, 3),
        whole(3, 0),
    ];
    show(out, &k10, &k10_own, &[along(4, 5, &[4, 6, 5])])
}

// The square by edges that repeat, and by its own alone.
fn show_square<W: Write>(out: &mut W) -> io::Result<()> {
    // the edge 0 1 comes whole once more
    let square = [whole(0, 1), whole(1, 2), whole(2, 3), whole(3, 0)];
    let twice = [whole(1, 0)];
    show(out, &K1, &square, &twice)?;
    // the same edge with its nodes is the outline's own
    show(out, &K1, &square, &[along(1, 0, &[0, 1])])?;
    // an outline that runs back along itself, and one from a node to itself
    let folded = [whole(0, 1), whole(1, 2), whole(2, 1), whole(1, 0)];
    let stuck = [whole(0, 1), whole(1, 1), whole(1, 0)];
    show(out, &K1, &folded, &twice)?;
    show(out, &K1, &stuck, &twice)?;
    // a copied cell
    show(out, &K1, &square, &[])?;
    // a triangle 0 4 5 inside, that touches the outline at 0: the walk passes 0 twice, or ends there where it starts at 0
    let inside = [0.0, 0.0, 2.0, 0.0, 2.0, 2.0, 0.0, 2.0, 1.0, 0.5, 0.5, 1.0];
    let triangle = [whole(0, 4), whole(4, 5), whole(5, 0)];
    let later = [whole(1, 2), whole(2, 3), whole(3, 0), whole(0, 1)];
    show(out, &inside, &square, &triangle)?;
    show(out, &inside, &later, &triangle)
}

fn main(rt: HostRuntime) -> io::Result<()> {
    let mut out = BufWriter::new(rt.alloc(), io::writer(&rt))?;
    show_crossed(&mut out)?;
    show_square(&mut out)?;
    // 1,024 slots, and 1,026
    show_ring(&mut out, 513)?;
    show_ring(&mut out, 514)?;
    out.flush()
}
