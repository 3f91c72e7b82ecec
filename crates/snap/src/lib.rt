// Near nodes of the two meshes share a number (document 01, module 4), where they have one layer (W7).
#![tactic(auto)]

ghost use Rattle.std.specs.Prelude.{◌≡◌, [], ◌++◌, ◌+◌, ◌-◌, ◌/◌, ◌≤◌, ◌<◌, length, get_or, take};
ghost use Rattle.lists.specs.Gather.{each};
ghost use Rattle.lists.specs.Regions.{run, front, put, zeros};
ghost use Rattle.entry.specs.Mesh.{mesh};
ghost use Rattle.rules.specs.Snap.{precedes, distance2, nearer, closest_within, weld};
ghost use Rattle.snap.specs.Ways.{InOrder-prop};
ghost use Rattle.snap.specs.Steps.{AllPlaced, InOrder, place_of, indices_in_order, with_node, merged, merged_full, not_merged, window_start, number_by};

use arrayvec::ArrayVec;
use lists::{insert_at, mark_named, number_at};
use plane::{Point, point_at};
use rules::Nearest;
use views::MeshView;

// ---- Used nodes, in order

// By x, then y. Not derived: the order would be one of all points, and only nodes are sorted, and here alone.
fn precedes(p: Point, q: Point) -> bool
    ensures { result ≡ precedes p q }
{
    (p.x, p.y) < (q.x, q.y)
}

// Some nodes over a list of coordinates, in order. That they are few is no ghost field: `number_of` alone needs it, and all that make such a struct would be asked
// for it.
#[derive(Clone, Copy)]
struct Nodes<'a> {
    coords: &'a [f64],
    order: &'a [u32],
    ghost ordered: { InOrder coords.now order.now } by { InOrder-prop coords.now order.now },
}

impl<'a> Nodes<'a> {
    // Where the node v goes among them: before the first that it precedes.
    fn place(&self, v: u32) -> usize
        ensures { (result ≡ place_of self.now.coords.now self.now.order.now v) × (result ≤ length self.now.order.now) }
    {
        let coords = self.coords;
        let p = point_at(coords, v);
        self.order
            .partition_point(|u| !precedes(p, point_at(coords, *u)))
    }
}

// Node i is put in among those of the block, which are in order, if its mark isn't 0.
#[tactic(auto, unfolding(crate::specs::Steps::with_node))]
fn put_in_order(coords: &[f64], marks: &[u32], block: &mut ArrayVec<u32, 128>, i: usize)
    requires { (length block.old.items < 128) × (i < length marks.now) × (length marks.now ≤ 16384) × InOrder coords.now block.old.items }
    ensures { block.new.items ≡ with_node coords.now marks.now block.old.items i }
{
    if marks[i] == 0 {
        return;
    }
    let v = i as u32;
    let nodes = Nodes {
        coords,
        order: block.as_slice(),
    };
    let p = nodes.place(v);
    let n = block.len();
    // Not by `block.insert`: it rotates, and a rotation calls memmove, which the C archive asks of nobody.
    block.push(v);
    insert_at(block.as_mut_slice(), n, p, v);
}

// The entries from `from` to `end` move up by so many places.
fn move_up(s: &mut [u32], from: usize, end: usize, by: usize)
    requires { (from ≤ end) × (end + by ≤ length s.old) }
    ensures { s.new ≡ put s.old (from + by) (run s.old from (end - from)) }
{
    // Not by `copy_within`: it calls memmove, which the C archive asks of nobody. The last goes first, since they may move over one another.
    for i in (from..end).rev() {
        s[i + by] = s[i];
    }
}

// More nodes are put in among the first k of s, the caller's list, from the last down: each goes to its place, and what stands behind that moves up by as many
// places as nodes are left. All are in order.
// s and k are no struct: behind the first k stand the marks that are still read, and each contract would have to say that it is the same list.
#[tactic(auto, using(crate::proofs::Moves::merge_start, crate::proofs::Moves::merge_room))]
fn merge(more: &Nodes, s: &mut [u32], k: usize)
    requires { (k + length more.now.order.now ≤ length s.old) × InOrder more.now.coords.now (take k s.old) }
    ensures { s.new ≡ merged more.now.coords.now s.old k more.now.order.now }
{
    let mut end = k;
    // By index, which says how many places the others move up. `iter().enumerate().rev()` was tried: a proof knows its items by what is yielded alone, and didn't close.
    for j in (0..more.order.len()).rev() {
        let v = more.order[j];
        let nodes = Nodes {
            coords: more.coords,
            order: &s[..end],
        };
        let p = nodes.place(v);
        move_up(s, p, end, j + 1);
        s[p + j] = v;
        end = p;
    }
}

// A block of nodes in order is put in among the first k of s if it is full, and is empty then. Answers how many stand in order at the front of s.
#[tactic(auto, unfolding(crate::specs::Steps::merged_full, crate::specs::Steps::not_merged))]
fn merge_full(coords: &[f64], s: &mut [u32], k: usize, block: &mut ArrayVec<u32, 128>) -> usize
    requires { (k + length block.old.items ≤ length s.old) × InOrder coords.now (take k s.old) × InOrder coords.now block.old.items }
    ensures { (result + length block.new.items ≡ k + length block.old.items) × (block.new.items ≡ not_merged block.old.items)
        × (s.new ≡ merged_full coords.now s.old k block.old.items) }
{
    if !block.is_full() {
        return k;
    }
    let more = Nodes {
        coords,
        order: block.as_slice(),
    };
    merge(&more, s, k);
    let end = k + block.len();
    block.clear();
    end
}

// s has a mark for each node. The marked ones are put at its front, by x, then y; equal ones stay rising. Answers how many they are. They are sorted in blocks
// of 128, each put in among those before it, so that a node is moved some √n times, not n.
// No sort of the library: the stable one takes memory, and the other leaves equal nodes in any order.
fn sorted_indices_for(coords: &[f64], s: &mut [u32]) -> usize
    requires { (length s.old ≤ 16384) × (length s.old ≤ length coords.now / 2) × AllPlaced coords.now }
    ensures { (result ≡ length (indices_in_order coords.now s.old)) × (s.new ≡ front s.old (indices_in_order coords.now s.old)) }
{
    let mut block = ArrayVec::new();
    let mut k: usize = 0;
    // By index: of s, whose marks are read, the front is written.
    for i in 0..s.len() {
        put_in_order(coords, s, &mut block, i);
        k = merge_full(coords, s, k, &mut block);
    }
    let rest = Nodes {
        coords,
        order: block.as_slice(),
    };
    merge(&rest, s, k);
    k + block.len()
}

// ---- The nearest of them

fn distance2(p: Point, q: Point) -> f64
    ensures { result ≡ distance2 p q }
{
    let step = p - q;
    step.dot(step)
}

fn nearer(d: f64, v: u32, best: Nearest) -> Nearest
    ensures { result ≡ nearer d v best }
{
    if d < best.dist2 {
        return Nearest {
            dist2: d,
            node: Some(v),
        };
    }
    best
}

impl<'a> Nodes<'a> {
    // The first of them that isn't 1e-12 or more to the left of p.
    fn window_start(&self, p: Point) -> usize
        ensures { (result ≡ window_start self.now.coords.now self.now.order.now p) × (result ≤ length self.now.order.now) }
    {
        let coords = self.coords;
        self.order
            .partition_point(|v| !(p.x - point_at(coords, *v).x < 1e-12))
    }

    // The nearest of them that have the layer sought, at a squared distance strictly below 1e-12 × 1e-12, the first of equally near ones.
    // From the first on that lies 1e-12 or more to the right of p, all are too far.
    #[tactic(auto, unfolding(rules::specs::Snap::nearest_to), using(crate::proofs::Near::near_turn, crate::proofs::Near::near_end))]
    fn nearest(&self, layers: &[u32], sought: u32, p: Point) -> Option<u32>
        ensures { result ≡ closest_within self.now.coords.now layers.now self.now.order.now sought p }
    {
        let coords = self.coords;
        let mut best = Nearest {
            dist2: 1e-12 * 1e-12,
            node: None,
        };
        for v in self.order {
            let q = point_at(coords, *v);
            if p.x - q.x <= -1e-12 {
                return best.node;
            }
            if number_at(layers, *v as usize) == sought {
                best = nearer(distance2(p, q), *v, best);
            }
        }
        best.node
    }

    // The same, of nodes of which many may lie to the left of p. Nodes on one vertical line are all looked at: to weld such meshes stays quadratic.
    #[tactic(auto, using(crate::proofs::Near::window_whole, crate::proofs::Near::window_order))]
    fn closest_within(&self, layers: &[u32], sought: u32, p: Point) -> Option<u32>
        ensures { result ≡ closest_within self.now.coords.now layers.now self.now.order.now sought p }
    {
        let from = self.window_start(p);
        let window = Nodes {
            coords: self.coords,
            order: &self.order[from..],
        };
        window.nearest(layers, sought, p)
    }

    // The number of the cutter's node j, by its mark, where these are the used subject nodes, with their layers.
    #[tactic(auto, unfolding(crate::specs::Steps::number_by), using(crate::proofs::Numbers::unwrap_shifted))]
    fn number_of(&self, layers: &[u32], cutter: &MeshView, mark: u32, j: usize) -> u32
        requires { (length self.now.coords.now / 2 ≤ 16384) × (j < 16384) }
        ensures { result ≡ number_by self.now.coords.now layers.now self.now.order.now cutter.now.coords.now cutter.now.layers.now mark j }
    {
        let shifted = (j + self.coords.len() / 2) as u32;
        if mark == 0 {
            return shifted;
        }
        let p = point_at(cutter.coords, j as u32);
        let sought = number_at(cutter.layers, j);
        self.closest_within(layers, sought, p).unwrap_or(shifted)
    }
}

// Each of the cutter's nodes has a mark in `numbers`, whose place its number takes. `order` has the used subject nodes in order. A part of a list that is
// written later is lent as it is, not in a struct, or a proof doesn't know the whole list in the end.
#[tactic(auto, using(crate::proofs::Numbers::number_start))]
fn number_nodes(subject: &MeshView, order: &[u32], cutter: &MeshView, numbers: &mut [u32])
    requires { (length subject.now.coords.now / 2 ≤ 16384) × (length numbers.old ≤ 16384) × InOrder subject.now.coords.now order.now }
    ensures { numbers.new ≡ each (length numbers.old)
        (λ j. number_by subject.now.coords.now subject.now.layers.now order.now cutter.now.coords.now cutter.now.layers.now (get_or numbers.old j 0) j) }
{
    let nodes = Nodes {
        coords: subject.coords,
        order,
    };
    // By index: after a loop over `iter_mut().enumerate()` a proof knows no element.
    for j in 0..numbers.len() {
        numbers[j] = nodes.number_of(subject.layers, cutter, numbers[j], j);
    }
}

// The numbers of the cutter's nodes, at the front of w; as many places behind them as the subject has nodes are used, and zero at the end.
#[tactic(auto, using(crate::proofs::Whole::ordered))]
pub fn duplicates_from(subject: &MeshView, cutter: &MeshView, w: &mut [u32])
    requires { (length subject.now.coords.now / 2 ≤ 16384) × (length cutter.now.coords.now / 2 ≤ 16384)
        × (length cutter.now.coords.now / 2 + length subject.now.coords.now / 2 ≤ length w.old)
        × AllPlaced subject.now.coords.now }
    ensures { w.new ≡ front w.old (weld (mesh subject.now.coords.now subject.now.layers.now subject.now.nodes.now [] [] [])
        (mesh cutter.now.coords.now cutter.now.layers.now cutter.now.nodes.now [] [] []) ++ zeros (length subject.now.coords.now / 2)) }
{
    let coords = subject.coords;
    let (numbers, rest) = w.split_at_mut(cutter.coords.len() / 2);
    let (marks, _) = rest.split_at_mut(coords.len() / 2);
    mark_named(cutter.nodes, 0, numbers);
    mark_named(subject.nodes, 0, marks);
    let count = sorted_indices_for(coords, marks);
    number_nodes(subject, &marks[..count], cutter, numbers);
    marks.fill(0);
}
