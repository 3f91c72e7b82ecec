// Nodes in order along a key, and adjacent equals dropped from them.
ghost use Rattle.std.specs.Prelude.{◌≡◌, [], ◌∷◌, ◌++◌, map, List, ◌+◌, ◌≤◌, ◌<◌, eqb, length, take};
ghost use Rattle.std.specs.List.{position};
ghost use Rattle.lists.specs.Gather.{slim};
ghost use Rattle.lists.specs.Sort.{insert, sort_onto};
ghost use Rattle.rules.specs.Nodes.{total_before};
ghost use Rattle.edge_nodes.specs.declared.nodes.Placed.{Placed};
ghost use Rattle.edge_nodes.specs.Chained.{edge_of};
ghost use Rattle.edge_nodes.specs.Lent.{placed, first_placed, goes_in, all_placed, stands_before, node_of, pushed};
ghost use Rattle.lists.specs.Regions.{FrontIs};

use arrayvec::ArrayVec;
use keys::SortedKey;
use plane::point_at;
use std::marker::Model;

// A node, and how far it lies along a key.
#[derive(Clone, Copy, Default)]
pub(crate) struct Placed {
    pub along: f64,
    pub node: u32,
}

// At most 257 nodes in order, seen as their list.
#[derive(Drop)]
pub(crate) struct Nodes {
    items: ArrayVec<Placed, 257>,
}

impl Model for Nodes {
    ghost Value = { List Placed };

    ghost view = { λ t. t.items.items };
}

// Total order, -0 before +0. No `total_cmp`: it asks for numbers, and coordinates may be any.
#[tactic(auto, using(crate::proofs::Signs::numbers, crate::proofs::Signs::below_zero, crate::proofs::Signs::not_below_zero))]
fn total_before(x: f64, y: f64) -> bool
    ensures { result ≡ total_before x y }
{
    if x < y {
        return true;
    }
    if x == y {
        return x.is_sign_negative() && !y.is_sign_negative();
    }
    false
}

// The node v along the key.
pub(crate) fn place(coords: &[f64], key: SortedKey, v: u32) -> Placed
    ensures { result ≡ placed coords.now (edge_of key) v }
{
    let p = point_at(coords, key.first);
    let q = point_at(coords, key.second);
    let n = point_at(coords, v);
    Placed {
        along: (q - p).dot(n - p),
        node: v,
    }
}

// The key's first node. With a grid it stands before all others, wherever these lie.
#[tactic(auto, unfolding(crate::specs::Lent::first_placed))]
pub(crate) fn place_first(grid: Option<u32>, coords: &[f64], key: SortedKey) -> Placed
    ensures { result ≡ first_placed grid coords.now (edge_of key) }
{
    match grid {
        None => place(coords, key, key.first),
        Some(_) => Placed {
            along: f64::NEG_INFINITY,
            node: key.first,
        },
    }
}

// Whether v is put among the nodes of the key: its own are not where there is a grid.
#[tactic(auto, unfolding(crate::specs::Lent::goes_in))]
fn goes_in(grid: Option<u32>, key: SortedKey, v: u32) -> bool
    ensures { result ≡ goes_in grid (edge_of key) v }
{
    match grid {
        None => true,
        Some(_) => v != key.first && v != key.second,
    }
}

// Before which of them one more goes; none where it goes behind them.
fn position_of(items: &[Placed], x: Placed) -> Option<usize>
    ensures { result ≡ position (stands_before x) items.now }
{
    items.iter().position(|y| total_before(x.along, y.along))
}

impl Nodes {
    pub(crate) fn new() -> Self
        ensures { result ≡ [] }
    {
        Nodes {
            items: ArrayVec::new(),
        }
    }

    pub(crate) fn items(&self) -> &[Placed]
        ensures items { result.now ≡ self.now }
        ensures few { length self.now ≤ 257 }
    {
        self.items.as_slice()
    }

    // Puts one in its place. No `ArrayVec::insert`: it rotates, and a rotation calls memmove, which the C archive asks of nobody.
    #[tactic(auto, using(lists::proofs::InPlace::put_among))]
    pub(crate) fn insert(&mut self, x: Placed)
        requires { length self.old < 257 }
        ensures { self.new ≡ insert stands_before x self.old }
    {
        let n = self.items.len();
        let k = position_of(self.items.as_slice(), x).unwrap_or(n);
        self.items.push(x);
        lists::insert_at(self.items.as_mut_slice(), n, k, x);
    }

    // Puts nodes in their places along the key.
    #[tactic(auto, using(crate::proofs::Sorted::one_on, crate::proofs::Sorted::one_passed, crate::proofs::Sorted::none_left, lists::proofs::Sort::length_insert))]
    pub(crate) fn insert_all(
        &mut self,
        grid: Option<u32>,
        coords: &[f64],
        key: SortedKey,
        nodes: &[u32],
    )
        requires { length self.old + length nodes.now ≤ 257 }
        ensures { self.new ≡ sort_onto stands_before self.old (all_placed grid coords.now (edge_of key) nodes.now) }
    {
        for v in nodes {
            if goes_in(grid, key, *v) {
                self.insert(place(coords, key, *v));
            }
        }
    }
}

// Puts v behind the first k, unless it equals the last of them. List and count are no struct: its contracts would have to say that it is the same list.
#[tactic(auto, using(crate::proofs::Slim::same_count, crate::proofs::Slim::same_held, crate::proofs::Slim::more_count, crate::proofs::Slim::more_held))]
fn push(out: &mut [u32], k: usize, v: u32) -> usize
    requires { k < length out.old }
    ensures { FrontIs (pushed (take k out.old) v) out.old result out.new }
{
    if out[..k].ends_with(&[v]) {
        return k;
    }
    out[k] = v;
    k + 1
}

// Writes the nodes with `last` behind them, adjacent equals dropped, to the front of `out`. Answers how many they are.
pub(crate) fn dedup(items: &[Placed], last: u32, out: &mut [u32]) -> usize
    requires { length items.now < length out.old }
    ensures { FrontIs (slim eqb (map node_of items.now ++ last ∷ [])) out.old result out.new }
{
    let mut k: usize = 0;
    for p in items {
        k = push(out, k, p.node);
    }
    push(out, k, last)
}
