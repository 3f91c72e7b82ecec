// The index as it is made, in a lent list.
ghost use Rattle.std.specs.Prelude.{◌≡◌, ◌≤◌, ◌<◌, length, get_or, set};
ghost use Rattle.std.specs.List.{position};
ghost use Rattle.lists.specs.Search.{first};
ghost use Rattle.lists.specs.Gather.{each};
ghost use Rattle.lists.specs.Regions.{front};
ghost use Rattle.strips.specs.Index.{strip_count, chain_count, index_size, is_before, sample_node, picked, head_at, next_at, above};
ghost use Rattle.strips.specs.Lent.{count_of, samples_in, bounds_in, chain_in, level_in, index_in};

use crate::squares::{Axis, Strips, coordinate};
use crate::things::{Things, number_at};
use lists::insert_at;

// How many strips there are for n things: the root of n, at least 1 and at most 256.
#[tactic(auto, using(crate::proofs::Sizes::root_is, crate::proofs::Sizes::side_range))]
fn side_of(n: usize) -> usize
    ensures { (result ≡ strip_count n) × (1 ≤ result) × (result ≤ 256) }
{
    n.isqrt().clamp(1, 256)
}

// How many chains there are.
pub(crate) fn chain_count(n: usize) -> usize
    requires { n ≤ 65536 }
    ensures { result ≡ chain_count n }
{
    n + n / 2 + 8
}

// How many numbers the index of n things takes.
pub fn index_size(n: usize) -> usize
    requires { n ≤ 65536 }
    ensures { result ≡ index_size n }
{
    let side = side_of(n);
    let h = chain_count(n);
    2 + 2 * side + h + n
}

// Before which of those in order the node v goes; none where it goes behind them.
#[tactic(auto, using(crate::proofs::Samples::before_is))]
fn position_of(coords: &[f64], order: &[u32], axis: Axis, v: u32) -> Option<usize>
    ensures { result ≡ position (is_before coords.now axis v) order.now }
{
    let c = coordinate(coords, axis, v);
    order.iter().position(|u| c < coordinate(coords, axis, *u))
}

// Where the node v goes among those in order.
#[tactic(auto, using(lists::proofs::Search::first_le))]
fn place(coords: &[f64], order: &[u32], axis: Axis, v: u32) -> usize
    ensures place { result ≡ first (λ i. is_before coords.now axis v (get_or order.now i 0)) 0 (length order.now) }
    ensures within { result ≤ length order.now }
{
    position_of(coords, order, axis, v).unwrap_or(order.len())
}

// Evenly spread ones of those in order. By index: of a list written through `iter_mut().enumerate()` a proof knows no element.
#[tactic(auto, using(crate::proofs::Samples::picking_start, crate::proofs::Samples::picking_turn))]
fn pick(order: &[u32], bounds: &mut [u32])
    requires { (length bounds.old ≤ 256) × (length order.now ≤ 1024) }
    ensures { bounds.new ≡ picked (length bounds.old) (length order.now) order.now }
{
    let k = order.len();
    let side = bounds.len();
    for t in 0..side {
        bounds[t] = number_at(order, t * k / side);
    }
}

impl<'a> Things<'a> {
    // ---- The nodes at which strips begin

    // Sample i of k: the first node of a thing.
    #[tactic(auto, using(crate::proofs::Samples::sample_is))]
    fn sample(&self, k: usize, i: usize) -> u32
        requires { (i < k) × (k ≤ 1024) }
        ensures { result ≡ sample_node self.now.nodes.now self.now.ends.now k i }
    {
        let j = i * self.count() / k;
        let s = self.start(j);
        number_at(self.nodes, s)
    }

    // Fills the list with samples in order. No sort of the library: the stable one takes memory, the other leaves equal ones in any order. By index: those before it
    // are lent while one is put in.
    #[tactic(auto, using(crate::proofs::Samples::sorting_start, crate::proofs::Samples::sorting_end))]
    fn sort_samples(&self, axis: Axis, order: &mut [u32])
        requires { length order.old ≤ 1024 }
        ensures { order.new ≡ samples_in self.now axis (length order.old) }
    {
        let k = order.len();
        for i in 0..k {
            let v = self.sample(k, i);
            let p = place(self.coords, &order[..i], axis, v);
            insert_at(order, i, p, v);
        }
    }

    // The nodes at which the strips of one axis begin. The samples stand in `scratch` then.
    #[tactic(auto, using(crate::proofs::Samples::samples_fit, crate::proofs::Samples::bound_is, crate::proofs::Sizes::side_range))]
    fn bound(&self, axis: Axis, bounds: &mut [u32], scratch: &mut [u32])
        requires { (length bounds.old ≡ strip_count (count_of self.now)) × (count_of self.now ≤ length scratch.old) }
        ensures { bounds.new ≡ bounds_in self.now axis }
    {
        let k = (4 * bounds.len()).min(self.count());
        let order = &mut scratch[..k];
        self.sort_samples(axis, order);
        pick(order, bounds);
    }

    // ---- The chains

    // Puts thing j before those on its chain. Answers its level. A chain is a number in each of two lists, its head and the links: memory is fixed.
    // Where a chain ends the number of things stands, as the list has no other word for none.
    #[tactic(auto, using(crate::proofs::Linking::thing_chain))]
    fn link_thing(&self, strips: &Strips, heads: &mut [u32], nexts: &mut [u32], j: usize) -> usize
        requires { (j < length nexts.old) × (length nexts.old ≡ count_of self.now) × (length heads.old ≡ chain_count (length nexts.old)) }
        ensures head { heads.new ≡ set heads.old (chain_in self.now strips.now.xs.now strips.now.ys.now j) j }
        ensures next { nexts.new ≡ set nexts.old j (get_or heads.old (chain_in self.now strips.now.xs.now strips.now.ys.now j) 0) }
        ensures level { (result ≡ level_in self.now strips.now.xs.now strips.now.ys.now j) × (result ≤ 512) }
    {
        let s = strips.span(self.coords, self.bounds(j)).narrowed();
        let c = s.chain(heads.len(), s.x0, s.y0);
        nexts[j] = heads[c];
        heads[c] = j as u32;
        s.level
    }

    // Puts all of them on chains. Answers how many levels there are. `xs` and `ys` come apart and are a struct here: lent in one by `build`, whose list they are
    // parts of, that list wouldn't be known in the end.
    #[tactic(auto, using(crate::proofs::Sizes::side_range))]
    fn link(&self, xs: &[u32], ys: &[u32], heads: &mut [u32], nexts: &mut [u32]) -> usize
        requires { (length nexts.old ≡ count_of self.now) × (length heads.old ≡ chain_count (length nexts.old))
            × (length xs.now ≡ strip_count (length nexts.old)) × (length ys.now ≡ length xs.now) }
        ensures head { heads.new ≡ each (length heads.old) (head_at (chain_in self.now xs.now ys.now) (length nexts.old)) }
        ensures next { nexts.new ≡ each (length nexts.old) (next_at (chain_in self.now xs.now ys.now) (length nexts.old)) }
        ensures level { (result ≡ above (level_in self.now xs.now ys.now) 0 (length nexts.old)) × (result ≤ 513) }
    {
        let strips = Strips { xs, ys };
        let n = nexts.len();
        heads.fill(n as u32);
        // by number: it is the thing's number that is written, and the four lists are parts of the index in the caller's list
        let mut levels: usize = 0;
        for j in (0..n).rev() {
            let l = self.link_thing(&strips, heads, nexts, j);
            levels = (l + 1).max(levels);
        }
        levels
    }

    // Writes their index to the front of the list. Answers where it ends.
    #[tactic(auto, using(crate::proofs::Making::left_behind, crate::proofs::Making::index_made))]
    pub fn build(&self, ix: &mut [u32]) -> usize
        requires { index_size (count_of self.now) ≤ length ix.old }
        ensures { (result ≡ index_size (count_of self.now)) × (ix.new ≡ front ix.old (index_in self.now)) }
    {
        let n = self.count();
        let side = side_of(n);
        let h = chain_count(n);
        let (counts, rest) = ix.split_at_mut(2);
        let (xs, rest) = rest.split_at_mut(side);
        let (ys, rest) = rest.split_at_mut(side);
        let (heads, rest) = rest.split_at_mut(h);
        let (nexts, _) = rest.split_at_mut(n);
        self.bound(Axis::X, xs, heads);
        self.bound(Axis::Y, ys, heads);
        let levels = self.link(xs, ys, heads, nexts);
        counts[0] = side as u32;
        counts[1] = levels as u32;
        index_size(n)
    }
}
