// The things whose boxes meet a box, rising, found on the chains of the squares that the box reaches.
ghost use Rattle.std.specs.Prelude.{◌≡◌, [], ◌≤◌, ◌<◌, length, take};
ghost use Rattle.strips.specs.Squares.{Small};
ghost use Rattle.strips.specs.Index.{index_of};
ghost use Rattle.strips.specs.Meeting.{things_meeting};
ghost use Rattle.strips.specs.Gathering.{Rises, Risen, PlaceAmong, put_rising, with_thing, with_things, Chains};
ghost use Rattle.lists.specs.Regions.{FrontIs};

use crate::building::chain_count;
use crate::squares::{Span, Strips};
use crate::things::Things;
use lists::insert_at;
use rules::Bounds;
use spatial_index::bounds_meet;

// Things with their index.
#[derive(Clone, Copy)]
pub struct Index<'a> {
    pub things: Things<'a>,
    pub numbers: &'a [u32],
    ghost is: { numbers.now ≡ index_of things.coords.now things.nodes.now things.ends.now },
}

// The things from `from` on whose boxes meet `bounds` are looked for on their chains.
#[derive(Clone, Copy)]
struct Search<'a> {
    things: Things<'a>,
    heads: &'a [u32],
    nexts: &'a [u32],
    bounds: Bounds,
    from: usize,
    ghost chained: { Chains things.coords.now things.nodes.now things.ends.now heads.now nexts.now },
}

// The things on one chain that are still to come, rising: the next is `at`, and none where that is the number of things.
// edge_nodes' `Chain` goes along links too: one iterator for both would promise the numbers on a chain alone, and each would have to say besides what they number.
#[derive(Drop)]
struct Chain<'b, 'a> {
    search: &'b Search<'a>,
    at: usize,
}

// Where v stands among numbers that rise, or goes. The things on a chain come rising, so that most go behind the last one, or drop out of a full list.
fn rising_place(found: &[u32], v: u32) -> Result<usize, usize>
    requires { Rises found.now }
    ensures place { PlaceAmong found.now v result }
{
    match found.last() {
        Some(last) if v <= *last => found.binary_search(&v),
        _ => Err(found.len()),
    }
}

// Puts v among the first k, which rise, unless it is there. Answers how many there are then; in a full list the last one goes.
// List and count are no struct: in one of a `&mut` and a count each contract would have to say that it is the same list still, so that the caller knows what
// its own comes to hold; here each says that the first k rise, and that is no longer.
fn put_rising(found: &mut [u32], k: usize, v: u32) -> usize
    requires { Risen k found.old }
    ensures { FrontIs (take (length found.old) (put_rising v (take k found.old))) found.old result found.new }
{
    let Err(p) = rising_place(&found[..k], v) else {
        return k;
    };
    if k < found.len() {
        insert_at(found, k, p, v);
        return k + 1;
    }
    if p < k {
        insert_at(found, k - 1, p, v);
    }
    k
}

impl<'a> Search<'a> {
    ghost use Rattle.strips.specs.Search.{wanted, chain, row, level, levels, count};
    ghost use Rattle.strips.specs.Chain.{chain_left};

    // Whether thing j is no lower than `from` and its box meets the box looked for.
    fn wants(&self, j: usize) -> bool
        requires { j < count self.now }
        ensures { result ≡ wanted self.now j }
    {
        self.from <= j && bounds_meet(self.things.bounds(j), self.bounds)
    }

    // Puts thing j among the first k, if it is wanted.
    #[tactic(auto, using(crate::proofs::Rising::front_here), unfolding(crate::specs::Gathering::with_thing))]
    fn gather_thing(&self, j: usize, found: &mut [u32], k: usize) -> usize
        requires { (j < count self.now) × Risen k found.old }
        ensures { FrontIs (with_thing (length found.old) (wanted self.now) (take k found.old) j) found.old result found.new }
    {
        if self.wants(j) {
            return put_rising(found, k, j as u32);
        }
        k
    }

    // The things on chain c.
    #[tactic(auto, using(crate::proofs::Walk::starts))]
    fn chain(&self, c: usize) -> Chain<'_, 'a>
        requires { c < length self.now.heads.now }
        ensures { chain_left result ≡ chain self.now c }
    {
        Chain {
            search: self,
            at: self.heads[c] as usize,
        }
    }

    // Those on chain c.
    fn gather_chain(&self, c: usize, found: &mut [u32], k: usize) -> usize
        requires { (c < length self.now.heads.now) × Risen k found.old }
        ensures { FrontIs (with_things (length found.old) (wanted self.now) (take k found.old) (chain self.now c)) found.old result found.new }
    {
        let mut r = k;
        for j in self.chain(c) {
            r = self.gather_thing(j, found, r);
        }
        r
    }

    // Those on the chains of a row of squares, from the strip before the first that s reaches. By the strip's number: no list of squares stands behind it.
    fn gather_row(&self, s: Span, y: usize, found: &mut [u32], k: usize) -> usize
        requires { Small s × (y ≤ 256) × Risen k found.old }
        ensures { FrontIs (with_things (length found.old) (wanted self.now) (take k found.old) (row self.now s y)) found.old result found.new }
    {
        let mut r = k;
        for x in s.x0.saturating_sub(1)..s.x1 + 1 {
            let c = s.chain(self.heads.len(), x, y);
            r = self.gather_chain(c, found, r);
        }
        r
    }

    // Those on the chains of all squares of a level. By the row's number: rows are no list either.
    fn gather_level(&self, s: Span, found: &mut [u32], k: usize) -> usize
        requires { Small s × Risen k found.old }
        ensures { FrontIs (with_things (length found.old) (wanted self.now) (take k found.old) (level self.now s)) found.old result found.new }
    {
        let mut r = k;
        for y in s.y0.saturating_sub(1)..s.y1 + 1 {
            r = self.gather_row(s, y, found, r);
        }
        r
    }

    // Those on the chains of all levels, the first `most` of them; the span is halved from one to the next. The loop only counts: levels are no list either.
    #[tactic(auto, using(crate::proofs::Rows::levels_start, crate::proofs::Rows::levels_turn))]
    fn gather_levels(&self, first: Span, most: usize, found: &mut [u32]) -> usize
        requires { Small first × (first.level ≡ 0) × (most ≤ 513) }
        ensures { FrontIs (with_things (length found.old) (wanted self.now) [] (levels self.now first most)) found.old result found.new }
    {
        let mut r: usize = 0;
        let mut s = first;
        for _l in 0..most {
            r = self.gather_level(s, found, r);
            s = s.halved();
        }
        r
    }
}

impl<'b, 'a> Iterator for Chain<'b, 'a> {
    ghost use Rattle.std.specs.Iterator.{YieldsFirst, item_count};
    ghost use Rattle.strips.specs.Chain.{chain_left};

    type Item = usize;

    ghost next_gives = { YieldsFirst chain_left };

    ghost remaining = { item_count chain_left };

    #[tactic(auto, using(crate::proofs::Walk::one_given, crate::proofs::Walk::at_end))]
    fn next(&mut self) -> Option<usize> {
        let j = self.at;
        self.at = *self.search.nexts.get(j)? as usize;
        Some(j)
    }
}

impl<'a> Index<'a> {
    // Writes the things from `from` on whose boxes meet b to the front of `found`, rising, as many as have a place there. Answers how many they are: memory is
    // fixed, and the list is the caller's.
    #[tactic(auto, using(crate::proofs::Reading::reading))]
    pub fn gather(&self, b: Bounds, from: usize, found: &mut [u32]) -> usize
        ensures { FrontIs (take (length found.old) (things_meeting self.now.things.coords.now self.now.things.nodes.now self.now.things.ends.now b from))
            found.old result found.new }
    {
        let things = self.things;
        let numbers = self.numbers;
        let side = numbers[0] as usize;
        let levels = numbers[1] as usize;
        let (xs, rest) = numbers[2..].split_at(side);
        let (ys, links) = rest.split_at(side);
        let (heads, nexts) = links.split_at(chain_count(things.count()));
        let strips = Strips { xs, ys };
        let search = Search {
            things,
            heads,
            nexts,
            bounds: b,
            from,
        };
        search.gather_levels(strips.span(things.coords, b), levels, found)
    }
}
