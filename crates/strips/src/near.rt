// The things whose boxes meet a box, one after the other, rising: they are looked for some at a time.
ghost use Rattle.std.specs.Prelude.{◌≡◌, [], ◌≤◌, ◌<◌};
ghost use Rattle.std.specs.Iterator.{YieldsFirst, item_count};

use crate::gathering::Index;
use rules::Bounds;

// N are looked for at a time. Those that are still to come: of those found, from place `at` on; then those from number `from` on, unless there are none. An array
// with its count, no `ArrayVec`: `gather` writes to the front of a list and answers how many.
#[derive(Drop)]
pub struct Near<'a, const N: usize> {
    index: Index<'a>,
    bounds: Bounds,
    found: [u32; N],
    count: usize,
    at: usize,
    from: Option<usize>,
    ghost some: { 0 < N },
    ghost fits: { count ≤ N },
}

impl<'a, const N: usize> Near<'a, N> {
    ghost use Rattle.strips.specs.Near.{near_left};

    // Looks for the next ones where those found are given.
    #[tactic(auto, using(crate::proofs::Rounds::used_up, crate::proofs::Rounds::round_last, crate::proofs::Rounds::round_full))]
    fn fill(&mut self)
        ensures same { near_left self.new ≡ near_left self.old }
        ensures none { self.new.count ≤ self.new.at → near_left self.new ≡ [] }
    {
        if self.at < self.count {
            return;
        }
        let Some(from) = self.from else {
            return;
        };
        self.count = self.index.gather(self.bounds, from, &mut self.found);
        self.at = 0;
        self.from = if self.count < N {
            None
        } else {
            Some(self.found[N - 1] as usize + 1)
        };
    }
}

impl<'a> Index<'a> {
    ghost use Rattle.strips.specs.Meeting.{things_meeting};
    ghost use Rattle.strips.specs.Near.{near_left};

    // The things whose boxes meet b, rising, N at a time.
    fn near_by<const N: usize>(&self, b: Bounds) -> Near<'a, N>
        requires { 0 < N }
        ensures { near_left result ≡ things_meeting self.now.things.coords.now self.now.things.nodes.now self.now.things.ends.now b 0 }
    {
        Near {
            index: *self,
            bounds: b,
            found: [0; N],
            count: 0,
            at: 0,
            from: Some(0),
        }
    }

    // The things whose boxes meet b, rising, where they are few: those about a point.
    pub fn near(&self, b: Bounds) -> Near<'a, 64>
        ensures { near_left result ≡ things_meeting self.now.things.coords.now self.now.things.nodes.now self.now.things.ends.now b 0 }
    {
        self.near_by::<64>(b)
    }

    // The same where they may be many, as an edge's candidates: each round goes along all chains that the box reaches.
    pub fn near_many(&self, b: Bounds) -> Near<'a, 1024>
        ensures { near_left result ≡ things_meeting self.now.things.coords.now self.now.things.nodes.now self.now.things.ends.now b 0 }
    {
        self.near_by::<1024>(b)
    }
}

impl<'a, const N: usize> Iterator for Near<'a, N> {
    ghost use Rattle.strips.specs.Near.{near_left};

    type Item = usize;

    ghost next_gives = { YieldsFirst near_left };

    ghost remaining = { item_count near_left };

    #[tactic(auto, using(crate::proofs::Rounds::used_up, crate::proofs::Rounds::one_given))]
    fn next(&mut self) -> Option<usize> {
        self.fill();
        if self.count <= self.at {
            return None;
        }
        let j = self.found[self.at];
        self.at += 1;
        Some(j as usize)
    }
}
