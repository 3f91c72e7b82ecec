// A flat list cut into runs by where each ends: a mesh's cells, the pieces of a cell.
ghost use Rattle.std.specs.Prelude.{◌≡◌, ◌-◌};
ghost use Rattle.std.specs.Iterator.{YieldsFirstRef, item_count};
ghost use Rattle.lists.specs.Regions.{run};
ghost use Rattle.lists.specs.Runs.{runs, runs_left};

// The runs of a list that are still to come: the first from `from` on, each up to its end, as far as the list goes.
#[derive(Drop)]
pub struct Runs<'a> {
    numbers: &'a [u32],
    ends: &'a [u32],
    from: usize,
}

// The numbers from `from` up to `end`, as far as there are.
#[tactic(auto, unfolding(crate::specs::Regions::run))]
fn part(numbers: &[u32], from: usize, end: usize) -> &[u32]
    ensures { result.now ≡ run numbers.now from (end - from) }
{
    numbers.get(from..numbers.len().min(end)).unwrap_or(&[])
}

impl<'a> Runs<'a> {
    pub fn new(numbers: &'a [u32], ends: &'a [u32]) -> Runs<'a>
        ensures { runs_left result ≡ runs numbers.now ends.now }
    {
        Runs {
            numbers,
            ends,
            from: 0,
        }
    }
}

impl<'a> Iterator for Runs<'a> {
    type Item = &'a [u32];

    ghost next_gives = { YieldsFirstRef runs_left };

    ghost remaining = { item_count runs_left };

    #[tactic(auto, unfolding(crate::specs::Runs::runs_from))]
    fn next(&mut self) -> Option<&'a [u32]> {
        let (end, rest) = self.ends.split_first()?;
        let run = part(self.numbers, self.from, *end as usize);
        self.from = *end as usize;
        self.ends = rest;
        Some(run)
    }
}
