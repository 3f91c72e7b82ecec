// Regions of the working list, by value: where the edges of both meshes, the meetings and what belongs to them stand in it.
#![tactic(auto)]

ghost use Rattle.std.specs.Prelude.{◌≡◌, length};
ghost use Rattle.regions.specs.Runs.{Within, run_in};

// From `from` up to `end`. No `Range`: runs are copied, and a range is not `Copy`.
#[derive(Clone, Copy, Debug, PartialEq, Eq)]
pub struct Run {
    pub from: usize,
    pub end: usize,
}

impl Run {
    // The part of w that it names.
    #[tactic(auto, unfolding(lists::specs::Regions::run, crate::specs::Runs::run_in))]
    pub fn part(self, w: &[u32]) -> &[u32]
        requires { Within self (length w.now) }
        ensures { result.now ≡ run_in w.now self }
    {
        &w[self.from..self.end]
    }
}

// Of one mesh: its edges, two numbers each, and the node entries of its cells, under one numbering of both meshes.
#[derive(Clone, Copy, Debug, PartialEq, Eq)]
pub struct MeshRuns {
    pub edges: Run,
    pub entries: Run,
}

// The two meshes; the meetings, five numbers each, and the links that chain them.
#[derive(Clone, Copy, Debug, PartialEq, Eq)]
pub struct Regions {
    pub subject: MeshRuns,
    pub cutter: MeshRuns,
    pub met: Run,
    pub links: Run,
}

// The indexes of one mesh, of its edges and of its cells.
#[derive(Clone, Copy, Debug, PartialEq, Eq)]
pub struct MeshIndex {
    pub edges: Run,
    pub cells: Run,
}

#[derive(Clone, Copy, Debug, PartialEq, Eq)]
pub struct Indexes {
    pub subject: MeshIndex,
    pub cutter: MeshIndex,
}
