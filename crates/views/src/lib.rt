// A mesh as a view over the caller's lists, and the lists that the pieces go to.
#![tactic(auto)]

ghost use Rattle.std.specs.Prelude.{◌≡◌};
ghost use Rattle.views.specs.Same.{SameLists, Cleared};

// A mesh as read: coordinates (x then y), each node's layer, node numbers (flat), cell ends, kinds, families.
#[derive(Clone, Copy)]
pub struct MeshView<'a> {
    pub coords: &'a [f64],
    pub layers: &'a [u32],
    pub nodes: &'a [u32],
    pub ends: &'a [u32],
    pub kinds: &'a [u8],
    pub families: &'a [u32],
}

// The lists that the pieces go to: those of a mesh, and for each piece its parent, the mesh (0 subject, 1 cutter) and the cell there. Each contract says that the lists
// are the same still, as a struct of `&mut` lists needs.
#[derive(Drop)]
pub struct OutputView<'a> {
    pub coords: &'a mut [f64],
    pub layers: &'a mut [u32],
    pub nodes: &'a mut [u32],
    pub ends: &'a mut [u32],
    pub kinds: &'a mut [u8],
    pub families: &'a mut [u32],
    pub meshes: &'a mut [u32],
    pub cells: &'a mut [u32],
}

// A mesh of six lists, which C hands over one by one.
pub fn view<'a>(
    coords: &'a [f64],
    layers: &'a [u32],
    nodes: &'a [u32],
    ends: &'a [u32],
    kinds: &'a [u8],
    families: &'a [u32],
) -> MeshView<'a>
    ensures { (result.coords ≡ coords.entry) × (result.layers ≡ layers.entry) × (result.nodes ≡ nodes.entry) × (result.ends ≡ ends.entry) × (result.kinds ≡ kinds.entry)
        × (result.families ≡ families.entry) }
{
    MeshView {
        coords,
        layers,
        nodes,
        ends,
        kinds,
        families,
    }
}

// An output of eight lists: it stands for the public interface, beside `view`. overlay_c writes the fields by name: over this call its proof didn't close.
pub fn output<'a>(
    coords: &'a mut [f64],
    layers: &'a mut [u32],
    nodes: &'a mut [u32],
    ends: &'a mut [u32],
    kinds: &'a mut [u8],
    families: &'a mut [u32],
    meshes: &'a mut [u32],
    cells: &'a mut [u32],
) -> OutputView<'a>
    ensures { (result.coords ≡ coords.entry) × (result.layers ≡ layers.entry) × (result.nodes ≡ nodes.entry) × (result.ends ≡ ends.entry) × (result.kinds ≡ kinds.entry)
        × (result.families ≡ families.entry) × (result.meshes ≡ meshes.entry) × (result.cells ≡ cells.entry) }
{
    OutputView {
        coords,
        layers,
        nodes,
        ends,
        kinds,
        families,
        meshes,
        cells,
    }
}

impl OutputView<'_> {
    // Every list to zero.
    pub fn clear(&mut self)
        ensures cleared { Cleared self.old self.new }
        ensures same_lists { SameLists self.new self.old }
    {
        self.coords.fill(0.0);
        self.layers.fill(0);
        self.nodes.fill(0);
        self.ends.fill(0);
        self.kinds.fill(0);
        self.families.fill(0);
        self.meshes.fill(0);
        self.cells.fill(0);
    }
}
