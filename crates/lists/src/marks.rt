// Which nodes a list names.
ghost use Rattle.std.specs.Prelude.{◌≡◌, length};
ghost use Rattle.lists.specs.Marks.{marks_from};

// A mark for each of the nodes first, first + 1, ..: 1 where some entry of the list is it, 0 where none is.
#[tactic(auto, using(crate::proofs::Marking::none_yet))]
pub fn mark_named(nodes: &[u32], first: usize, marks: &mut [u32])
    ensures { marks.new ≡ marks_from nodes.now first (length marks.old) }
{
    marks.fill(0);
    for v in nodes {
        let v = *v as usize;
        if first <= v && v - first < marks.len() {
            marks[v - first] = 1;
        }
    }
}
