// The walk of a cell's table, which is seen as the list of its slots.
#![tactic(auto)]

ghost use Rattle.std.specs.Prelude.{◌≡◌, true, [], ◌+◌, ◌≤◌, ◌<◌, length, reverse, unwrap_or, IfSome, MatchOption};
ghost use Rattle.std.specs.List.{position};
ghost use Rattle.cutting.specs.Walk.{opens_from, next_open, starts, walk, slot, srcs, dsts, marks_of};
ghost use Rattle.cutting.specs.Outcome.{of_walk};
ghost use Rattle.cutting.specs.Lent.{pairs};
ghost use Rattle.refusals.specs.Numbers.{by_number};
ghost use Rattle.dart_walk.specs.Answer.{Followed, reverse_in, Room, Written, answer, walked_from, corners_in, ends_in};

use arrayvec::ArrayVec;
use cutting::Slot;
use dart_table::find_slot;
use lists::copy_at;
use refusals::Refusal;

// How many pieces a cell comes to, and corners in them.
#[derive(Clone, Copy, Debug, PartialEq, Eq)]
pub struct Counts {
    pub pieces: usize,
    pub entries: usize,
}

// The first slot that leads from a to b, by the walk's lists.
fn find(slots: &[Slot], a: u32, b: u32) -> Option<usize>
    ensures within { IfSome result (λ i. i < length slots.now) }
    ensures found { unwrap_or result (length slots.now) ≡ slot (length slots.now) (srcs slots.now) (dsts slots.now) a b }
{
    find_slot(slots, a, b)
}

// The first unmarked slot of the node a.
fn first_open(slots: &[Slot], a: u32) -> Option<usize>
    ensures { result ≡ position (opens_from a) slots.now }
{
    slots.iter().position(|s| s.src == a && !s.marked)
}

// The first unmarked slot of the node a after its slot r, going round, r itself last.
#[tactic(auto, using(crate::proofs::Slots::late_next, crate::proofs::Slots::early_next, crate::proofs::Slots::back_next, crate::proofs::Slots::none_next))]
fn next_open(slots: &[Slot], a: u32, r: usize) -> Option<usize>
    requires { r < length slots.now }
    ensures within { IfSome result (λ i. i < length slots.now) }
    ensures found { unwrap_or result (length slots.now) ≡ next_open true (length slots.now) (srcs slots.now) (marks_of slots.now) a r }
{
    let late = first_open(&slots[r + 1..], a).map(|k| r + 1 + k);
    late.or_else(|| first_open(&slots[..r], a))
        .or_else(|| if slots[r].marked { None } else { Some(r) })
}

// Puts onto an empty heap what a walk begins with, the heap's end first as the definition has it: the first slots of the outline's darts. The number of the slots
// stands for none, as on the definition's heap, which is this list: a list of options would be another. The heap is lent, as all that is of some size.
#[tactic(auto, using(cutting::proofs::Chunks::chunked, crate::proofs::Heaps::slot_le))]
fn fill_heap(slots: &[Slot], outline: &[u32], heap: &mut ArrayVec<u32, 2048>)
    requires { (length slots.now ≤ 1024) × (length outline.now ≤ 4096) × (heap.old.items ≡ []) }
    ensures { reverse heap.new.items ≡ starts (length slots.now) (srcs slots.now) (dsts slots.now) (pairs outline.now) [] }
{
    for dart in outline.as_chunks::<2>().0 {
        let [a, b] = *dart;
        heap.push(find(slots, a, b).unwrap_or(slots.len()) as u32);
    }
}

// Goes along slot i, which goes by its number, as on the heap: marks it, and puts its reverse onto the heap. Answers the node that it leads to, and the reverse.
#[tactic(auto, using(crate::proofs::Slots::none_there))]
fn follow(slots: &mut [Slot], heap: &mut ArrayVec<u32, 2048>, i: usize) -> Option<(u32, usize)>
    requires { (i < length slots.old) × (length slots.old ≤ 1024) × (length heap.old.items < 2048) }
    ensures { MatchOption result (length slots.old ≤ reverse_in slots.old i)
        (λ p. Followed slots.old (reverse heap.old.items) i slots.new (reverse heap.new.items) p.0 p.1) }
{
    let Slot { src, dst, .. } = slots[i];
    slots[i].marked = true;
    let back = find(slots, dst, src)?;
    heap.push(back as u32);
    Some((dst, back))
}

// Walks the slots from those on the heap: each that is unmarked begins a piece, which goes on until it is back at its first node. A turn of a loop is a
// step of the definition. `nodes` and `stops` are filled in part, here alone: a struct of a list and its count would be more than the three writes.
fn walk_on(
    slots: &mut [Slot],
    heap: &mut ArrayVec<u32, 2048>,
    nodes: &mut [u32],
    stops: &mut [u32],
) -> Result<Counts, Refusal>
    requires { Room (length slots.old) (reverse heap.old.items) nodes.old stops.old }
    ensures { (by_number result ≡ answer (walked_from slots.old (reverse heap.old.items)))
        × Written (walked_from slots.old (reverse heap.old.items)) nodes.old stops.old nodes.new stops.new }
{
    let mut pieces: usize = 0;
    let mut entries: usize = 0;
    while let Some(first) = heap.pop() {
        let first = first as usize;
        if slots.len() <= first {
            return Err(Refusal::OpenWalk);
        }
        if !slots[first].marked {
            let start = slots[first].src;
            nodes[entries] = start;
            entries += 1;
            let mut at = first;
            loop {
                let Some((y, back)) = follow(slots, heap, at) else {
                    return Err(Refusal::OpenWalk);
                };
                if y == start {
                    break;
                }
                at = next_open(slots, y, back).ok_or(Refusal::OpenWalk)?;
                nodes[entries] = y;
                entries += 1;
            }
            stops[pieces] = entries as u32;
            pieces += 1;
        }
    }
    Ok(Counts { pieces, entries })
}

// Walks a copy of the slots, which takes the marks, with a heap of its own. The copy is an array: an `ArrayVec` is filled
// with blanks just the same, and its answer whether all slots fit would have to be dropped. Slots, outline, nodes and stops are four lists, each with its
// own length.
#[tactic(auto, using(crate::proofs::Answers::room_for))]
fn walk_table(
    slots: &[Slot],
    outline: &[u32],
    nodes: &mut [u32],
    stops: &mut [u32],
) -> Result<Counts, Refusal>
    requires { (length slots.now ≤ 1024) × (length outline.now ≤ 2048) × (length slots.now ≤ length nodes.old) × (length slots.now ≤ length stops.old) }
    ensures { (by_number result ≡ answer (of_walk (walk (pairs outline.now) slots.now)))
        × Written (of_walk (walk (pairs outline.now) slots.now)) nodes.old stops.old nodes.new stops.new }
{
    let mut own = [Slot::default(); 1024];
    let own = &mut own[..slots.len()];
    copy_at(own, 0, slots);
    let mut heap = ArrayVec::new();
    fill_heap(slots, outline, &mut heap);
    walk_on(own, &mut heap, nodes, stops)
}

// Walks the slots of a table from the outline's darts, a flat list of pairs. The corners of the pieces go to the front of `nodes`, one piece after the
// other, and where each piece ends among them to the front of `stops`; both are zero on a refusal. They come one by one: in a struct of the two each
// contract would have to say that they are the same lists, arrays would ask more of callers, and an answer that owned both would leave nothing to promise of the
// lists lent, zeros on a refusal among it. That the slots are at most 1,024 stands in each contract:
// a struct around the slice, with that as a ghost field, is one that callers would have to make.
pub fn walk_dart_map(
    slots: &[Slot],
    outline: &[u32],
    nodes: &mut [u32],
    stops: &mut [u32],
) -> Result<Counts, Refusal>
    requires { (length slots.now ≤ 1024) × (length outline.now ≤ 2048) × (length slots.now ≤ length nodes.old) × (length slots.now ≤ length stops.old) }
    ensures { (by_number result ≡ answer (of_walk (walk (pairs outline.now) slots.now)))
        × (nodes.new ≡ corners_in (of_walk (walk (pairs outline.now) slots.now)) nodes.old)
        × (stops.new ≡ ends_in (of_walk (walk (pairs outline.now) slots.now)) stops.old) }
{
    let walked = walk_table(slots, outline, nodes, stops);
    if walked.is_ok() {
        return walked;
    }
    nodes.fill(0);
    stops.fill(0);
    walked
}
