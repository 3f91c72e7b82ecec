// A cell's table of slots, built edge by edge and kept in its order. Over 1,024 slots are refused (10).
#![tactic(auto)]

ghost use Rattle.std.specs.Prelude.{◌≡◌, [], ◌∷◌, ◌++◌, map, take, ◌+◌, ◌*◌, ◌≤◌, ◌<◌, length};
ghost use Rattle.std.specs.List.{position};
ghost use Rattle.lists.specs.Sort.{insert, sort_onto};
ghost use Rattle.cutting.specs.Edges.{reversed_if};
ghost use Rattle.cutting.specs.Cell.{windows, darts_along, own_darts, near_darts, edge_slots, reverse_mark, names, stands_before};
ghost use Rattle.cutting.specs.Lent.{flat_edges};
ghost use Rattle.refusals.specs.declared.Refusal.TheVariants.{FullTable};
ghost use Rattle.dart_table.specs.Table.{Darts, darts, table_in, with_darts, with_edge, with_edges, outline_with};

use arrayvec::ArrayVec;
use cutting::Slot;
use keys::SortedKey;
use lists::insert_at;
use refusals::Refusal;
use std::marker::Model;

// Whether a slot stands before another one: at one node, by falling angle.
fn stands_before(coords: &[f64], slot: Slot, other: Slot) -> bool
    ensures { result ≡ stands_before coords.now slot other }
{
    if slot.src != other.src {
        return false;
    }
    let p = plane::point_at(coords, slot.src);
    let q = plane::point_at(coords, slot.dst);
    let s = plane::point_at(coords, other.dst);
    exact::compare_around(p, q, s).is_lt()
}

// Before which of the slots one more goes; none where it goes behind them.
fn place(coords: &[f64], slots: &[Slot], slot: Slot) -> Option<usize>
    ensures { result ≡ position (stands_before coords.now slot) slots.now }
{
    slots
        .iter()
        .position(|other| stands_before(coords, slot, *other))
}

// The first slot that leads from a to b.
pub fn find_slot(slots: &[Slot], a: u32, b: u32) -> Option<usize>
    ensures { result ≡ position (names a b) slots.now }
{
    slots.iter().position(|s| s.src == a && s.dst == b)
}

// An edge's two nodes, the other way where `inv` is true.
fn turned(inv: bool, a: u32, b: u32) -> (u32, u32)
    ensures { result ≡ reversed_if inv (a, b) }
{
    if inv { (b, a) } else { (a, b) }
}

// How many slots there would be: over 1,024.
#[derive(Clone, Copy, Debug, PartialEq, Eq)]
pub struct Full {
    pub slots: usize,
}

impl From<Full> for Refusal {
    ghost from_gives = { λ _ r. r ≡ FullTable };

    fn from(_full: Full) -> Refusal {
        Refusal::FullTable
    }
}

// A table of at most 1,024 slots, and the darts of the cell's outline as a flat list of pairs, each of which has two slots: seen as the two lists.
// Coordinates come with each call: as a field they would be no part of what the table is seen as.
#[derive(Drop)]
pub struct DartTable {
    slots: ArrayVec<Slot, 1024>,
    outline: ArrayVec<u32, 1024>,
}

impl Model for DartTable {
    ghost Value = { Darts };

    ghost view = { λ t. darts t.slots.items t.outline.items };

    ghost invariant = { λ t. length t.outline.items ≤ length t.slots.items };
}

impl DartTable {
    pub fn new() -> Self
        ensures { result ≡ darts [] [] }
    {
        DartTable {
            slots: ArrayVec::new(),
            outline: ArrayVec::new(),
        }
    }

    pub fn slots(&self) -> &[Slot]
        ensures slots { result.now ≡ self.now.slots }
        ensures few { length self.now.slots ≤ 1024 }
        ensures short { length self.now.outline ≤ length self.now.slots }
    {
        self.slots.as_slice()
    }

    pub fn outline(&self) -> &[u32]
        ensures { result.now ≡ self.now.outline }
    {
        self.outline.as_slice()
    }

    // Puts a slot in its place. Not by the library's `insert`: the rotation that it does calls memmove, which the C archive asks of nobody.
    #[tactic(auto, using(lists::proofs::InPlace::put_among))]
    fn insert(&mut self, coords: &[f64], slot: Slot)
        requires { length self.old.slots < 1024 }
        ensures { self.new ≡ darts (insert (stands_before coords.now) slot self.old.slots) self.old.outline }
    {
        let n = self.slots.len();
        let k = place(coords, self.slots.as_slice(), slot).unwrap_or(n);
        self.slots.push(slot);
        insert_at(self.slots.as_mut_slice(), n, k, slot);
    }

    // Adds the slot from a to b, and the one from b to a, marked if `back` is true. An edge comes as its two nodes, here and below, which are looked at one by one: a
    // struct of them would be taken apart in each.
    #[tactic(auto, using(lists::proofs::Sort::length_insert), unfolding(lists::specs::Sort::sort_onto, cutting::specs::Cell::edge_slots))]
    fn add_dart(&mut self, coords: &[f64], a: u32, b: u32, back: bool)
        requires { length self.old.slots + 2 ≤ 1024 }
        ensures { self.new ≡ darts (sort_onto (stands_before coords.now) self.old.slots (edge_slots back ((a, b) ∷ []))) self.old.outline }
    {
        let there = Slot {
            src: a,
            dst: b,
            marked: false,
        };
        let back_again = Slot {
            src: b,
            dst: a,
            marked: back,
        };
        self.insert(coords, there);
        self.insert(coords, back_again);
    }

    // Puts a dart behind the others of the outline.
    fn outline_dart(&mut self, a: u32, b: u32)
        requires { (length self.old.outline + 2 ≤ length self.old.slots) × (length self.old.slots ≤ 1024) }
        ensures { self.new ≡ darts self.old.slots (self.old.outline ++ a ∷ b ∷ []) }
    {
        self.outline.push(a);
        self.outline.push(b);
    }

    // Adds the darts along the nodes, each the other way where `inv` is true, also to the outline.
    fn add_along(&mut self, coords: &[f64], inv: bool, nodes: &[u32])
        requires { (length self.old.slots + 2 * length nodes.now ≤ 1026) × (length self.old.outline ≤ length self.old.slots) }
        ensures { self.new ≡ darts (sort_onto (stands_before coords.now) self.old.slots (edge_slots reverse_mark (map (reversed_if inv) (windows nodes.now))))
            (self.old.outline ++ flat_edges (map (reversed_if inv) (windows nodes.now))) }
    {
        for pair in nodes.windows(2) {
            let (a, b) = turned(inv, pair[0], pair[1]);
            self.add_dart(coords, a, b, true);
            self.outline_dart(a, b);
        }
    }

    // Adds the darts along the nodes of an own edge whose second node is given, also to the outline.
    fn add_darts(&mut self, coords: &[f64], second: u32, nodes: &[u32]) -> Result<(), Full>
        requires { 0 < length nodes.now }
        ensures table { table_in result self.new.slots ≡ with_darts coords.now reverse_mark (darts_along second nodes.now) self.old.slots }
        ensures outline { self.new.outline ≡ outline_with (darts_along second nodes.now) (length self.old.slots) self.old.outline }
    {
        let slots = self.slots().len() + 2 * (nodes.len() - 1);
        if 1024 < slots {
            return Err(Full { slots });
        }
        self.add_along(coords, second == nodes[0], nodes);
        Ok(())
    }

    // Adds the darts of the cell's own edge from a to b, by its sorted nodes (none: the edge itself), also to the outline.
    pub fn add_own_edge(
        &mut self,
        coords: &[f64],
        a: u32,
        b: u32,
        nodes: &[u32],
    ) -> Result<(), Full>
        ensures table { table_in result self.new.slots ≡ with_darts coords.now reverse_mark (own_darts (record { edge = (a, b); nodes = nodes.now })) self.old.slots }
        ensures outline { self.new.outline ≡ outline_with (own_darts (record { edge = (a, b); nodes = nodes.now })) (length self.old.slots) self.old.outline }
    {
        if nodes.is_empty() {
            return self.add_darts(coords, b, &[a, b]);
        }
        self.add_darts(coords, b, nodes)
    }

    // Adds the edge from a to b, with a slot at both its ends, if it is new to the table. That the outline stays is said by each that adds such edges: a type of the
    // slots alone would spare it, and have to be lent by each of the table's methods.
    #[tactic(auto, using(crate::proofs::Slots::found, crate::proofs::Adds::edge_loop, crate::proofs::Adds::edge_known))]
    fn add_edge(&mut self, coords: &[f64], a: u32, b: u32) -> Result<(), Full>
        ensures table { table_in result self.new.slots ≡ with_edge coords.now (a, b) self.old.slots }
        ensures outline { self.new.outline ≡ self.old.outline }
    {
        if a == b {
            return Ok(());
        }
        if find_slot(self.slots(), a, b).is_some() {
            return Ok(());
        }
        let slots = self.slots().len() + 2;
        if 1024 < slots {
            return Err(Full { slots });
        }
        self.add_dart(coords, a, b, false);
        Ok(())
    }

    // Adds the new windows of the nodes, until one is refused.
    fn add_new(&mut self, coords: &[f64], nodes: &[u32]) -> Result<(), Full>
        ensures table { table_in result self.new.slots ≡ with_edges coords.now (windows nodes.now) self.old.slots }
        ensures outline { self.new.outline ≡ self.old.outline }
    {
        for pair in nodes.windows(2) {
            self.add_edge(coords, pair[0], pair[1])?;
        }
        Ok(())
    }

    // Adds an edge of the other mesh near the cell, from a to b: those windows of its sorted nodes that are new to the table, or, without such nodes,
    // the whole edge, if it is new.
    #[tactic(auto, using(crate::proofs::Adds::some_of, crate::proofs::Adds::near_whole, crate::proofs::Adds::near_along, crate::proofs::Adds::edge_alone))]
    pub fn add_near_edge(
        &mut self,
        coords: &[f64],
        a: u32,
        b: u32,
        nodes: &[u32],
    ) -> Result<(), Full>
        ensures table { table_in result self.new.slots ≡ with_edges coords.now (near_darts (record { edge = (a, b); nodes = nodes.now })) self.old.slots }
        ensures outline { self.new.outline ≡ self.old.outline }
    {
        if nodes.is_empty() {
            let key = SortedKey::new(a, b);
            return self.add_edge(coords, key.first, key.second);
        }
        self.add_new(coords, nodes)
    }
}
