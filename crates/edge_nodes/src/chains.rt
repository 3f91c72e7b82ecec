// The meetings chained by the smaller node of their edges' keys, so that those under one key are found without a scan of all.
ghost use Rattle.std.specs.Prelude.{◌≡◌, ◌+◌, ◌*◌, ◌/◌, ◌≤◌, ◌<◌, length};
ghost use Rattle.cutting.specs.Lent.{pairs};
ghost use Rattle.edge_nodes.specs.Links.{links_of, Linked};
ghost use Rattle.edge_nodes.specs.Chained.{heads_in, nexts_in, chain_in};
ghost use Rattle.keys.specs.Chains.{chain_of};

use crate::sides::{Meetings, Side};
use keys::SortedKey;

// They are chained: the first meeting of each chain, and for each meeting the next one. Where a chain ends the number of meetings stands: links are
// numbers of the working list, which has no other word for none.
#[derive(Clone, Copy)]
pub(crate) struct Chains<'a> {
    pub meetings: Meetings<'a>,
    pub heads: &'a [u32],
    pub nexts: &'a [u32],
    ghost some: { 0 < length heads.now },
    ghost heads_are: { heads.now ≡ heads_in (length heads.now) meetings },
    ghost nexts_are: { nexts.now ≡ nexts_in (length heads.now) meetings },
}

// The meetings on a key's chain that are still to come, each as the nodes that it collects under the key.
#[derive(Drop)]
pub(crate) struct Chain<'a> {
    chains: Chains<'a>,
    key: SortedKey,
    at: usize,
    ghost on: { at < length chains.nexts.now → chain_in (length chains.heads.now) chains.meetings at ≡ chain_of (length chains.heads.now) key.first },
}

// The edges of both meshes, their meetings and the links of these.
#[derive(Clone, Copy)]
pub struct LinkedMeetings<'a> {
    pub subject: &'a [u32],
    pub cutter: &'a [u32],
    pub met: &'a [u32],
    pub links: &'a [u32],
    ghost linked: { Linked (pairs subject.now) (pairs cutter.now) met.now links.now },
}

// Chains the meetings by the edges of both meshes, on h chains for either: h is where `links` is split, and no place in the others. They are at most 65,536, as
// refusal 8 has it: their numbers are written as u32.
#[tactic(auto, using(crate::proofs::Linking::links_made))]
pub fn link_meetings(subject: &[u32], cutter: &[u32], met: &[u32], h: usize, links: &mut [u32])
    requires { (length links.old ≡ 2 * h + 2 * (length met.now / 5)) × (0 < h) × (length met.now ≤ 327680) }
    ensures { links.new ≡ links_of h (pairs subject.now) (pairs cutter.now) met.now }
{
    let by_subject = Meetings {
        edges: subject,
        met,
        side: Side::Subject,
    };
    let by_cutter = Meetings {
        edges: cutter,
        met,
        side: Side::Cutter,
    };
    let (subject_heads, rest) = links.split_at_mut(h);
    let (cutter_heads, rest) = rest.split_at_mut(h);
    let (subject_nexts, cutter_nexts) = rest.split_at_mut(met.len() / 5);
    by_subject.link(subject_heads, subject_nexts);
    by_cutter.link(cutter_heads, cutter_nexts);
}

impl<'a> LinkedMeetings<'a> {
    ghost use Rattle.edge_nodes.specs.Sides.{subject_meetings, cutter_meetings};

    // The chains by subject edges, and those by cutter edges. Both are written out: by a function of `Side` edges, heads and nexts would be a match each.
    pub(crate) fn chains(&self) -> (Chains<'a>, Chains<'a>)
        ensures subjects { result.0.meetings ≡ subject_meetings self.now }
        ensures cutters { result.1.meetings ≡ cutter_meetings self.now }
    {
        let met = self.met;
        let count = met.len() / 5;
        let h = self.links.len() / 2 - count;
        let (subject_heads, rest) = self.links.split_at(h);
        let (cutter_heads, rest) = rest.split_at(h);
        let (subject_nexts, cutter_nexts) = rest.split_at(count);
        let by_subject = Chains {
            meetings: Meetings {
                edges: self.subject,
                met,
                side: Side::Subject,
            },
            heads: subject_heads,
            nexts: subject_nexts,
        };
        let by_cutter = Chains {
            meetings: Meetings {
                edges: self.cutter,
                met,
                side: Side::Cutter,
            },
            heads: cutter_heads,
            nexts: cutter_nexts,
        };
        (by_subject, by_cutter)
    }
}

impl<'a> Chains<'a> {
    ghost use Rattle.std.specs.List.{concat};
    ghost use Rattle.edge_nodes.specs.Chained.{edge_of};
    ghost use Rattle.edge_nodes.specs.Lent.{under_in};
    ghost use Rattle.edge_nodes.specs.Chain.{chain_left};

    // The meetings on the key's chain: no others have nodes under it.
    #[tactic(auto, using(crate::proofs::Walk::starts_on, crate::proofs::Walk::starts_with_all))]
    pub(crate) fn under(&self, key: SortedKey) -> Chain<'a>
        ensures { concat (chain_left result) ≡ under_in self.now.meetings (edge_of key) }
    {
        Chain {
            chains: *self,
            key,
            at: self.heads[key.chain(self.heads.len())] as usize,
        }
    }
}

impl<'a> Iterator for Chain<'a> {
    ghost use Rattle.std.specs.Iterator.{YieldsFirstRef, item_count};
    ghost use Rattle.edge_nodes.specs.Chain.{chain_left};

    type Item = &'a [u32];

    ghost next_gives = { YieldsFirstRef chain_left };

    ghost remaining = { item_count chain_left };

    #[tactic(auto, using(crate::proofs::Walk::stays_on, crate::proofs::Walk::one_given, crate::proofs::Walk::chain_end, crate::proofs::Walk::nexts_long))]
    fn next(&mut self) -> Option<&'a [u32]> {
        let q = self.at;
        if q < self.chains.nexts.len() {
            self.at = self.chains.nexts[q] as usize;
            return Some(self.chains.meetings.under(self.key, q));
        }
        None
    }
}
