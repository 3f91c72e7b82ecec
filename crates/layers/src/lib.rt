// The layer of each node that an answer lists (document 02, W7).
#![tactic(auto)]

ghost use Rattle.std.specs.Prelude.{◌≡◌, ◌/◌, ◌≤◌, length};
ghost use Rattle.lists.specs.Regions.{front};
ghost use Rattle.layers.specs.Written.{layers_to};

use lists::{copy_at, number_at};

// The layers of the subject's nodes, of the cutter's, and of new points, to the front of a list. The edges are the subject's, two node numbers each; the
// meetings are five numbers each, as they stand in the working list. New points are numbered as found, so one is where a meeting's node has the next number.
#[tactic(auto)]
pub fn write_layers(subject: &[u32], cutter: &[u32], edges: &[u32], met: &[u32], layers: &mut [u32])
    requires { length (layers_to (length met.now / 5) subject.now cutter.now edges.now met.now) ≤ length layers.old }
    ensures { layers.new ≡ front layers.old (layers_to (length met.now / 5) subject.now cutter.now edges.now met.now) }
{
    copy_at(layers, 0, subject);
    copy_at(layers, subject.len(), cutter);
    let mut next = subject.len() + cutter.len();
    for [edge, _, _, node, _] in met.as_chunks::<5>().0 {
        if *node as usize == next {
            let first = number_at(edges, 2 * *edge as usize);
            layers[next] = number_at(subject, first as usize);
            next += 1;
        }
    }
}
