// Whether a graph has a cycle. A sorted table, in which every slot reads lower slots only, has none; in another one a cycle is searched
// for. The search goes depth first, from each slot along its inputs. Every turn of it raises the progress of
// one slot, which is never above 8, so that the time grows with the number of slots and not faster. It has no recursion, and the
// way back needs no stack of its own, whose height would have to be bounded.
#![tactic(auto)]

ghost use Rattle.std.specs.Prelude.{◌≡◌, ◌<◌};
ghost use Rattle.definitions.specs.Graph.{slot_count, graph_of, inputs_of, has_cycle};
ghost use Rattle.graph_fields.specs.Layout.{ReadableGraph, Closed};
ghost use Rattle.acyclic.specs.Search.{Sized, Ready, Searched};

use definitions::SLOT_LIMIT;
use graph_fields::{input_at, input_count, slot_count};
use graph_sorted::is_sorted;

// A slot's progress is 0 before it is entered, 1 + i once i of its inputs are known to lead to no cycle, and this when the slot
// itself is known to. It has at most 6 inputs, so the three do not overlap. It is a number and not an enum: every turn adds to it, and the
// sum of all slots' progress is what shows that the search ends.
const FINISHED: u8 = 8;

// Whether root leads to a cycle. Where it does not, every slot to which it leads is finished. For an entered slot that is not
// finished, parent has the slot that was left for it.
fn finds_cycle(
    graph: &[u8],
    root: usize,
    progress: &mut [u8; SLOT_LIMIT],
    parent: &mut [u16; SLOT_LIMIT],
) -> bool
    requires ready { Ready graph.now progress.old parent.old }
    requires root_bound { root < slot_count graph.now }
    ensures sized { Sized progress.new parent.new }
    ensures searched { Searched (inputs_of (graph_of graph.now)) root progress.old progress.new result }
{
    if progress[root] == FINISHED {
        return false;
    }
    progress[root] = 1;
    let mut at = root;
    loop {
        let reached = progress[at];
        let passed = reached as usize - 1;
        if passed == input_count(graph, at) {
            progress[at] = FINISHED;
            if at == root {
                return false;
            }
            at = parent[at] as usize;
        } else {
            let input = input_at(graph, at, passed);
            let found = progress[input];
            if found == FINISHED {
                progress[at] = reached + 1;
            } else if found == 0 {
                progress[input] = 1;
                parent[input] = at as u16;
                at = input;
            } else {
                // The search came here from this input, so the edge closes a cycle.
                return true;
            }
        }
    }
}

// Whether some slot leads to itself along inputs. A sorted table has no cycle, and is not searched.
pub fn has_cycle(graph: &[u8]) -> bool
    requires readable_graph { ReadableGraph graph.now }
    requires closed { Closed graph.now }
    ensures { result ≡ has_cycle (graph_of graph.now) }
{
    if is_sorted(graph) {
        return false;
    }
    let count = slot_count(graph);
    let mut progress = [0u8; SLOT_LIMIT];
    let mut parent = [0u16; SLOT_LIMIT];
    for root in 0..count {
        if finds_cycle(graph, root, &mut progress, &mut parent) {
            return true;
        }
    }
    false
}
