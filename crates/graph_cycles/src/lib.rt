// The lowest slot on a cycle. Whether there is a cycle is found out in a time that grows with the number of slots; only where there is
// one, each slot in turn is asked whether it is on one. A question marks every slot once at most and passes each of its six inputs
// once, in at most 8 N turns of the loop that marks; so N slots take at most 8 N * N turns, 2.1 million for 512.
#![tactic(auto)]

ghost use Rattle.std.specs.Prelude.{◌≡◌, ◌<◌};
ghost use Rattle.definitions.specs.Graph.{slot_count, graph_of, inputs_of, lowest_on_cycle};
ghost use Rattle.definitions.specs.Paths.{on_cycle};
ghost use Rattle.graph_fields.specs.Layout.{ReadableGraph, Closed};

use acyclic::has_cycle;
use definitions::SLOT_LIMIT;
use graph_fields::{input_at, input_count, slot_count};
use graph_reach::mark_from;

// Whether slot v has a path of one or more edges to itself: whether it has a path to one of its inputs.
fn is_on_cycle(graph: &[u8], v: usize) -> bool
    requires readable_graph { ReadableGraph graph.now }
    requires closed { Closed graph.now }
    requires v_bound { v < slot_count graph.now }
    ensures { result ≡ on_cycle (inputs_of (graph_of graph.now)) (slot_count graph.now) v }
{
    let inputs = input_count(graph, v);
    let mut marks = [false; SLOT_LIMIT];
    for i in 0..inputs {
        mark_from(graph, input_at(graph, v, i), &mut marks);
    }
    marks[v]
}

// The lowest slot on a cycle, or the number of slots.
pub fn lowest_on_cycle(graph: &[u8]) -> usize
    requires readable_graph { ReadableGraph graph.now }
    requires closed { Closed graph.now }
    ensures { result ≡ lowest_on_cycle (graph_of graph.now) }
{
    let slots = slot_count(graph);
    if has_cycle(graph) {
        (0..slots).find(|&v| is_on_cycle(graph, v)).unwrap_or(slots)
    } else {
        slots
    }
}
