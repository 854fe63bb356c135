// The slots that have a path to a slot, or to an output, marked. The slots whose inputs are still to be marked wait in a queue, which every slot
// enters once at most; so every input place is looked at twice at most, and the time grows with the number of slots and not faster.
#![tactic(auto)]

ghost use Rattle.std.specs.Prelude.{◌≡◌, ◌<◌, length};
ghost use Rattle.definitions.specs.Graph.{slot_limit, slot_count, graph_of, inputs_of};
ghost use Rattle.definitions.specs.Paths.{is_marked};
ghost use Rattle.graph_fields.specs.Layout.{ReadableGraph, Closed, OutputsNamed};
ghost use Rattle.reachability.specs.Marks.{Marks};
ghost use Rattle.reachability.specs.Spread.{Spread, ClosedMarks};

use definitions::SLOT_LIMIT;
use graph_fields::{input_at, input_count, output_at, output_count};

// Marks root and every slot that has a path to it. What was marked stays so, and is not looked at again.
pub fn mark_from(graph: &[u8], root: usize, marks: &mut [bool; SLOT_LIMIT])
    requires readable_graph { ReadableGraph graph.now }
    requires closed { Closed graph.now }
    requires root_bound { root < slot_count graph.now }
    requires marks_len { length marks.old ≡ slot_limit }
    requires closed_marks { ClosedMarks (inputs_of (graph_of graph.now)) marks.old }
    ensures marks_len_2 { length marks.new ≡ slot_limit }
    ensures spread { Spread (inputs_of (graph_of graph.now)) root marks.old marks.new }
{
    if marks[root] {
        return;
    }
    // A fixed array with the places of its ends, since there is no heap.
    let mut queue = [0u16; SLOT_LIMIT];
    marks[root] = true;
    queue[0] = root as u16;
    let mut head = 0;
    let mut tail = 1;
    let mut passed = 0;
    while head < tail {
        let at = queue[head] as usize;
        if passed == input_count(graph, at) {
            head += 1;
            passed = 0;
        } else {
            let input = input_at(graph, at, passed);
            if marks[input] {
                passed += 1;
            } else {
                marks[input] = true;
                queue[tail] = input as u16;
                tail += 1;
            }
        }
    }
}

// The slots that have a path to a vertex that an output names. Every slot is looked at once, however many outputs it reaches.
pub fn reaching_outputs(graph: &[u8]) -> [bool; SLOT_LIMIT]
    requires readable_graph { ReadableGraph graph.now }
    requires closed { Closed graph.now }
    requires outputs_named { OutputsNamed graph.now }
    ensures result_len { length result ≡ slot_limit }
    ensures marks { Marks (inputs_of (graph_of graph.now)) (graph_of graph.now).outputs (is_marked result) }
{
    let outputs = output_count(graph);
    let mut marks = [false; SLOT_LIMIT];
    for i in 0..outputs {
        mark_from(graph, output_at(graph, i), &mut marks);
    }
    marks
}
