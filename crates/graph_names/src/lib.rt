// The third kind of fault of a graph block in document 01's order: an input or an output that names no vertex. Each test gives the
// lowest slot or output place with one, or the number looked at where there is none.
#![tactic(auto)]

ghost use Rattle.std.specs.Prelude.{◌≡◌, ◌<◌};
ghost use Rattle.definitions.specs.Lists.{lowest, all};
ghost use Rattle.definitions.specs.Graph.{slot_count, output_count, graph_of, inputs_of, is_vertex, bad_inputs, bad_output};
ghost use Rattle.graph_fields.specs.Layout.{WholeGraph, ReadableGraph};

use graph_fields::{input_at, input_count, is_vertex, output_at, output_count, slot_count};

// Whether every input of slot k names a vertex.
pub fn inputs_named(graph: &[u8], k: usize) -> bool
    requires readable_graph { ReadableGraph graph.now }
    requires k_bound { k < slot_count graph.now }
    ensures { result ≡ all (is_vertex (graph_of graph.now)) (inputs_of (graph_of graph.now) k) }
{
    (0..input_count(graph, k)).all(|i| is_vertex(graph, input_at(graph, k, i)))
}

// The lowest slot with an input that names no vertex, or the number of slots.
pub fn bad_inputs(graph: &[u8]) -> usize
    requires { ReadableGraph graph.now }
    ensures { result ≡ lowest (bad_inputs (graph_of graph.now)) (slot_count graph.now) }
{
    let slots = slot_count(graph);
    (0..slots)
        .find(|&reader| !inputs_named(graph, reader))
        .unwrap_or(slots)
}

// The lowest output place that names no vertex, or the number of outputs.
pub fn bad_output(graph: &[u8]) -> usize
    requires { WholeGraph graph.now }
    ensures { result ≡ lowest (bad_output (graph_of graph.now)) (output_count graph.now) }
{
    let outputs = output_count(graph);
    (0..outputs)
        .find(|&i| !is_vertex(graph, output_at(graph, i)))
        .unwrap_or(outputs)
}
