// Whether a table is sorted: every slot reads lower slots only. Such a table has no cycle, and needs no search for one.
#![tactic(auto)]

ghost use Rattle.std.specs.Prelude.{◌≡◌, ◌<◌};
ghost use Rattle.definitions.specs.Graph.{slot_count, graph_of, inputs_of};
ghost use Rattle.graph_fields.specs.Layout.{ReadableGraph};
ghost use Rattle.graph_sorted.specs.Sorted.{reads_lower, sorted};

use graph_fields::{input_at, input_count, slot_count};

// Whether every input of slot k names a lower slot.
fn reads_lower(graph: &[u8], k: usize) -> bool
    requires readable_graph { ReadableGraph graph.now }
    requires k_bound { k < slot_count graph.now }
    ensures { result ≡ reads_lower (inputs_of (graph_of graph.now)) k }
{
    (0..input_count(graph, k)).all(|i| input_at(graph, k, i) < k)
}

// Whether the table is sorted.
pub fn is_sorted(graph: &[u8]) -> bool
    requires { ReadableGraph graph.now }
    ensures { result ≡ sorted (inputs_of (graph_of graph.now)) (slot_count graph.now) }
{
    (0..slot_count(graph)).all(|k| reads_lower(graph, k))
}
