// How often each slot of a graph is named, counted in one pass over the table, and the comparison with the counts that the slots store.
#![tactic(auto)]

ghost use Rattle.std.specs.Prelude.{◌≡◌, ℕ, ◌+◌, ◌<◌, length, get_or};
ghost use Rattle.definitions.specs.Lists.{lowest};
ghost use Rattle.definitions.specs.Graph.{slot_limit, slot_count, graph_of, true_count, bad_count};
ghost use Rattle.laws.specs.Counted.{Counted};
ghost use Rattle.graph_uses.specs.Countable.{reads_below, CountableGraph, InputsNext, OutputsNext};

use definitions::SLOT_LIMIT;
use graph_fields::{input_at, input_count, output_at, slot_count, stored_count};

// Counts the input places of slot k, after those of the slots below it.
fn add_inputs(graph: &[u8], k: usize, uses: &mut [u16; SLOT_LIMIT])
    requires { InputsNext graph.now k uses.old }
    ensures { Counted slot_limit (reads_below (graph_of graph.now) (k + 1)) uses.new }
{
    let places = input_count(graph, k);
    for place in 0..places {
        let input = input_at(graph, k, place);
        uses[input] += 1;
    }
}

// Counts the output places, after all input places.
fn add_outputs(graph: &[u8], uses: &mut [u16; SLOT_LIMIT])
    requires { OutputsNext graph.now uses.old }
    ensures { Counted slot_limit (true_count (graph_of graph.now)) uses.new }
{
    let outputs = graph_fields::output_count(graph);
    for i in 0..outputs {
        let output = output_at(graph, i);
        uses[output] += 1;
    }
}

// How often each slot is named, by input places and by graph outputs.
pub fn count_uses(graph: &[u8]) -> [u16; SLOT_LIMIT]
    requires { CountableGraph graph.now }
    ensures { (length result ≡ slot_limit)
        × ((v : ℕ) → v < slot_count graph.now → get_or result v 0 ≡ true_count (graph_of graph.now) v) }
{
    let slots = slot_count(graph);
    let mut uses = [0u16; SLOT_LIMIT];
    for k in 0..slots {
        add_inputs(graph, k, &mut uses);
    }
    add_outputs(graph, &mut uses);
    uses
}

// The lowest slot that stores a wrong count, or the number of slots.
pub fn bad_count(graph: &[u8]) -> usize
    requires { CountableGraph graph.now }
    ensures { result ≡ lowest (bad_count graph.now) (slot_count graph.now) }
{
    let slots = slot_count(graph);
    let uses = count_uses(graph);
    (0..slots)
        .find(|&slot| stored_count(graph, slot) != usize::from(uses[slot]))
        .unwrap_or(slots)
}
