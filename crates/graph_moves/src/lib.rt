// Where each slot goes in a squeeze, and the new names of what places name.
#![tactic(auto)]

ghost use Rattle.std.specs.Prelude.{◌≡◌, map, ◌<◌, ◌≤◌, length, take};
ghost use Rattle.definitions.specs.Lists.{padded};
ghost use Rattle.definitions.specs.Graph.{slot_limit, output_limit, input_limit, unused_place, slot_count, Slot, renamed, graph_of};
ghost use Rattle.graph_fields.specs.Layout.{WholeGraph, OutputsNamed};
ghost use Rattle.graph_records.specs.Records.{Stands};
ghost use Rattle.graph_moves.specs.Moving.{name_in, Moving, NamesSlots, Renamable};

use definitions::{INPUT_LIMIT, KIND_EMPTY, OUTPUT_LIMIT, SLOT_LIMIT, UNUSED_PLACE};
use graph_fields::{kind_of, output_at, output_count, slot_count};
use graph_records::Record;

// How many vertices there are, from which slot each comes, in order, and for each slot its new number, 65535 for an Empty one.
// The count stands beside an array of a fixed length, since there is no heap.
#[derive(Drop)]
pub struct Moves {
    pub count: usize,
    pub from: [u16; SLOT_LIMIT],
    pub to: [u16; SLOT_LIMIT],
}

// The vertices go to the lowest slots, in their order.
pub fn moves_of(graph: &[u8]) -> Moves
    requires { WholeGraph graph.now }
    ensures { Moving (graph_of graph.now) (slot_count graph.now) result.count result.from result.to }
{
    let slots = slot_count(graph);
    let mut from = [UNUSED_PLACE; SLOT_LIMIT];
    let mut to = [UNUSED_PLACE; SLOT_LIMIT];
    let mut count = 0;
    for v in 0..slots {
        if kind_of(graph, v) != KIND_EMPTY {
            from[count] = v as u16;
            to[v] = count as u16;
            count += 1;
        }
    }
    Moves { count, from, to }
}

// The new names of the first n places; 65535 stands in the unused ones.
fn renamed_inputs(
    inputs: &[u16; INPUT_LIMIT],
    n: usize,
    to: &[u16; SLOT_LIMIT],
) -> [u16; INPUT_LIMIT]
    requires renamable { Renamable (take n inputs.now) }
    requires inputs_len { length inputs.now ≡ input_limit }
    requires n_le_input_limit { n ≤ input_limit }
    requires to_len { length to.now ≡ slot_limit }
    ensures { result ≡ padded input_limit unused_place (map (name_in to.now) (take n inputs.now)) }
{
    let mut places = [UNUSED_PLACE; INPUT_LIMIT];
    for i in 0..n {
        places[i] = to[usize::from(inputs[i])];
    }
    places
}

// The record of the same vertex, with the new names of what it reads.
pub fn renamed_record(record: Record, to: &[u16; SLOT_LIMIT]) -> Record
    requires names_slots { NamesSlots «record» }
    requires to_len { length to.now ≡ slot_limit }
    ensures { (s : Slot) → Stands «record» s → Stands result (renamed (name_in to.now) s) }
{
    let kind = record.kind;
    let operator = record.operator;
    let n = record.n;
    let m = record.m;
    let old = record.inputs;
    let attributes = record.attributes;
    let inputs = renamed_inputs(&old, n as usize, to);
    Record {
        kind,
        operator,
        n,
        m,
        inputs,
        attributes,
    }
}

// The new names of the outputs; 65535 stands in the unused places.
pub fn renamed_outputs(graph: &[u8], to: &[u16; SLOT_LIMIT]) -> [u16; OUTPUT_LIMIT]
    requires whole_graph { WholeGraph graph.now }
    requires outputs_named { OutputsNamed graph.now }
    requires to_len { length to.now ≡ slot_limit }
    ensures { result ≡ padded output_limit unused_place (map (name_in to.now) (graph_of graph.now).outputs) }
{
    let count = output_count(graph);
    let mut outputs = [UNUSED_PLACE; OUTPUT_LIMIT];
    for i in 0..count {
        outputs[i] = to[output_at(graph, i)];
    }
    outputs
}
