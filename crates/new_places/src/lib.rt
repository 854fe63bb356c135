// What the places of the new table name, all places of a record or of the header at a time: those of a slot that stays and of the
// outputs are redirected, and those of a target vertex resolved.
#![tactic(auto)]

ghost use Rattle.std.specs.Prelude.{◌≡◌, map, ◌<◌, length, get_or};
ghost use Rattle.definitions.specs.Lists.{padded};
ghost use Rattle.definitions.specs.Graph.{input_limit, output_limit, unused_place, output_count, graph_of, inputs_of};
ghost use Rattle.definitions.specs.Rule.{made, target_of};
ghost use Rattle.rule_fields.specs.Fixed.{fixed_of};
ghost use Rattle.graph_fields.specs.Layout.{WholeGraph};
ghost use Rattle.redirection.specs.Moves.{resolve_in, moved};
ghost use Rattle.new_places.specs.Places.{ReadableSlot, ReadableTarget};

use definitions::{INPUT_LIMIT, OUTPUT_LIMIT, SIDE_CAPACITY, UNUSED_PLACE};
use graph_fields::{input_at, input_count, output_at, output_count};
use padding::padded;
use redirection::{Redirection, place_of, redirected};
use rule_fields::{target_input, target_input_count, target_split};

// What input place i of slot k names after the rewriting, where the slot stays.
fn input_after(graph: &[u8], k: usize, i: usize, way: Redirection) -> u16
    requires readable_slot { ReadableSlot graph.now k }
    requires i_in_bounds { i < length (inputs_of (graph_of graph.now) k) }
    ensures { result ≡ moved way (get_or (inputs_of (graph_of graph.now) k) i unused_place) }
{
    let input = input_at(graph, k, i);
    redirected(way, input as u16)
}

// What output place i names after the rewriting.
fn output_after(graph: &[u8], i: usize, way: Redirection) -> u16
    requires whole_graph { WholeGraph graph.now }
    requires i_bound { i < output_count graph.now }
    ensures { result ≡ moved way (get_or (graph_of graph.now).outputs i unused_place) }
{
    let output = output_at(graph, i);
    redirected(way, output as u16)
}

// What input place i of target vertex t names, as a slot of the new table.
fn input_made(
    rule: &[u8],
    t: usize,
    i: usize,
    images: &[u16; SIDE_CAPACITY],
    places: &[u16; SIDE_CAPACITY],
) -> u16
    requires readable_target { ReadableTarget rule.now images.now places.now t }
    requires i_in_bounds { i < length (target_of (fixed_of rule.now) t).inputs }
    ensures { result ≡ resolve_in images.now places.now (get_or (target_of (fixed_of rule.now) t).inputs i (made 255)) }
{
    let split = target_split(rule);
    let named = target_input(rule, t, i);
    place_of(images, places, split, named)
}

// Every input place of slot k, redirected; 65535 stands in the unused ones.
pub fn staying_inputs(graph: &[u8], k: usize, way: Redirection) -> [u16; INPUT_LIMIT]
    requires { ReadableSlot graph.now k }
    ensures { result ≡ padded input_limit unused_place (map (moved way) (inputs_of (graph_of graph.now) k)) }
{
    let count = input_count(graph, k);
    padded(count, UNUSED_PLACE, |i| input_after(graph, k, i, way))
}

// Every output place of the graph, redirected; 65535 stands in the unused ones.
pub fn new_outputs(graph: &[u8], way: Redirection) -> [u16; OUTPUT_LIMIT]
    requires { WholeGraph graph.now }
    ensures { result ≡ padded output_limit unused_place (map (moved way) (graph_of graph.now).outputs) }
{
    let count = output_count(graph);
    padded(count, UNUSED_PLACE, |i| output_after(graph, i, way))
}

// Every input place of target vertex t, as slots of the new table; 65535 stands in the unused ones.
pub fn target_inputs(
    rule: &[u8],
    t: usize,
    images: &[u16; SIDE_CAPACITY],
    places: &[u16; SIDE_CAPACITY],
) -> [u16; INPUT_LIMIT]
    requires { ReadableTarget rule.now images.now places.now t }
    ensures { result ≡ padded input_limit unused_place
        (map (resolve_in images.now places.now) (target_of (fixed_of rule.now) t).inputs) }
{
    let count = target_input_count(rule, t);
    padded(
        count,
        UNUSED_PLACE,
        |i| input_made(rule, t, i, images, places),
    )
}
