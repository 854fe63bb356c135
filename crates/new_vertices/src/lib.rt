// The records that a vertex of the new table can have, each made from the old table and the rule, which are only read: a vertex that
// stays, with its places redirected, and a target vertex.
#![tactic(auto)]

ghost use Rattle.std.specs.Prelude.{◌≡◌, ◌<◌};
ghost use Rattle.definitions.specs.Lists.{padded};
ghost use Rattle.definitions.specs.Graph.{attribute_limit, renamed, graph_of, slot_of};
ghost use Rattle.definitions.specs.Rule.{target_count};
ghost use Rattle.definitions.specs.Rewriting.{target_slot};
ghost use Rattle.rule_fields.specs.Fixed.{fixed_of};
ghost use Rattle.graph_records.specs.Records.{Stands};
ghost use Rattle.redirection.specs.Moves.{moved};
ghost use Rattle.new_places.specs.Places.{ReadableSlot};
ghost use Rattle.new_vertices.specs.Slots.{values_of, fit_results, Prepared};

use definitions::{ATTRIBUTE_LIMIT, SIDE_CAPACITY};
use graph_fields::{attribute_count, attribute_word, input_count, kind_of, operator_of};
use graph_records::Record;
use new_places::{staying_inputs, target_inputs};
use padding::padded;
use redirection::Redirection;
use rule_fields::{target_attribute_count, target_input_count, target_kind, target_operator};
use target_attributes::vertex_words;

// Every attribute place of slot k; zero stands in the unused ones.
fn attribute_words(graph: &[u8], k: usize) -> [u32; ATTRIBUTE_LIMIT]
    requires { ReadableSlot graph.now k }
    ensures { result ≡ padded attribute_limit 0 (slot_of (graph_of graph.now) k).attributes }
{
    let count = attribute_count(graph, k);
    padded(count, 0, |i| attribute_word(graph, k, i) as u32)
}

// The record of a vertex that stays: its input places redirected, and nothing else changed.
pub fn staying_record(graph: &[u8], k: usize, way: Redirection) -> Record
    requires { ReadableSlot graph.now k }
    ensures { Stands result (renamed (moved way) (slot_of (graph_of graph.now) k)) }
{
    let kind = kind_of(graph, k);
    let operator = operator_of(graph, k);
    let n = input_count(graph, k);
    let m = attribute_count(graph, k);
    let inputs = staying_inputs(graph, k, way);
    let attributes = attribute_words(graph, k);
    Record {
        kind: kind as u8,
        operator: operator as u8,
        n: n as u8,
        m: m as u8,
        inputs,
        attributes,
    }
}

// The record of target vertex t. Its attributes are read from the old table, where the slots that go still hold what they held.
pub fn target_record(
    graph: &[u8],
    rule: &[u8],
    images: &[u16; SIDE_CAPACITY],
    places: &[u16; SIDE_CAPACITY],
    t: usize,
) -> Record
    requires prepared { Prepared graph.now rule.now images.now places.now }
    requires t_bound { t < target_count rule.now }
    ensures { Stands result (target_slot (graph_of graph.now) (fixed_of rule.now) images.now
        (values_of (fit_results graph.now rule.now images.now)) t) }
{
    let kind = target_kind(rule, t);
    let operator = target_operator(rule, t);
    let n = target_input_count(rule, t);
    let m = target_attribute_count(rule, t);
    let inputs = target_inputs(rule, t, images, places);
    let found = vertex_words(graph, rule, images, t);
    let attributes = found.unwrap();
    Record {
        kind: kind as u8,
        operator: operator as u8,
        n: n as u8,
        m: m as u8,
        inputs,
        attributes,
    }
}
