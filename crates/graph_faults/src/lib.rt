// The second kind of fault of a graph block in document 01's order: a record that does not follow its kind. The test gives the lowest
// slot with one, or the number of slots where there is none.
#![tactic(auto)]

ghost use Rattle.std.specs.Prelude.{◌≡◌, not, ◌||◌, ◌+◌, ◌*◌, ◌≤◌, eqb, length};
ghost use Rattle.definitions.specs.Lists.{lowest};
ghost use Rattle.definitions.specs.Fields.{u32_at, filled, signed};
ghost use Rattle.definitions.specs.Operators.{kind_proj};
ghost use Rattle.definitions.specs.Graph.{inputs_offset, attributes_offset, tail_offset, slot_bytes, input_limit, attribute_limit, slot_count, at_least_one, zeros_offset, record_fits, bad_record};
ghost use Rattle.graph_fields.specs.Layout.{WholeGraph};

use definitions::{
    ATTRIBUTES_OFFSET, HEADER_BYTES, IMPORT_VERSION, INPUTS_OFFSET, KIND_PROJ, SLOT_BYTES,
    TAIL_OFFSET,
};
use fields::{byte_at, i32_at};
use graph_fields::slot_count;
use operators::shape_fits;
use runs::{
    WORD_BYTES, is_filled, three_words_filled, two_words_filled, word_ends_zero, word_filled,
};

// Whether the record at `at` is no Proj, or its first attribute, the index, is at least 1.
fn index_fits(graph: &[u8], at: usize, kind: usize) -> bool
    requires { at + slot_bytes ≤ length graph.now }
    ensures { result ≡ (not (eqb kind kind_proj) || at_least_one (signed (u32_at graph.now (at + attributes_offset)))) }
{
    kind != KIND_PROJ || 0 < i32_at(graph, at + ATTRIBUTES_OFFSET)
}

// Whether the unused input places of the record at `at` hold 65535.
fn unused_inputs_fit(graph: &[u8], at: usize, inputs: usize) -> bool
    requires slot_bytes_in_bounds { at + slot_bytes ≤ length graph.now }
    requires inputs_le_input_limit { inputs ≤ input_limit }
    ensures { result ≡ filled graph.now (at + inputs_offset + 2 * inputs) (at + attributes_offset) 255 }
{
    let from = at + INPUTS_OFFSET + 2 * inputs;
    let to = at + ATTRIBUTES_OFFSET;
    if to < from + WORD_BYTES {
        return is_filled(graph, from, to, 255);
    }
    two_words_filled(graph, from, to, 255)
}

// Whether the unused attribute places of the record at `at` hold 0.
fn unused_attributes_fit(graph: &[u8], at: usize, attributes: usize) -> bool
    requires slot_bytes_in_bounds { at + slot_bytes ≤ length graph.now }
    requires attributes_le_attribute_limit { attributes ≤ attribute_limit }
    ensures { result ≡ filled graph.now (at + attributes_offset + 4 * attributes) (at + tail_offset) 0 }
{
    let from = at + ATTRIBUTES_OFFSET + 4 * attributes;
    let to = at + TAIL_OFFSET;
    if to < from + WORD_BYTES {
        return is_filled(graph, from, to, 0);
    }
    three_words_filled(graph, from, to, 0)
}

// Whether the last bytes of the record at `at` are zero: its tail, but for the count where the version has one.
fn end_fits(graph: &[u8], at: usize, version: usize) -> bool
    requires { at + slot_bytes ≤ length graph.now }
    ensures { result ≡ filled graph.now (at + zeros_offset version) (at + slot_bytes) 0 }
{
    if version == IMPORT_VERSION {
        return word_filled(graph, at + TAIL_OFFSET, 0);
    }
    word_ends_zero(graph, at + TAIL_OFFSET)
}

// Whether the record at `at` follows its kind.
pub fn record_fits(graph: &[u8], at: usize, version: usize) -> bool
    requires { at + slot_bytes ≤ length graph.now }
    ensures { result ≡ record_fits version graph.now at }
{
    let kind = byte_at(graph, at);
    let operator = byte_at(graph, at + 1);
    let inputs = byte_at(graph, at + 2);
    let attributes = byte_at(graph, at + 3);
    if !shape_fits(kind, operator, inputs, attributes) {
        return false;
    }
    if !unused_inputs_fit(graph, at, inputs) {
        return false;
    }
    if !unused_attributes_fit(graph, at, attributes) {
        return false;
    }
    if !index_fits(graph, at, kind) {
        return false;
    }
    end_fits(graph, at, version)
}

// The lowest slot with a bad record, or the number of slots.
pub fn bad_record(graph: &[u8], version: usize) -> usize
    requires { WholeGraph graph.now }
    ensures { result ≡ lowest (bad_record version graph.now) (slot_count graph.now) }
{
    let slots = slot_count(graph);
    (0..slots)
        .find(|&k| !record_fits(graph, HEADER_BYTES + SLOT_BYTES * k, version))
        .unwrap_or(slots)
}
