// A graph block's fields by index, as fields of the graph for which the block stands.
#![tactic(auto)]

ghost use Rattle.std.specs.Prelude.{◌≡◌, ◌+◌, ◌<◌, ◌≤◌, length, get_or};
ghost use Rattle.definitions.specs.Fields.{signed};
ghost use Rattle.definitions.specs.Graph.{header_bytes, slot_bytes, input_limit, attribute_limit, unused_place, slot_count, output_count, record_at, stored_count, graph_of, slot_of, inputs_of, is_vertex};
ghost use Rattle.graph_fields.specs.Layout.{WholeGraph, ReadableGraph};

use definitions::{
    ATTRIBUTES_OFFSET, COUNT_OFFSET, HEADER_BYTES, INPUTS_OFFSET, KIND_EMPTY, OUTPUTS_OFFSET,
    SLOT_BYTES,
};
use fields::{byte_at, i32_at, u16_at, u32_at};

// How many slots the header counts.
pub fn slot_count(graph: &[u8]) -> usize
    requires { header_bytes ≤ length graph.now }
    ensures { (result ≡ slot_count graph.now) × (result < 65536) }
{
    u16_at(graph, 6)
}

// How many outputs the header counts.
pub fn output_count(graph: &[u8]) -> usize
    requires { header_bytes ≤ length graph.now }
    ensures { (result ≡ output_count graph.now) × (result < 65536) }
{
    u16_at(graph, 8)
}

// Where the record of slot k starts.
fn record_at(graph: &[u8], k: usize) -> usize
    requires whole_graph { WholeGraph graph.now }
    requires k_bound { k < slot_count graph.now }
    ensures { (result ≡ record_at k) × (result + slot_bytes ≤ length graph.now) }
{
    HEADER_BYTES + SLOT_BYTES * k
}

// The kind of slot k.
pub fn kind_of(graph: &[u8], k: usize) -> usize
    requires whole_graph { WholeGraph graph.now }
    requires k_bound { k < slot_count graph.now }
    ensures { (result ≡ (slot_of (graph_of graph.now) k).kind) × (result < 256) }
{
    let at = record_at(graph, k);
    byte_at(graph, at)
}

// The operator of slot k.
pub fn operator_of(graph: &[u8], k: usize) -> usize
    requires whole_graph { WholeGraph graph.now }
    requires k_bound { k < slot_count graph.now }
    ensures { (result ≡ (slot_of (graph_of graph.now) k).operator) × (result < 256) }
{
    let at = record_at(graph, k);
    byte_at(graph, at + 1)
}

// How many inputs slot k has.
pub fn input_count(graph: &[u8], k: usize) -> usize
    requires readable_graph { ReadableGraph graph.now }
    requires k_bound { k < slot_count graph.now }
    ensures { (result ≡ length (inputs_of (graph_of graph.now) k)) × (result ≤ input_limit) }
{
    let at = record_at(graph, k);
    byte_at(graph, at + 2)
}

// What input place i of slot k names.
pub fn input_at(graph: &[u8], k: usize, i: usize) -> usize
    requires readable_graph { ReadableGraph graph.now }
    requires k_bound { k < slot_count graph.now }
    requires i_in_bounds { i < length (inputs_of (graph_of graph.now) k) }
    ensures { (result ≡ get_or (inputs_of (graph_of graph.now) k) i unused_place) × (result < 65536) }
{
    let at = record_at(graph, k);
    u16_at(graph, at + INPUTS_OFFSET + 2 * i)
}

// How many attributes slot k has.
pub fn attribute_count(graph: &[u8], k: usize) -> usize
    requires readable_graph { ReadableGraph graph.now }
    requires k_bound { k < slot_count graph.now }
    ensures { (result ≡ length (slot_of (graph_of graph.now) k).attributes) × (result ≤ attribute_limit) }
{
    let at = record_at(graph, k);
    byte_at(graph, at + 3)
}

// The number in attribute place i of slot k, here counted from 0.
pub fn attribute_at(graph: &[u8], k: usize, i: usize) -> i32
    requires readable_graph { ReadableGraph graph.now }
    requires k_bound { k < slot_count graph.now }
    requires i_in_bounds { i < length (slot_of (graph_of graph.now) k).attributes }
    ensures { result ≡ signed (get_or (slot_of (graph_of graph.now) k).attributes i 0) }
{
    let at = record_at(graph, k);
    i32_at(graph, at + ATTRIBUTES_OFFSET + 4 * i)
}

// The 32-bit word in attribute place i of slot k, here counted from 0.
pub fn attribute_word(graph: &[u8], k: usize, i: usize) -> usize
    requires readable_graph { ReadableGraph graph.now }
    requires k_bound { k < slot_count graph.now }
    requires i_in_bounds { i < length (slot_of (graph_of graph.now) k).attributes }
    ensures { (result ≡ get_or (slot_of (graph_of graph.now) k).attributes i 0) × (result < 4294967296) }
{
    let at = record_at(graph, k);
    u32_at(graph, at + ATTRIBUTES_OFFSET + 4 * i)
}

// The count that slot k's record stores.
pub fn stored_count(graph: &[u8], k: usize) -> usize
    requires whole_graph { WholeGraph graph.now }
    requires k_bound { k < slot_count graph.now }
    ensures { (result ≡ stored_count graph.now k) × (result < 65536) }
{
    let at = record_at(graph, k);
    u16_at(graph, at + COUNT_OFFSET)
}

// What output place i names.
pub fn output_at(graph: &[u8], i: usize) -> usize
    requires whole_graph { WholeGraph graph.now }
    requires i_bound { i < output_count graph.now }
    ensures { (result ≡ get_or (graph_of graph.now).outputs i unused_place) × (result < 65536) }
{
    u16_at(graph, OUTPUTS_OFFSET + 2 * i)
}

// Whether v names a vertex: a slot of the block that is not Empty.
pub fn is_vertex(graph: &[u8], v: usize) -> bool
    requires { WholeGraph graph.now }
    ensures { result ≡ is_vertex (graph_of graph.now) v }
{
    v < slot_count(graph) && kind_of(graph, v) != KIND_EMPTY
}
