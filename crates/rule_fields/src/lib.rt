// A rule block's fields by index, as fields of the rule for which the block stands.
#![tactic(auto)]

ghost use Rattle.std.specs.Prelude.{◌≡◌, ◌+◌, ◌<◌, ◌≤◌, length, get_or};
ghost use Rattle.definitions.specs.Fields.{byte_at};
ghost use Rattle.definitions.specs.Graph.{input_limit, attribute_limit};
ghost use Rattle.definitions.specs.Rule.{rule_header_bytes, pattern_bytes, side_capacity, source_count, target_count, rule_output_count, node_count, vertex_at, anything, made, source_of, target_of, source_inputs, is_rule_input};
ghost use Rattle.definitions.specs.Match.{is_const};
ghost use Rattle.rule_fields.specs.Fixed.{is_expanded, split_in, origin_in, nodes_in, expression_in, attribute_node, fixed_of};
ghost use Rattle.rule_fields.specs.Layout.{WholeRule, ReadableRule};

use definitions::{
    KIND_CONST, KIND_EMPTY, KIND_VARIABLE, NODE_BYTES, PATTERN_BYTES, RULE_HEADER_BYTES,
    SIDE_CAPACITY, TARGET_BASE,
};
use fields::{byte_at, u16_at};

// What byte 4 holds in the layout of a fixed rule that was made of a variadic one.
pub const EXPANDED_VERSION: usize = 3;
// The bytes for the nodes of a vertex's attributes in that layout.
pub const ATTRIBUTE_PLACE_BYTES: usize = 12;

// How many source vertices the header counts.
pub fn source_count(rule: &[u8]) -> usize
    requires { rule_header_bytes ≤ length rule.now }
    ensures { (result ≡ source_count rule.now) × (result < 256) }
{
    byte_at(rule, 6)
}

// How many target vertices the header counts.
pub fn target_count(rule: &[u8]) -> usize
    requires { rule_header_bytes ≤ length rule.now }
    ensures { (result ≡ target_count rule.now) × (result < 256) }
{
    byte_at(rule, 7)
}

// How many outputs the header counts, on either side.
pub fn output_count(rule: &[u8]) -> usize
    requires { rule_header_bytes ≤ length rule.now }
    ensures { (result ≡ rule_output_count rule.now) × (result < 256) }
{
    byte_at(rule, 8)
}

// How many expression nodes the header counts.
pub fn node_count(rule: &[u8]) -> usize
    requires { rule_header_bytes ≤ length rule.now }
    ensures { (result ≡ node_count rule.now) × (result < 256) }
{
    byte_at(rule, 9)
}

// Whether the block is a fixed rule that was made of a variadic one.
pub fn is_expanded(rule: &[u8]) -> bool
    requires { rule_header_bytes ≤ length rule.now }
    ensures { result ≡ is_expanded rule.now }
{
    byte_at(rule, 4) == EXPANDED_VERSION
}

// The first place number that names a target vertex.
pub fn target_split(rule: &[u8]) -> usize
    requires { rule_header_bytes ≤ length rule.now }
    ensures { (result ≡ split_in rule.now) × (result ≤ side_capacity) }
{
    if is_expanded(rule) {
        SIDE_CAPACITY
    } else {
        TARGET_BASE
    }
}

// How many nodes there are, in either layout.
pub fn fixed_node_count(rule: &[u8]) -> usize
    requires { rule_header_bytes ≤ length rule.now }
    ensures { (result ≡ nodes_in rule.now) × (result < 65536) }
{
    let low = node_count(rule);
    if is_expanded(rule) {
        low + 256 * byte_at(rule, 14)
    } else {
        low
    }
}

// The node of attribute i of vertex v, here counted from 0.
fn attribute_node(rule: &[u8], v: usize, i: usize) -> usize
    requires whole_rule { WholeRule rule.now }
    requires v_bound { v < source_count rule.now + target_count rule.now }
    requires i_lt_attribute_limit { i < attribute_limit }
    ensures { result ≡ attribute_node rule.now v i }
{
    if is_expanded(rule) {
        let vertices = source_count(rule) + target_count(rule);
        let nodes = fixed_node_count(rule);
        let table = RULE_HEADER_BYTES + PATTERN_BYTES * vertices + NODE_BYTES * nodes;
        u16_at(rule, table + ATTRIBUTE_PLACE_BYTES * v + 2 * i)
    } else {
        byte_at(rule, RULE_HEADER_BYTES + PATTERN_BYTES * v + 10 + i)
    }
}

// Which vertex target vertex t is: target records come after all source records.
fn target_vertex(rule: &[u8], t: usize) -> usize
    requires whole_rule { WholeRule rule.now }
    requires t_bound { t < target_count rule.now }
    ensures { result ≡ source_count rule.now + t }
{
    source_count(rule) + t
}

// Byte i of the record of vertex v, a source or a target one: kind, operator, the two counts, then the places of inputs and of attributes.
fn vertex_byte(rule: &[u8], v: usize, i: usize) -> usize
    requires whole_rule { WholeRule rule.now }
    requires v_bound { v < source_count rule.now + target_count rule.now }
    requires i_lt_pattern_bytes { i < pattern_bytes }
    ensures { (result ≡ byte_at rule.now (vertex_at v + i)) × (result < 256) }
{
    byte_at(rule, RULE_HEADER_BYTES + PATTERN_BYTES * v + i)
}

// The kind of source vertex j.
pub fn source_kind(rule: &[u8], j: usize) -> usize
    requires whole_rule { WholeRule rule.now }
    requires j_bound { j < source_count rule.now }
    ensures { (result ≡ (source_of (fixed_of rule.now) j).kind) × (result < 256) }
{
    vertex_byte(rule, j, 0)
}

// The operator of source vertex j.
pub fn source_operator(rule: &[u8], j: usize) -> usize
    requires whole_rule { WholeRule rule.now }
    requires j_bound { j < source_count rule.now }
    ensures { (result ≡ (source_of (fixed_of rule.now) j).operator) × (result < 256) }
{
    vertex_byte(rule, j, 1)
}

// How many inputs source vertex j has.
pub fn source_input_count(rule: &[u8], j: usize) -> usize
    requires readable_rule { ReadableRule rule.now }
    requires j_bound { j < source_count rule.now }
    ensures { (result ≡ length (source_inputs (fixed_of rule.now) j)) × (result ≤ input_limit) }
{
    vertex_byte(rule, j, 2)
}

// What input place i of source vertex j names.
pub fn source_input(rule: &[u8], j: usize, i: usize) -> usize
    requires readable_rule { ReadableRule rule.now }
    requires j_bound { j < source_count rule.now }
    requires i_in_bounds { i < length (source_inputs (fixed_of rule.now) j) }
    ensures { (result ≡ get_or (source_inputs (fixed_of rule.now) j) i 255) × (result < 256) }
{
    vertex_byte(rule, j, 4 + i)
}

// How many attributes source vertex j has.
pub fn source_attribute_count(rule: &[u8], j: usize) -> usize
    requires readable_rule { ReadableRule rule.now }
    requires j_bound { j < source_count rule.now }
    ensures { (result ≡ length (source_of (fixed_of rule.now) j).attributes) × (result ≤ attribute_limit) }
{
    vertex_byte(rule, j, 3)
}

// The node of attribute i of source vertex j, here counted from 0.
pub fn source_attribute(rule: &[u8], j: usize, i: usize) -> usize
    requires readable_rule { ReadableRule rule.now }
    requires j_bound { j < source_count rule.now }
    requires i_in_bounds { i < length (source_of (fixed_of rule.now) j).attributes }
    ensures result_value { expression_in rule.now result ≡ get_or (source_of (fixed_of rule.now) j).attributes i anything }
    ensures value { result ≡ attribute_node rule.now j i }
{
    attribute_node(rule, j, i)
}

// The kind of target vertex t.
pub fn target_kind(rule: &[u8], t: usize) -> usize
    requires whole_rule { WholeRule rule.now }
    requires t_bound { t < target_count rule.now }
    ensures { (result ≡ (target_of (fixed_of rule.now) t).kind) × (result < 256) }
{
    vertex_byte(rule, target_vertex(rule, t), 0)
}

// The operator of target vertex t.
pub fn target_operator(rule: &[u8], t: usize) -> usize
    requires whole_rule { WholeRule rule.now }
    requires t_bound { t < target_count rule.now }
    ensures { (result ≡ (target_of (fixed_of rule.now) t).operator) × (result < 256) }
{
    vertex_byte(rule, target_vertex(rule, t), 1)
}

// How many inputs target vertex t has.
pub fn target_input_count(rule: &[u8], t: usize) -> usize
    requires readable_rule { ReadableRule rule.now }
    requires t_bound { t < target_count rule.now }
    ensures { (result ≡ length (target_of (fixed_of rule.now) t).inputs) × (result ≤ input_limit) }
{
    vertex_byte(rule, target_vertex(rule, t), 2)
}

// The place number in input place i of target vertex t.
pub fn target_input(rule: &[u8], t: usize, i: usize) -> usize
    requires readable_rule { ReadableRule rule.now }
    requires t_bound { t < target_count rule.now }
    requires i_in_bounds { i < length (target_of (fixed_of rule.now) t).inputs }
    ensures { (origin_in rule.now result ≡ get_or (target_of (fixed_of rule.now) t).inputs i (made 255)) × (result < 256) }
{
    vertex_byte(rule, target_vertex(rule, t), 4 + i)
}

// How many attributes target vertex t has.
pub fn target_attribute_count(rule: &[u8], t: usize) -> usize
    requires readable_rule { ReadableRule rule.now }
    requires t_bound { t < target_count rule.now }
    ensures { (result ≡ length (target_of (fixed_of rule.now) t).attributes) × (result ≤ attribute_limit) }
{
    vertex_byte(rule, target_vertex(rule, t), 3)
}

// The node of attribute i of target vertex t, here counted from 0.
pub fn target_attribute(rule: &[u8], t: usize, i: usize) -> usize
    requires readable_rule { ReadableRule rule.now }
    requires t_bound { t < target_count rule.now }
    requires i_in_bounds { i < length (target_of (fixed_of rule.now) t).attributes }
    ensures result_value { expression_in rule.now result ≡ get_or (target_of (fixed_of rule.now) t).attributes i anything }
    ensures value { result ≡ attribute_node rule.now (source_count rule.now + t) i }
{
    attribute_node(rule, target_vertex(rule, t), i)
}

// The source vertex that source output i is.
pub fn source_output(rule: &[u8], i: usize) -> usize
    requires whole_rule { WholeRule rule.now }
    requires i_bound { i < rule_output_count rule.now }
    ensures { (result ≡ get_or (fixed_of rule.now).source_outputs i 255) × (result < 256) }
{
    byte_at(rule, 10 + i)
}

// The place number of target output i.
pub fn target_output(rule: &[u8], i: usize) -> usize
    requires whole_rule { WholeRule rule.now }
    requires i_bound { i < rule_output_count rule.now }
    ensures { (origin_in rule.now result ≡ get_or (fixed_of rule.now).target_outputs i (made 255)) × (result < 256) }
{
    byte_at(rule, 12 + i)
}

// Whether j is a rule input: a source vertex that is a wildcard or a Variable.
pub fn is_rule_input(rule: &[u8], j: usize) -> bool
    requires { WholeRule rule.now }
    ensures { result ≡ is_rule_input (fixed_of rule.now) j }
{
    j < source_count(rule) && matches!(source_kind(rule, j), KIND_EMPTY | KIND_VARIABLE)
}

// Whether source vertex j is a Const.
pub fn is_const(rule: &[u8], j: usize) -> bool
    requires whole_rule { WholeRule rule.now }
    requires j_bound { j < source_count rule.now }
    ensures { result ≡ is_const (fixed_of rule.now) j }
{
    source_kind(rule, j) == KIND_CONST
}
