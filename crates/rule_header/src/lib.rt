// The first kind of fault of a rule block: its length and its header.
#![tactic(auto)]

ghost use Rattle.std.specs.Prelude.{◌≡◌, ◌≤◌, eqb, length};
ghost use Rattle.definitions.specs.Rule.{rule_header_bytes, rule_output_limit, rule_output_count, node_count, node_at, rule_sizes_fit, rule_output_places_fit, rule_header_fits};

use definitions::{
    NODE_BYTES, NODE_LIMIT, PATTERN_BYTES, RULE_HEADER_BYTES, RULE_LETTER, RULE_OUTPUT_LIMIT,
    RULE_VERSION,
};
use fields::{byte_at, has_mark, u16_at};
use rule_fields::{node_count, output_count, source_count, target_count};
use runs::is_filled;

// Whether the header's four counts are in range, with at most `limit` vertices a side.
#[tactic(auto, unfolding(definitions::specs::Rule::rule_sizes_fit))]
pub fn sizes_fit(rule: &[u8], limit: usize) -> bool
    requires { rule_header_bytes ≤ length rule.now }
    ensures { result ≡ rule_sizes_fit limit rule.now }
{
    let source = source_count(rule);
    let outputs = output_count(rule);
    1 <= source
        && source <= limit
        && target_count(rule) <= limit
        && 1 <= outputs
        && outputs <= RULE_OUTPUT_LIMIT
        && node_count(rule) <= NODE_LIMIT
}

// Whether the source outputs name source vertices, and the unused output places hold 255.
pub fn output_places_fit(rule: &[u8]) -> bool
    requires rule_header_bytes_in_bounds { rule_header_bytes ≤ length rule.now }
    requires rule_bound { rule_output_count rule.now ≤ rule_output_limit }
    ensures { result ≡ rule_output_places_fit rule.now }
{
    let source = source_count(rule);
    let outputs = output_count(rule);
    (0..outputs).all(|i| byte_at(rule, 10 + i) < source)
        && is_filled(rule, 10 + outputs, 12, 255)
        && is_filled(rule, 12 + outputs, 14, 255)
}

// Whether the length is the one that the header's counts give.
pub fn length_fits(rule: &[u8]) -> bool
    requires { rule_header_bytes ≤ length rule.now }
    ensures { result ≡ eqb (length rule.now) (node_at rule.now (node_count rule.now)) }
{
    let vertices = source_count(rule) + target_count(rule);
    let nodes = node_count(rule);
    rule.len() == RULE_HEADER_BYTES + PATTERN_BYTES * vertices + NODE_BYTES * nodes
}

// Whether the length and the header are right, with at most `limit` vertices a side.
#[tactic(auto, unfolding(definitions::specs::Rule::rule_header_fits, definitions::specs::Rule::rule_sizes_fit))]
pub fn header_fits(rule: &[u8], limit: usize) -> bool
    ensures { result ≡ rule_header_fits limit rule.now }
{
    RULE_HEADER_BYTES <= rule.len()
        && length_fits(rule)
        && has_mark(rule, RULE_LETTER)
        && u16_at(rule, 4) == RULE_VERSION
        && sizes_fit(rule, limit)
        && output_places_fit(rule)
        && is_filled(rule, 14, RULE_HEADER_BYTES, 0)
}
