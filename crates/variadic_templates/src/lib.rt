// What a version 2 rule block asks of its templates: that no shared vertex but a named Tuple names one, that a named Tuple is a shared Tuple of one
// field, and that no output is one.
#![tactic(auto)]

ghost use Rattle.std.specs.Prelude.{◌≡◌, not, ◌+◌, ◌<◌, ◌≤◌, length};
ghost use Rattle.definitions.specs.Lists.{lowest};
ghost use Rattle.definitions.specs.Fields.{byte_at};
ghost use Rattle.definitions.specs.Graph.{input_limit};
ghost use Rattle.definitions.specs.Rule.{rule_header_bytes, place_numbers, source_count, target_count, vertex_at, origin_of};
ghost use Rattle.definitions.specs.VariadicBlock.{variadic_of, origin_template, shared_outputs};
ghost use Rattle.rule_fields.specs.Layout.{WholeRule};
ghost use Rattle.variadic_templates.specs.Templates.{bad_templates, ShortBelow, place_marked, names_template, is_named_tuple, tuple_fits};

use definitions::{KIND_TUPLE, PATTERN_BYTES, RULE_HEADER_BYTES, TARGET_BASE};
use fields::byte_at;
use rule_fields::{output_count, source_count};
use variadic_header::{TEMPLATE_MARK, is_marked};

// Whether place number p of the target names a template.
#[tactic(auto, unfolding(definitions::specs::VariadicBlock::origin_template, definitions::specs::Rule::origin_by, definitions::specs::VariadicBlock::variadic_of))]
fn origin_marked(rule: &[u8], p: usize) -> bool
    requires rule_header_bytes_in_bounds { rule_header_bytes ≤ length rule.now }
    requires p_lt_place_numbers { p < place_numbers }
    ensures { result ≡ origin_template (variadic_of rule.now) (origin_of p) }
{
    if p < TARGET_BASE {
        is_marked(rule, p)
    } else {
        let t = p - TARGET_BASE;
        is_marked(rule, source_count(rule) + t)
    }
}

// Whether place number p of vertex v names a template.
#[tactic(auto, unfolding(crate::specs::Templates::place_marked))]
fn place_marked(rule: &[u8], v: usize, p: usize) -> bool
    requires rule_header_bytes_in_bounds { rule_header_bytes ≤ length rule.now }
    requires p_lt_place_numbers { p < place_numbers }
    ensures { result ≡ place_marked rule.now v p }
{
    if v < source_count(rule) {
        is_marked(rule, p)
    } else {
        origin_marked(rule, p)
    }
}

// Whether some input of vertex v names a template.
fn names_template(rule: &[u8], v: usize) -> bool
    requires whole_rule { WholeRule rule.now }
    requires v_bound { v < source_count rule.now + target_count rule.now }
    requires v_bound_2 { byte_at rule.now (vertex_at v + 2) ≤ input_limit }
    ensures { result ≡ names_template rule.now v }
{
    let at = RULE_HEADER_BYTES + PATTERN_BYTES * v;
    let count = byte_at(rule, at + 2);
    (0..count).any(|i| place_marked(rule, v, byte_at(rule, at + 4 + i)))
}

// Whether vertex v is a Tuple that the header names.
#[tactic(auto, unfolding(crate::specs::Templates::is_named_tuple))]
fn is_named_tuple(rule: &[u8], v: usize) -> bool
    requires { rule_header_bytes ≤ length rule.now }
    ensures { result ≡ is_named_tuple rule.now v }
{
    let source = source_count(rule);
    if v < source {
        v == byte_at(rule, 14)
    } else {
        v - source == byte_at(rule, 15)
    }
}

// Whether vertex v is a shared Tuple of one field.
#[tactic(auto, unfolding(crate::specs::Templates::tuple_fits))]
fn tuple_fits(rule: &[u8], v: usize) -> bool
    requires whole_rule { WholeRule rule.now }
    requires v_bound { v < source_count rule.now + target_count rule.now }
    ensures { result ≡ tuple_fits rule.now v }
{
    let at = RULE_HEADER_BYTES + PATTERN_BYTES * v;
    !is_marked(rule, v)
        && byte_at(rule, at) % TEMPLATE_MARK == KIND_TUPLE
        && byte_at(rule, at + 2) == 1
}

// Whether vertex v names templates only where it may, and is a good Tuple where it is a named one.
#[tactic(auto, using(crate::proofs::Laws::templates_read), unfolding(crate::specs::Templates::vertex_templates_fit))]
fn templates_fit(rule: &[u8], v: usize) -> bool
    requires whole_rule { WholeRule rule.now }
    requires v_bound { v < source_count rule.now + target_count rule.now }
    requires v_bound_2 { byte_at rule.now (vertex_at v + 2) ≤ input_limit }
    ensures { result ≡ not (bad_templates rule.now v) }
{
    if is_named_tuple(rule, v) {
        tuple_fits(rule, v)
    } else {
        is_marked(rule, v) || !names_template(rule, v)
    }
}

// The lowest vertex below `end` that is a bad Tuple or names a template that it may not, or `end`.
pub fn bad_templates(rule: &[u8], end: usize) -> usize
    requires whole_rule { WholeRule rule.now }
    requires end_bound { end ≤ source_count rule.now + target_count rule.now }
    requires short_below { ShortBelow rule.now end }
    ensures { result ≡ lowest (bad_templates rule.now) end }
{
    (0..end).find(|&v| !templates_fit(rule, v)).unwrap_or(end)
}

// Whether no output is a template, on either side.
pub fn shared_outputs(rule: &[u8]) -> bool
    requires { WholeRule rule.now }
    ensures { result ≡ shared_outputs (variadic_of rule.now) }
{
    let outputs = output_count(rule);
    !(0..outputs).any(|i| is_marked(rule, byte_at(rule, 10 + i)))
        && !(0..outputs).any(|i| origin_marked(rule, byte_at(rule, 12 + i)))
}
