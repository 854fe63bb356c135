// The second kind of fault of a rule block: the records of its vertices, with their input places.
#![tactic(auto)]

ghost use Rattle.std.specs.Prelude.{◌≡◌, not, ◌+◌, ◌<◌, ◌≤◌, length};
ghost use Rattle.definitions.specs.Lists.{lowest};
ghost use Rattle.definitions.specs.Fields.{byte_at};
ghost use Rattle.definitions.specs.Graph.{input_limit};
ghost use Rattle.definitions.specs.Rule.{pattern_bytes, source_count, target_count, vertex_at, pattern_fits, origin_fits, source_inputs_fit, target_inputs_fit, bad_vertex_of};
ghost use Rattle.rule_fields.specs.Fixed.{origin_in, fixed_of};
ghost use Rattle.rule_fields.specs.Layout.{WholeRule};

use definitions::{KIND_EMPTY, KIND_VARIABLE, PATTERN_BYTES, RULE_HEADER_BYTES};
use fields::byte_at;
use operators::shape_fits;
use rule_fields::{is_rule_input, source_count, target_count, target_split};
use runs::is_filled;

// Whether the record at `at` follows the tables, and its unused places hold 255.
#[tactic(auto, unfolding(definitions::specs::Rule::pattern_fits))]
fn pattern_fits(rule: &[u8], at: usize) -> bool
    requires { at + pattern_bytes ≤ length rule.now }
    ensures { result ≡ pattern_fits rule.now at }
{
    let kind = byte_at(rule, at);
    let operator = byte_at(rule, at + 1);
    let inputs = byte_at(rule, at + 2);
    let attributes = byte_at(rule, at + 3);
    shape_fits(kind, operator, inputs, attributes)
        && is_filled(rule, at + 4 + inputs, at + 10, 255)
        && is_filled(rule, at + 10 + attributes, at + PATTERN_BYTES, 255)
}

// Whether every input of source vertex j names a lower vertex.
fn source_inputs_fit(rule: &[u8], j: usize) -> bool
    requires whole_rule { WholeRule rule.now }
    requires j_bound { j < source_count rule.now }
    requires j_bound_2 { byte_at rule.now (vertex_at j + 2) ≤ input_limit }
    ensures { result ≡ source_inputs_fit (fixed_of rule.now) j }
{
    let at = RULE_HEADER_BYTES + PATTERN_BYTES * j;
    let inputs = byte_at(rule, at + 2);
    (0..inputs).all(|i| byte_at(rule, at + 4 + i) < j)
}

// Whether the place number p of the target names a rule input, or a target vertex below t.
#[tactic(auto, unfolding(definitions::specs::Rule::origin_fits, definitions::specs::Rule::origin_by))]
pub fn origin_fits(rule: &[u8], t: usize, p: usize) -> bool
    requires { WholeRule rule.now }
    ensures { result ≡ origin_fits (fixed_of rule.now) t (origin_in rule.now p) }
{
    let split = target_split(rule);
    if p < split {
        is_rule_input(rule, p)
    } else {
        p - split < t
    }
}

// Whether target vertex t is of a target's kind, and its inputs name rule inputs and earlier target
// vertices.
fn target_inputs_fit(rule: &[u8], t: usize) -> bool
    requires whole_rule { WholeRule rule.now }
    requires t_bound { t < target_count rule.now }
    requires t_bound_2 { byte_at rule.now (vertex_at (source_count rule.now + t) + 2) ≤ input_limit }
    ensures { result ≡ target_inputs_fit (fixed_of rule.now) t }
{
    let v = source_count(rule) + t;
    let at = RULE_HEADER_BYTES + PATTERN_BYTES * v;
    let kind = byte_at(rule, at);
    let inputs = byte_at(rule, at + 2);
    !matches!(kind, KIND_EMPTY | KIND_VARIABLE)
        && (0..inputs).all(|i| origin_fits(rule, t, byte_at(rule, at + 4 + i)))
}

// Whether vertex v, a source or a target one, has a good record and good input places.
#[tactic(auto, unfolding(definitions::specs::Rule::bad_vertex_of))]
fn vertex_fits(rule: &[u8], v: usize) -> bool
    requires whole_rule { WholeRule rule.now }
    requires v_bound { v < source_count rule.now + target_count rule.now }
    ensures { result ≡ not (bad_vertex_of (fixed_of rule.now) rule.now v) }
{
    let source = source_count(rule);
    pattern_fits(rule, RULE_HEADER_BYTES + PATTERN_BYTES * v)
        && if v < source {
            source_inputs_fit(rule, v)
        } else {
            target_inputs_fit(rule, v - source)
        }
}

// The lowest vertex with a bad record or a bad input place, or the number of vertices.
pub fn bad_vertex(rule: &[u8]) -> usize
    requires { WholeRule rule.now }
    ensures { result ≡ lowest (bad_vertex_of (fixed_of rule.now) rule.now) (source_count rule.now + target_count rule.now) }
{
    let vertices = source_count(rule) + target_count(rule);
    (0..vertices)
        .find(|&v| !vertex_fits(rule, v))
        .unwrap_or(vertices)
}
