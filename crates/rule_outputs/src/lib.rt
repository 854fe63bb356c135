// Whether a rule's outputs fit: the source outputs, which some source vertex reaches together, the target outputs, and that some
// target place names every rule input and every target vertex.
#![tactic(auto)]

ghost use Rattle.std.specs.Prelude.{◌≡◌, ◌+◌, ◌<◌, length, get_or, drop};
ghost use Rattle.definitions.specs.Lists.{all, member, distinct};
ghost use Rattle.definitions.specs.Rule.{source_count, rule_output_count, source_inputs, origin_fits, source_outputs_fit, outputs_fit};
ghost use Rattle.rule_fields.specs.Fixed.{fixed_of};
ghost use Rattle.rule_fields.specs.Layout.{WholeRule, ReadableRule, LayeredRule};
ghost use Rattle.rule_outputs.specs.Outputs.{is_read, may_be_output};

use definitions::{KIND_CALL, KIND_PROJ};
use rule_connection::is_connected;
use rule_fields::{
    output_count, source_count, source_input, source_input_count, source_kind, source_output,
    target_count, target_output,
};
use rule_names::all_named;
use rule_records::origin_fits;

// ---- source outputs

// Whether source vertex j has o among its inputs.
fn source_reads(rule: &[u8], j: usize, o: usize) -> bool
    requires readable_rule { ReadableRule rule.now }
    requires j_bound { j < source_count rule.now }
    ensures { result ≡ member o (source_inputs (fixed_of rule.now) j) }
{
    (0..source_input_count(rule, j)).any(|i| source_input(rule, j, i) == o)
}

// Whether some source vertex reads o.
fn is_read(rule: &[u8], o: usize) -> bool
    requires { ReadableRule rule.now }
    ensures { result ≡ is_read (fixed_of rule.now) o }
{
    (0..source_count(rule)).any(|j| source_reads(rule, j, o))
}

// Whether source vertex o may be an output: of kind 3, 4 or 5, and read by no source vertex.
fn may_be_output(rule: &[u8], o: usize) -> bool
    requires readable_rule { ReadableRule rule.now }
    requires o_bound { o < source_count rule.now }
    ensures { result ≡ may_be_output (fixed_of rule.now) o }
{
    (KIND_CALL..=KIND_PROJ).contains(&source_kind(rule, o)) && !is_read(rule, o)
}

// Whether every source output may be one.
fn may_all_be_outputs(rule: &[u8]) -> bool
    requires { LayeredRule rule.now }
    ensures { result ≡ all (may_be_output (fixed_of rule.now)) (fixed_of rule.now).source_outputs }
{
    (0..output_count(rule)).all(|i| may_be_output(rule, source_output(rule, i)))
}

// Whether source output i comes again after place i.
fn comes_again(rule: &[u8], i: usize) -> bool
    requires whole_rule { WholeRule rule.now }
    requires i_bound { i < rule_output_count rule.now }
    ensures { result ≡ member (get_or (fixed_of rule.now).source_outputs i 255)
        (drop (i + 1) (fixed_of rule.now).source_outputs) }
{
    let o = source_output(rule, i);
    (i + 1..output_count(rule)).any(|k| source_output(rule, k) == o)
}

// Whether no source vertex is an output twice.
fn are_distinct(rule: &[u8]) -> bool
    requires { WholeRule rule.now }
    ensures { result ≡ distinct (fixed_of rule.now).source_outputs }
{
    (0..output_count(rule)).all(|i| !comes_again(rule, i))
}

// Whether the source outputs are distinct, and each may be one.
#[tactic(auto, unfolding(definitions::specs::Rule::source_outputs_fit))]
fn source_outputs_fit(rule: &[u8]) -> bool
    requires { LayeredRule rule.now }
    ensures { result ≡ source_outputs_fit (fixed_of rule.now) }
{
    are_distinct(rule) && may_all_be_outputs(rule)
}

// ---- target outputs

// Whether each target output names a rule input or a target vertex.
fn target_outputs_fit(rule: &[u8]) -> bool
    requires { WholeRule rule.now }
    ensures { result ≡ all (origin_fits (fixed_of rule.now) (length (fixed_of rule.now).target))
        (fixed_of rule.now).target_outputs }
{
    let vertices = target_count(rule);
    (0..output_count(rule)).all(|i| origin_fits(rule, vertices, target_output(rule, i)))
}

// ---- all of them

// Whether the source outputs fit, some source vertex reaches them all, the target outputs fit, and every rule input and target
// vertex is named.
#[tactic(auto, unfolding(definitions::specs::Rule::outputs_fit))]
pub fn outputs_fit(rule: &[u8]) -> bool
    requires { LayeredRule rule.now }
    ensures { result ≡ outputs_fit (fixed_of rule.now) }
{
    source_outputs_fit(rule) && is_connected(rule) && target_outputs_fit(rule) && all_named(rule)
}
