// The faults of a rule's expression nodes. The test gives the lowest node with a fault, or the number of nodes where there is none.
#![tactic(auto)]

ghost use Rattle.std.specs.Prelude.{◌≡◌, ◌&&◌, ◌+◌, ◌<◌, ◌≤◌, eqb, ltb, leb, length};
ghost use Rattle.definitions.specs.Lists.{within, lowest};
ghost use Rattle.definitions.specs.Fields.{filled};
ghost use Rattle.definitions.specs.Graph.{attribute_limit};
ghost use Rattle.definitions.specs.Rule.{rule_header_bytes, source_count, node_count, node_at, form_remainder, operand_fits, node_fits, bad_node};
ghost use Rattle.rule_fields.specs.Layout.{LentRule};

use definitions::{
    ATTRIBUTE_LIMIT, FORM_ACCESS, FORM_ANY, FORM_CONSTANT, FORM_REMAINDER, NODE_BYTES,
};
use rule_fields::{node_count, source_count};
use rule_nodes::{node_at, node_byte, node_form};
use runs::is_filled;

// Whether node k leaves its number zero.
pub fn number_unused(rule: &[u8], k: usize) -> bool
    requires lent_rule { LentRule rule.now }
    requires k_bound { k < node_count rule.now }
    ensures { result ≡ filled rule.now (node_at rule.now k + 4) (node_at rule.now k + 8) 0 }
{
    let at = node_at(rule, k);
    is_filled(rule, at + 4, at + NODE_BYTES, 0)
}

// Whether a node that has no operands leaves both zero.
fn operands_unused(left: usize, right: usize) -> bool
    ensures { result ≡ (eqb left 0 && eqb right 0) }
{
    left == 0 && right == 0
}

// Whether an access names a source vertex, and an attribute place, counted from 1.
fn access_fits(rule: &[u8], vertex: usize, attribute: usize) -> bool
    requires { rule_header_bytes ≤ length rule.now }
    ensures { result ≡ (ltb vertex (source_count rule.now) && within 1 attribute attribute_limit) }
{
    vertex < source_count(rule) && (1..=ATTRIBUTE_LIMIT).contains(&attribute)
}

// Whether node k may name node j as an operand: an earlier one that is not any.
#[tactic(auto, unfolding(definitions::specs::Rule::operand_fits))]
pub fn operand_fits(rule: &[u8], k: usize, j: usize) -> bool
    requires lent_rule { LentRule rule.now }
    requires k_bound { k < node_count rule.now }
    ensures { result ≡ operand_fits rule.now k j }
{
    j < k && node_form(rule, j) != FORM_ANY
}

// Whether node k, whose form is none of 0 to 2, is an operation with two operands that it may name.
fn operation_fits(rule: &[u8], k: usize, form: usize, left: usize, right: usize) -> bool
    requires lent_rule { LentRule rule.now }
    requires k_bound { k < node_count rule.now }
    ensures { result ≡ (leb form form_remainder && operand_fits rule.now k left && operand_fits rule.now k right) }
{
    form <= FORM_REMAINDER && operand_fits(rule, k, left) && operand_fits(rule, k, right)
}

// Whether node k has a form, its used fields in range, and its unused fields zero.
#[tactic(auto, unfolding(definitions::specs::Rule::node_fits))]
pub fn node_fits(rule: &[u8], k: usize) -> bool
    requires lent_rule { LentRule rule.now }
    requires k_bound { k < node_count rule.now }
    ensures { result ≡ node_fits rule.now k }
{
    let form = node_form(rule, k);
    let left = node_byte(rule, k, 1);
    let right = node_byte(rule, k, 2);
    node_byte(rule, k, 3) == 0
        && if form == FORM_CONSTANT {
            operands_unused(left, right)
        } else {
            // Only a constant has a number.
            number_unused(rule, k)
                && match form {
                    FORM_ANY => operands_unused(left, right),
                    FORM_ACCESS => access_fits(rule, left, right),
                    _ => operation_fits(rule, k, form, left, right),
                }
        }
}

// The lowest node with a fault, or the number of nodes.
pub fn bad_node(rule: &[u8]) -> usize
    requires { LentRule rule.now }
    ensures { result ≡ lowest (bad_node rule.now) (node_count rule.now) }
{
    let nodes = node_count(rule);
    (0..nodes).find(|&k| !node_fits(rule, k)).unwrap_or(nodes)
}
