// The faults of a version 2 rule's expression nodes, and of the attributes that use them. Beside the forms of version 1 there are the index and
// the sum; a vertex that is no template may use neither the index nor a template's attribute outside of a sum.
#![tactic(auto)]

ghost use Rattle.std.specs.Prelude.{◌≡◌, true, not, ◌+◌, ◌<◌};
ghost use Rattle.definitions.specs.Lists.{lowest};
ghost use Rattle.definitions.specs.Rule.{source_count, target_count, node_count};
ghost use Rattle.definitions.specs.VariadicBlock.{variadic_node_fits, bad_variadic_node, variadic_use_fits, bad_variadic_use};
ghost use Rattle.rule_fields.specs.Layout.{LentRule, ReadableRule};
ghost use Rattle.rule_accesses.specs.Access.{top_from, TopsKnown};
ghost use Rattle.variadic_nodes.specs.Needs.{needs_from, NeedsKnown, VariadicFaultless};

use definitions::{
    FORM_ACCESS, FORM_ANY, FORM_CONSTANT, FORM_REMAINDER, NODE_LIMIT, PATTERN_BYTES,
    RULE_HEADER_BYTES,
};
use fields::byte_at;
use rule_accesses::{node_top, use_fits};
use rule_expressions::{node_fits, number_unused, operand_fits};
use rule_fields::{node_count, source_count, target_count};
use rule_nodes::{node_byte, node_form};
use variadic_header::{FORM_INDEX, FORM_SUM, is_marked};

// Whether node k has a form, its used fields in range, and its unused fields zero.
#[tactic(auto, unfolding(definitions::specs::VariadicBlock::variadic_node_fits))]
fn variadic_node_fits(rule: &[u8], k: usize) -> bool
    requires lent_rule { LentRule rule.now }
    requires k_bound { k < node_count rule.now }
    ensures { result ≡ variadic_node_fits rule.now k }
{
    let form = node_form(rule, k);
    if form <= FORM_REMAINDER {
        return node_fits(rule, k);
    }
    let left = node_byte(rule, k, 1);
    node_byte(rule, k, 3) == 0
        && number_unused(rule, k)
        && node_byte(rule, k, 2) == 0
        && match form {
            FORM_INDEX => left == 0,
            FORM_SUM => operand_fits(rule, k, left),
            _ => false,
        }
}

// The lowest node with a fault, or the number of nodes.
pub fn bad_node(rule: &[u8]) -> usize
    requires { LentRule rule.now }
    ensures { result ≡ lowest (bad_variadic_node rule.now) (node_count rule.now) }
{
    let nodes = node_count(rule);
    (0..nodes)
        .find(|&k| !variadic_node_fits(rule, k))
        .unwrap_or(nodes)
}

// The top of node k, as of version 1: one more than the highest source vertex that it accesses, through sums too.
#[tactic(auto, using(crate::proofs::Laws::fixed_fits, crate::proofs::Laws::summed_earlier), unfolding(rule_accesses::specs::Access::top_from))]
fn variadic_top(rule: &[u8], k: usize, tops: &[usize; NODE_LIMIT]) -> usize
    requires lent_rule { LentRule rule.now }
    requires k_bound { k < node_count rule.now }
    requires k_value { variadic_node_fits rule.now k ≡ true }
    ensures { result ≡ top_from rule.now tops.now k }
{
    match node_form(rule, k) {
        FORM_INDEX => 0,
        FORM_SUM => tops[node_byte(rule, k, 1)],
        _ => node_top(rule, k, tops),
    }
}

// The top of every node, each found once, from those of its operands.
fn variadic_tops(rule: &[u8]) -> [usize; NODE_LIMIT]
    requires lent_rule { LentRule rule.now }
    requires variadic_faultless { VariadicFaultless rule.now }
    ensures { TopsKnown rule.now result }
{
    let mut tops = [0usize; NODE_LIMIT];
    for k in 0..node_count(rule) {
        tops[k] = variadic_top(rule, k, &tops);
    }
    tops
}

// Whether node k needs the index: whether the index, or a template's attribute, stands in it outside of every sum. `needs` has that of the
// earlier nodes.
#[tactic(auto, using(crate::proofs::Laws::fixed_left, crate::proofs::Laws::fixed_right), unfolding(crate::specs::Needs::needs_from))]
fn needs_index(rule: &[u8], k: usize, needs: &[bool; NODE_LIMIT]) -> bool
    requires lent_rule { LentRule rule.now }
    requires k_bound { k < node_count rule.now }
    requires k_value { variadic_node_fits rule.now k ≡ true }
    ensures { result ≡ needs_from rule.now needs.now k }
{
    let left = node_byte(rule, k, 1);
    match node_form(rule, k) {
        FORM_ANY | FORM_CONSTANT | FORM_SUM => false,
        FORM_ACCESS => is_marked(rule, left),
        FORM_INDEX => true,
        _ => needs[left] || needs[node_byte(rule, k, 2)],
    }
}

// Whether each node needs the index, each found once, from those of its operands.
fn index_needs(rule: &[u8]) -> [bool; NODE_LIMIT]
    requires lent_rule { LentRule rule.now }
    requires variadic_faultless { VariadicFaultless rule.now }
    ensures { NeedsKnown rule.now result }
{
    let mut needs = [false; NODE_LIMIT];
    for k in 0..node_count(rule) {
        needs[k] = needs_index(rule, k, &needs);
    }
    needs
}

// Whether vertex v may use node k as an attribute.
#[tactic(auto, unfolding(definitions::specs::VariadicBlock::variadic_use_fits, definitions::specs::Rule::use_fits))]
fn variadic_use_fits(
    rule: &[u8],
    tops: &[usize; NODE_LIMIT],
    needs: &[bool; NODE_LIMIT],
    v: usize,
    k: usize,
) -> bool
    requires lent_rule { LentRule rule.now }
    requires v_bound { v < source_count rule.now + target_count rule.now }
    requires tops_known { TopsKnown rule.now tops.now }
    requires needs_known { NeedsKnown rule.now needs.now }
    ensures { result ≡ variadic_use_fits rule.now v k }
{
    use_fits(rule, tops, v, k) && (is_marked(rule, v) || !needs[k])
}

// Whether vertex v may use each node that is an attribute of it.
fn vertex_uses_fit(
    rule: &[u8],
    tops: &[usize; NODE_LIMIT],
    needs: &[bool; NODE_LIMIT],
    v: usize,
) -> bool
    requires readable_rule { ReadableRule rule.now }
    requires lent_rule { LentRule rule.now }
    requires v_bound { v < source_count rule.now + target_count rule.now }
    requires tops_known { TopsKnown rule.now tops.now }
    requires needs_known { NeedsKnown rule.now needs.now }
    ensures { result ≡ not (bad_variadic_use rule.now v) }
{
    let at = RULE_HEADER_BYTES + PATTERN_BYTES * v;
    let count = byte_at(rule, at + 3);
    (0..count).all(|i| variadic_use_fits(rule, tops, needs, v, byte_at(rule, at + 10 + i)))
}

// The lowest vertex that uses a node wrongly, or the number of vertices.
pub fn bad_use(rule: &[u8]) -> usize
    requires readable_rule { ReadableRule rule.now }
    requires lent_rule { LentRule rule.now }
    requires variadic_faultless { VariadicFaultless rule.now }
    ensures { result ≡ lowest (bad_variadic_use rule.now) (source_count rule.now + target_count rule.now) }
{
    let vertices = source_count(rule) + target_count(rule);
    let tops = variadic_tops(rule);
    let needs = index_needs(rule);
    (0..vertices)
        .find(|&v| !vertex_uses_fit(rule, &tops, &needs, v))
        .unwrap_or(vertices)
}
