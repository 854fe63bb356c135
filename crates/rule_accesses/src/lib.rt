// The faults of a rule's attributes: whether each vertex may use the nodes that it names, by what these access, themselves or through
// other nodes. The test gives the lowest vertex with a fault, or the number of vertices where there is none.
#![tactic(auto)]

ghost use Rattle.std.specs.Prelude.{◌≡◌, true, not, ◌+◌, ◌<◌};
ghost use Rattle.definitions.specs.Lists.{lowest};
ghost use Rattle.definitions.specs.Rule.{source_count, target_count, node_count, node_fits, use_fits, bad_use};
ghost use Rattle.rule_fields.specs.Layout.{LentRule, ReadableRule};
ghost use Rattle.rule_accesses.specs.Access.{top_from, TopsKnown, NodesFaultless};

use definitions::{FORM_ACCESS, FORM_ANY, NODE_LIMIT, PATTERN_BYTES, RULE_HEADER_BYTES};
use fields::byte_at;
use rule_fields::{node_count, source_count, target_count};
use rule_nodes::{node_byte, node_form};

// The top of node k: one more than the highest source vertex that it accesses, itself or through the nodes that it names, or 0
// where it accesses none. The tops of the earlier nodes are in `tops`.
pub fn node_top(rule: &[u8], k: usize, tops: &[usize; NODE_LIMIT]) -> usize
    requires lent_rule { LentRule rule.now }
    requires k_bound { k < node_count rule.now }
    requires k_value { node_fits rule.now k ≡ true }
    ensures { result ≡ top_from rule.now tops.now k }
{
    let form = node_form(rule, k);
    let left = node_byte(rule, k, 1);
    let right = node_byte(rule, k, 2);
    if form < FORM_ACCESS {
        0
    } else if form == FORM_ACCESS {
        left + 1
    } else {
        let first = tops[left];
        let second = tops[right];
        first.max(second)
    }
}

// The top of every node. Each is found once, from those of its operands: to follow the operands from each use anew could take a
// time that doubles with every node.
fn access_tops(rule: &[u8]) -> [usize; NODE_LIMIT]
    requires lent_rule { LentRule rule.now }
    requires nodes_faultless { NodesFaultless rule.now }
    ensures { TopsKnown rule.now result }
{
    let mut tops = [0usize; NODE_LIMIT];
    for k in 0..node_count(rule) {
        tops[k] = node_top(rule, k, &tops);
    }
    tops
}

// Whether vertex v may use node k as an attribute.
#[tactic(auto, unfolding(definitions::specs::Rule::use_fits))]
pub fn use_fits(rule: &[u8], tops: &[usize; NODE_LIMIT], v: usize, k: usize) -> bool
    requires lent_rule { LentRule rule.now }
    requires tops_known { TopsKnown rule.now tops.now }
    ensures { result ≡ use_fits rule.now v k }
{
    k < node_count(rule)
        && if v < source_count(rule) {
            tops[k] <= v
        } else {
            node_form(rule, k) != FORM_ANY
        }
}

// Whether vertex v may use each node that is an attribute of it.
fn vertex_uses_fit(rule: &[u8], tops: &[usize; NODE_LIMIT], v: usize) -> bool
    requires readable_rule { ReadableRule rule.now }
    requires lent_rule { LentRule rule.now }
    requires v_bound { v < source_count rule.now + target_count rule.now }
    requires tops_known { TopsKnown rule.now tops.now }
    ensures { result ≡ not (bad_use rule.now v) }
{
    let at = RULE_HEADER_BYTES + PATTERN_BYTES * v;
    let count = byte_at(rule, at + 3);
    (0..count).all(|i| use_fits(rule, tops, v, byte_at(rule, at + 10 + i)))
}

// The lowest vertex that uses a node wrongly, or the number of vertices.
pub fn bad_use(rule: &[u8]) -> usize
    requires readable_rule { ReadableRule rule.now }
    requires lent_rule { LentRule rule.now }
    requires nodes_faultless { NodesFaultless rule.now }
    ensures { result ≡ lowest (bad_use rule.now) (source_count rule.now + target_count rule.now) }
{
    let vertices = source_count(rule) + target_count(rule);
    let tops = access_tops(rule);
    (0..vertices)
        .find(|&v| !vertex_uses_fit(rule, &tops, v))
        .unwrap_or(vertices)
}
