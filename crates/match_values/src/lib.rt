// What a node of an attribute expression gives for a map: what a leaf gives, or what an operation makes of its operands' results, each
// operation worked out once.
#![tactic(auto)]

ghost use Rattle.std.specs.Prelude.{◌≡◌, ◌<◌, ◌≤◌};
ghost use Rattle.numbers.specs.Value.{value_of};
ghost use Rattle.match_leaves.specs.Evaluable.{NodeEvaluation};
ghost use Rattle.match_leaves.specs.Results.{node_result};
ghost use Rattle.match_values.specs.Memo.{Memo};
ghost use Rattle.rule_fields.specs.Fixed.{fixed_node_limit, nodes_in};

use arithmetic::combine;
use definitions::{FORM_ADD, NODE_LIMIT, SIDE_CAPACITY};
use match_leaves::leaf_value;
use rule_fields::fixed_node_count;
use rule_nodes::{FIXED_NODE_LIMIT, node_form, node_left, node_right};

// What node k gives. An operation's result is remembered, so that each operation is worked out once, however many nodes name it:
// without that, the time could double with every node. A place of the memo holds None where the node's result is not known.
fn node_value(
    graph: &[u8],
    rule: &[u8],
    images: &[u16; SIDE_CAPACITY],
    k: usize,
    memo: &mut [Option<Option<i32>>],
) -> Option<i32>
    requires node_evaluation { NodeEvaluation graph.now rule.now images.now }
    requires k_bound { k < nodes_in rule.now }
    requires memo { Memo graph.now rule.now images.now memo.old }
    ensures result_value { value_of result ≡ node_result graph.now rule.now images.now k }
    ensures memo_2 { Memo graph.now rule.now images.now memo.new }
{
    if let Some(value) = memo[k] {
        return value;
    }
    let form = node_form(rule, k);
    if form < FORM_ADD {
        return leaf_value(graph, rule, images, k);
    }
    let left = node_left(rule, k);
    let right = node_right(rule, k);
    let first = node_value(graph, rule, images, left, memo);
    let second = node_value(graph, rule, images, right, memo);
    let value = combine(form, first, second);
    memo[k] = Some(value);
    value
}

// What node k gives in a rule that has no more than N nodes: nothing is known before.
fn value_of_some<const N: usize>(
    graph: &[u8],
    rule: &[u8],
    images: &[u16; SIDE_CAPACITY],
    k: usize,
) -> Option<i32>
    requires node_evaluation { NodeEvaluation graph.now rule.now images.now }
    requires k_bound { k < nodes_in rule.now }
    requires rule_bound { nodes_in rule.now ≤ N }
    requires n_bound { N ≤ fixed_node_limit }
    ensures { value_of result ≡ node_result graph.now rule.now images.now k }
{
    let mut memo = [None; N];
    node_value(graph, rule, images, k, &mut memo[..])
}

// What node k gives where it is an operation. The memo has to be cleared, so a lent rule gets none that is larger than it can need.
pub fn operation_value(
    graph: &[u8],
    rule: &[u8],
    images: &[u16; SIDE_CAPACITY],
    k: usize,
) -> Option<i32>
    requires node_evaluation { NodeEvaluation graph.now rule.now images.now }
    requires k_bound { k < nodes_in rule.now }
    ensures { value_of result ≡ node_result graph.now rule.now images.now k }
{
    if fixed_node_count(rule) <= NODE_LIMIT {
        value_of_some::<NODE_LIMIT>(graph, rule, images, k)
    } else {
        value_of_some::<FIXED_NODE_LIMIT>(graph, rule, images, k)
    }
}
