// A rule block's expression nodes, field by field.
#![tactic(auto)]

ghost use Rattle.std.specs.Prelude.{◌≡◌, ◌+◌, ◌*◌, ◌<◌, ◌≤◌, length};
ghost use Rattle.definitions.specs.Fields.{byte_at, u32_at, signed};
ghost use Rattle.definitions.specs.Rule.{node_bytes, node_at, node_form};
ghost use Rattle.rule_fields.specs.Fixed.{nodes_in, left_in, right_in};
ghost use Rattle.rule_fields.specs.Layout.{WholeRule};
ghost use Rattle.rule_nodes.specs.Nodes.{NarrowNode};

use definitions::{NODE_BYTES, PATTERN_BYTES, RULE_HEADER_BYTES};
use fields::{byte_at, i32_at};
use rule_fields::{source_count, target_count};

// How many nodes a rule has at most, in either layout.
pub const FIXED_NODE_LIMIT: usize = 448;

// Where node k starts.
pub fn node_at(rule: &[u8], k: usize) -> usize
    requires whole_rule { WholeRule rule.now }
    requires k_bound { k < nodes_in rule.now }
    ensures { (result ≡ node_at rule.now k) × (result + node_bytes ≤ length rule.now) }
{
    let vertices = source_count(rule) + target_count(rule);
    RULE_HEADER_BYTES + PATTERN_BYTES * vertices + NODE_BYTES * k
}

// The form of node k, its first byte.
pub fn node_form(rule: &[u8], k: usize) -> usize
    requires whole_rule { WholeRule rule.now }
    requires k_bound { k < nodes_in rule.now }
    ensures { (result ≡ node_form rule.now k) × (result < 256) }
{
    let at = node_at(rule, k);
    byte_at(rule, at)
}

// Byte i of node k: after the form come the left and the right operand, a zero byte, and the number.
pub fn node_byte(rule: &[u8], k: usize, i: usize) -> usize
    requires whole_rule { WholeRule rule.now }
    requires k_bound { k < nodes_in rule.now }
    requires i_lt_node_bytes { i < node_bytes }
    ensures { (result ≡ byte_at rule.now (node_at rule.now k + i)) × (result < 256) }
{
    let at = node_at(rule, k);
    byte_at(rule, at + i)
}

// The number of node k, its last four bytes.
pub fn node_number(rule: &[u8], k: usize) -> i32
    requires whole_rule { WholeRule rule.now }
    requires k_bound { k < nodes_in rule.now }
    ensures { result ≡ signed (u32_at rule.now (node_at rule.now k + 4)) }
{
    let at = node_at(rule, k);
    i32_at(rule, at + 4)
}

// The number in byte i of node k, with byte i + 3 for its high byte.
fn node_operand(rule: &[u8], k: usize, i: usize) -> usize
    requires whole_rule { WholeRule rule.now }
    requires k_bound { k < nodes_in rule.now }
    requires i_bound { i + 3 < node_bytes }
    ensures { result ≡ byte_at rule.now (node_at rule.now k + i) + 256 * byte_at rule.now (node_at rule.now k + (i + 3)) }
{
    node_byte(rule, k, i) + 256 * node_byte(rule, k, i + 3)
}

// The left operand of node k, an operation: in a lent block the high byte is zero.
pub fn node_left(rule: &[u8], k: usize) -> usize
    requires whole_rule { WholeRule rule.now }
    requires k_bound { k < nodes_in rule.now }
    requires narrow_node { NarrowNode rule.now k }
    ensures { result ≡ left_in rule.now k }
{
    node_operand(rule, k, 1)
}

// The right operand of node k, an operation.
pub fn node_right(rule: &[u8], k: usize) -> usize
    requires whole_rule { WholeRule rule.now }
    requires k_bound { k < nodes_in rule.now }
    requires narrow_node { NarrowNode rule.now k }
    ensures { result ≡ right_in rule.now k }
{
    node_operand(rule, k, 2)
}
