// Checking a version 2 rule block as it stands: the kinds of fault 30 to 34, in document 01's order, each with the lowest place that has it. What
// version 1 asks is asked of the block without marks. Target vertex t counts as S + t.
#![tactic(auto)]

ghost use Rattle.std.specs.Prelude.{◌≡◌, true, length};
ghost use Rattle.definitions.specs.Reply.{judged};
ghost use Rattle.definitions.specs.VariadicBlock.{variadic_header_fits};
ghost use Rattle.variadic_plain.specs.Plain.{plain_block};
ghost use Rattle.variadic_check.specs.Faults.{block_faults};

use definitions::{NODE_BYTES, NODE_LIMIT, PATTERN_BYTES, RULE_HEADER_BYTES, Reply, SIDE_LIMIT};
use reply::{Reason, refuse, refuse_at};
use rule_fields::{node_count, source_count, target_count};
use rule_order::first_misplaced;
use rule_outputs::outputs_fit;
use rule_records::bad_vertex;
use variadic_header::header_fits;
use variadic_nodes::{bad_node, bad_use};
use variadic_plain::write_plain;
use variadic_templates::{bad_templates, shared_outputs};

// The length of the longest block.
const RULE_LIMIT: usize = RULE_HEADER_BYTES
    + PATTERN_BYTES * (2 * SIDE_LIMIT)
    + NODE_BYTES * NODE_LIMIT;

// Room for a block: zeros, as many as the longest has bytes.
fn blank_rule() -> [u8; RULE_LIMIT]
    ensures { length result ≡ 1040 }
{
    [0u8; RULE_LIMIT]
}

// The reply for a block whose header fits; `plain` is the same block as one of version 1.
fn check_parts(rule: &[u8], plain: &[u8]) -> Reply
    requires rule_value { variadic_header_fits rule.now ≡ true }
    requires plain_value { plain.now ≡ plain_block rule.now }
    ensures { result ≡ judged (block_faults rule.now) }
{
    let sources = source_count(rule);
    let vertices = sources + target_count(rule);
    // Templates are looked at below the first vertex that is bad without them.
    let unfit = bad_templates(rule, bad_vertex(plain));
    if unfit < vertices {
        return refuse_at(Reason::BadRuleRecord, unfit as u32);
    }
    let misplaced = first_misplaced(plain);
    if misplaced < sources {
        return refuse_at(Reason::BadRuleOrder, misplaced as u32);
    }
    if !outputs_fit(plain) {
        return refuse(Reason::BadRuleOutputs);
    }
    if !shared_outputs(rule) {
        return refuse(Reason::BadRuleOutputs);
    }
    let node = bad_node(rule);
    if node < node_count(rule) {
        return refuse_at(Reason::BadRuleExpression, node as u32);
    }
    let user = bad_use(rule);
    if user < vertices {
        return refuse_at(Reason::BadRuleExpression, user as u32);
    }
    Ok(0)
}

// The reply for any bytes as a version 2 rule block, as far as they are looked at as they stand.
pub fn check_block(rule: &[u8]) -> Reply
    ensures { result ≡ judged (block_faults rule.now) }
{
    if !header_fits(rule) {
        return refuse(Reason::BadRuleHeader);
    }
    let mut plain = blank_rule();
    let size = rule.len();
    write_plain(rule, &mut plain[0..size]);
    check_parts(rule, &plain[0..size])
}
