// Checking a rule block: the five kinds of fault, in document 01's order, each with the lowest place that has it. Target vertex t counts
// as S + t.
#![tactic(auto)]

ghost use Rattle.std.specs.Prelude.{◌≡◌};
ghost use Rattle.definitions.specs.Rule.{rule_reply};

use definitions::{Reply, SIDE_LIMIT};
use reply::{Reason, refuse, refuse_at};
use rule_accesses::bad_use;
use rule_expressions::bad_node;
use rule_fields::{node_count, source_count, target_count};
use rule_header::header_fits;
use rule_order::first_misplaced;
use rule_outputs::outputs_fit;
use rule_records::bad_vertex;

// The reply for any bytes as a rule block.
pub fn check(rule: &[u8]) -> Reply
    ensures { result ≡ rule_reply rule.now }
{
    if !header_fits(rule, SIDE_LIMIT) {
        return refuse(Reason::BadRuleHeader);
    }
    let sources = source_count(rule);
    let vertices = sources + target_count(rule);
    let unfit = bad_vertex(rule);
    if unfit < vertices {
        return refuse_at(Reason::BadRuleRecord, unfit as u32);
    }
    let misplaced = first_misplaced(rule);
    if misplaced < sources {
        return refuse_at(Reason::BadRuleOrder, misplaced as u32);
    }
    if !outputs_fit(rule) {
        return refuse(Reason::BadRuleOutputs);
    }
    let node = bad_node(rule);
    if node < node_count(rule) {
        return refuse_at(Reason::BadRuleExpression, node as u32);
    }
    let user = bad_use(rule);
    if user < vertices {
        return refuse_at(Reason::BadRuleExpression, user as u32);
    }
    Ok(0)
}
