// The attributes of a rule's vertices for a map: whether those of a source vertex agree with those of a slot, and the results of a
// target vertex's.
#![tactic(auto)]

ghost use Rattle.std.specs.Prelude.{◌≡◌, ◌<◌, true, get_or};
ghost use Rattle.definitions.specs.Fields.{signed};
ghost use Rattle.definitions.specs.Graph.{graph_of, slot_of};
ghost use Rattle.definitions.specs.Rule.{anything, source_of, target_of};
ghost use Rattle.definitions.specs.Attributes.{result_of, agrees};
ghost use Rattle.definitions.specs.Match.{read_attribute};
ghost use Rattle.rule_fields.specs.Fixed.{fixed_of, nodes_in};
ghost use Rattle.match_leaves.specs.Evaluable.{NodeEvaluation};
ghost use Rattle.match_leaves.specs.Results.{node_result};
ghost use Rattle.numbers.specs.Value.{value_of, bounded};
ghost use Rattle.attributes.specs.Agreement.{agree_first};
ghost use Rattle.attributes.specs.Evaluation.{Evaluation, SourceAttribute, SourceAttributes, TargetAttribute};

use definitions::{FORM_ADD, FORM_ANY, SIDE_CAPACITY};
use graph_fields::attribute_at;
use match_leaves::leaf_value;
use match_values::operation_value;
use rule_fields::{source_attribute, source_attribute_count, target_attribute};
use rule_nodes::node_form;

// What node k gives. Only an operation needs a memo.
fn node_value(graph: &[u8], rule: &[u8], images: &[u16; SIDE_CAPACITY], k: usize) -> Option<i32>
    requires node_evaluation { NodeEvaluation graph.now rule.now images.now }
    requires k_bound { k < nodes_in rule.now }
    ensures { value_of result ≡ node_result graph.now rule.now images.now k }
{
    if node_form(rule, k) < FORM_ADD {
        leaf_value(graph, rule, images, k)
    } else {
        operation_value(graph, rule, images, k)
    }
}

// Whether attribute i of source vertex j agrees with attribute i of slot v.
fn attribute_agrees(
    graph: &[u8],
    rule: &[u8],
    images: &[u16; SIDE_CAPACITY],
    j: usize,
    i: usize,
    v: usize,
) -> bool
    requires evaluation { Evaluation graph.now rule.now images.now }
    requires source_attribute { SourceAttribute graph.now rule.now j i v }
    ensures { result ≡ agrees (read_attribute (graph_of graph.now) images.now)
        (get_or (source_of (fixed_of rule.now) j).attributes i anything)
        (signed (get_or (slot_of (graph_of graph.now) v).attributes i 0)) }
{
    let k = source_attribute(rule, j, i);
    if node_form(rule, k) == FORM_ANY {
        return true;
    }
    let found = attribute_at(graph, v, i);
    node_value(graph, rule, images, k) == Some(found)
}

// Whether the attributes of source vertex j agree with those of slot v, as many as j has.
pub fn attributes_agree(
    graph: &[u8],
    rule: &[u8],
    images: &[u16; SIDE_CAPACITY],
    j: usize,
    v: usize,
) -> bool
    requires evaluation { Evaluation graph.now rule.now images.now }
    requires source_attributes { SourceAttributes graph.now rule.now j v }
    ensures { result ≡ agree_first (read_attribute (graph_of graph.now) images.now)
        (source_of (fixed_of rule.now) j).attributes (slot_of (graph_of graph.now) v).attributes }
{
    (0..source_attribute_count(rule, j)).all(|i| attribute_agrees(graph, rule, images, j, i, v))
}

// The result of attribute i of target vertex t.
pub fn target_value(
    graph: &[u8],
    rule: &[u8],
    images: &[u16; SIDE_CAPACITY],
    t: usize,
    i: usize,
) -> Option<i32>
    requires evaluation { Evaluation graph.now rule.now images.now }
    requires target_attribute { TargetAttribute rule.now t i }
    ensures result_value { value_of result ≡ result_of (read_attribute (graph_of graph.now) images.now)
        (get_or (target_of (fixed_of rule.now) t).attributes i anything) }
    ensures bounded_result { bounded (value_of result) ≡ true }
{
    let k = target_attribute(rule, t, i);
    node_value(graph, rule, images, k)
}
