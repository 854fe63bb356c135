// What a node of an attribute expression that is no operation gives for a map: a number of the old table or of the rule, or nothing.
#![tactic(auto)]

ghost use Rattle.std.specs.Prelude.{◌≡◌, ◌<◌, length};
ghost use Rattle.definitions.specs.Graph.{graph_of};
ghost use Rattle.definitions.specs.Rule.{side_capacity};
ghost use Rattle.definitions.specs.Match.{read_attribute};
ghost use Rattle.numbers.specs.Value.{value_of};
ghost use Rattle.graph_fields.specs.Layout.{ReadableGraph};
ghost use Rattle.match_leaves.specs.Evaluable.{NodeEvaluation, Leaf};
ghost use Rattle.match_leaves.specs.Results.{node_result};

use definitions::{FORM_ANY, FORM_CONSTANT, SIDE_CAPACITY};
use graph_fields::{attribute_at, attribute_count, slot_count};
use rule_nodes::{node_byte, node_form, node_number};

// Attribute place b, counted from 1, of the image of source vertex v; past the image's last there is none.
fn read_attribute(graph: &[u8], images: &[u16; SIDE_CAPACITY], v: usize, b: usize) -> Option<i32>
    requires readable_graph { ReadableGraph graph.now }
    requires images_len { length images.now ≡ side_capacity }
    requires v_lt_side_capacity { v < side_capacity }
    ensures { value_of result ≡ read_attribute (graph_of graph.now) images.now v b }
{
    let image = usize::from(images[v]);
    if slot_count(graph) <= image {
        return None;
    }
    if b < 1 {
        return None;
    }
    if attribute_count(graph, image) < b {
        return None;
    }
    Some(attribute_at(graph, image, b - 1))
}

// What node k gives where it is no operation. An access may name no source vertex in a node that nothing uses: it gives nothing.
pub fn leaf_value(graph: &[u8], rule: &[u8], images: &[u16; SIDE_CAPACITY], k: usize) -> Option<i32>
    requires node_evaluation { NodeEvaluation graph.now rule.now images.now }
    requires leaf { Leaf rule.now k }
    ensures { value_of result ≡ node_result graph.now rule.now images.now k }
{
    let form = node_form(rule, k);
    if form == FORM_ANY {
        return None;
    }
    if form == FORM_CONSTANT {
        return Some(node_number(rule, k));
    }
    let vertex = node_byte(rule, k, 1);
    let place = node_byte(rule, k, 2);
    if SIDE_CAPACITY <= vertex {
        return None;
    }
    read_attribute(graph, images, vertex, place)
}
