// The slots that are Empty after the removal.
#![tactic(auto)]

ghost use Rattle.std.specs.Prelude.{not};
ghost use Rattle.definitions.specs.Graph.{slot_count, graph_of, is_vertex};
ghost use Rattle.definitions.specs.Rewriting.{stays};
ghost use Rattle.rule_fields.specs.Fixed.{fixed_of};
ghost use Rattle.graph_fields.specs.Layout.{WholeGraph};
ghost use Rattle.new_removal.specs.Removal.{Removable};
ghost use Rattle.laws.specs.Marked.{Marked};

use definitions::{KIND_EMPTY, SIDE_CAPACITY, SLOT_LIMIT};
use graph_fields::{kind_of, slot_count};
use new_removal::image_goes;
use padding::padded;
use rule_fields::source_count;
use rule_uses::count_places;

// Marks the slots that are Empty in the block as it came.
fn mark_empty(graph: &[u8]) -> [bool; SLOT_LIMIT]
    requires { WholeGraph graph.now }
    ensures { Marked (λ k. not (is_vertex (graph_of graph.now) k)) (slot_count graph.now) result }
{
    let slots = slot_count(graph);
    padded(slots, false, |k| kind_of(graph, k) == KIND_EMPTY)
}

// Marks the slots that are Empty after the removal: the images that go too.
pub fn find_free(graph: &[u8], rule: &[u8], images: &[u16; SIDE_CAPACITY]) -> [bool; SLOT_LIMIT]
    requires { Removable graph.now rule.now images.now }
    ensures { Marked (λ k. not (stays (graph_of graph.now) (fixed_of rule.now) images.now k))
        (slot_count graph.now) result }
{
    let vertices = source_count(rule);
    let places = count_places(rule);
    let mut free = mark_empty(graph);
    for j in 0..vertices {
        let image = usize::from(images[j]);
        if image_goes(graph, rule, &places, j, image) {
            free[image] = true;
        }
    }
    free
}
