// Which images of a match a rewriting removes. A Const that something outside the match still needs stays: the count that its slot stores
// decides it.
#![tactic(auto)]

ghost use Rattle.std.specs.Prelude.{◌≡◌, ◌<◌, length, get_or};
ghost use Rattle.definitions.specs.Graph.{slot_count, stored_count};
ghost use Rattle.definitions.specs.Rule.{side_capacity, source_count};
ghost use Rattle.rule_fields.specs.Fixed.{fixed_of};
ghost use Rattle.graph_fields.specs.Layout.{WholeGraph};
ghost use Rattle.rule_fields.specs.Layout.{WholeRule};
ghost use Rattle.new_removal.specs.Removal.{goes_by};

use definitions::SIDE_CAPACITY;
use graph_fields::stored_count;
use rule_fields::{is_const, is_rule_input};

// Whether the image of source vertex j goes: a rule input's stays, a Const's goes where it is named as often as the rule's own source
// names the vertex, and any other goes.
#[tactic(auto, unfolding(crate::specs::Removal::goes_by))]
pub fn image_goes(
    graph: &[u8],
    rule: &[u8],
    places: &[u16; SIDE_CAPACITY],
    j: usize,
    image: usize,
) -> bool
    requires whole_graph { WholeGraph graph.now }
    requires image_bound { image < slot_count graph.now }
    requires whole_rule { WholeRule rule.now }
    requires j_bound { j < source_count rule.now }
    requires places_len { length places.now ≡ side_capacity }
    ensures { result ≡ goes_by (fixed_of rule.now) j (stored_count graph.now image) (get_or places.now j 0) }
{
    !is_rule_input(rule, j)
        && (!is_const(rule, j) || stored_count(graph, image) == usize::from(places[j]))
}
