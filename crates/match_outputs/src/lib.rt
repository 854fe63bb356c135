// Images of a rule's outputs, tried in order. Output images fix the rest of a match, so the first that leads to a match leads to the least.
// Here is the search for a rule with one output, and what every search comes to.
#![tactic(auto)]

ghost use Rattle.std.specs.Prelude.{[], ◌∷◌};
ghost use Rattle.definitions.specs.Graph.{graph_of};
ghost use Rattle.definitions.specs.Rule.{source_count};
ghost use Rattle.definitions.specs.Match.{least_match};
ghost use Rattle.rule_fields.specs.Fixed.{fixed_of};
ghost use Rattle.match_outputs.specs.Finds.{SearchReady, Finds};

use definitions::{SIDE_CAPACITY, UNUSED_PLACE};
use graph_fields::slot_count;
use match_candidates::next_candidate;
use match_look::pattern_head;
use matching::match_candidate;

// The least match of a rule with one output, which is source vertex `root`: its image from `start` up decides alone. What the look turns
// away is passed over; for the rest, a step that fails leaves the images that it was given. In the places after the images of all source
// vertices stands 65535.
pub fn search_one(
    graph: &[u8],
    rule: &[u8],
    demands: &[u16; SIDE_CAPACITY],
    root: usize,
    start: usize,
) -> Option<[u16; SIDE_CAPACITY]>
    requires { SearchReady graph.now rule.now demands.now (root ∷ []) }
    ensures { Finds (least_match (graph_of graph.now) (fixed_of rule.now) start)
        (source_count rule.now) result }
{
    let slots = slot_count(graph);
    let head = pattern_head(rule, root);
    let mut images = [UNUSED_PLACE; SIDE_CAPACITY];
    let mut slot = next_candidate(graph, head, start);
    // The loop goes from candidate to candidate: the pass over the heads that finds the next one stays a loop of its own, which is short and fast.
    while slot < slots {
        if match_candidate(graph, rule, demands, root, slot, 0, &mut images) {
            return Some(images);
        }
        slot = next_candidate(graph, head, slot + 1);
    }
    None
}
