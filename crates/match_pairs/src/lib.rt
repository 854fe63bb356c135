// The least match of a rule with two outputs: images of the first output in order, and for each of these images of the second.
#![tactic(auto)]

ghost use Rattle.std.specs.Prelude.{[], ◌∷◌};
ghost use Rattle.definitions.specs.Graph.{graph_of};
ghost use Rattle.definitions.specs.Rule.{source_count};
ghost use Rattle.definitions.specs.Match.{least_match};
ghost use Rattle.rule_fields.specs.Fixed.{fixed_of};
ghost use Rattle.match_outputs.specs.Finds.{SearchReady, Finds};

use definitions::{SIDE_CAPACITY, UNUSED_PLACE};
use graph_fields::slot_count;
use match_candidates::{all_candidates, next_candidate};
use match_look::pattern_head;
use matching::match_candidate;

// The nested search: the first output, source vertex `root`, from `start` up, and for each image of it the second, `last`, from 0 up. The
// slots that pass the look for the second are listed once, so that what it turns away is not looked at again for every first image.
// The array is lent to every step: a step that fails leaves the images that it was given, which after the first output's step are those
// of the first `next` vertices. In the places after the images of all source vertices stands 65535.
pub fn search_pairs(
    graph: &[u8],
    rule: &[u8],
    demands: &[u16; SIDE_CAPACITY],
    root: usize,
    last: usize,
    start: usize,
) -> Option<[u16; SIDE_CAPACITY]>
    requires { SearchReady graph.now rule.now demands.now (root ∷ last ∷ []) }
    ensures { Finds (least_match (graph_of graph.now) (fixed_of rule.now) start)
        (source_count rule.now) result }
{
    let slots = slot_count(graph);
    let head = pattern_head(rule, root);
    let candidates = all_candidates(graph, pattern_head(rule, last));
    if candidates.count == 0 {
        return None;
    }
    let next = root + 1;
    let mut images = [UNUSED_PLACE; SIDE_CAPACITY];
    let mut found = None;
    let mut first = next_candidate(graph, head, start);
    // From candidate to candidate, as with one output.
    'search: while first < slots {
        if match_candidate(graph, rule, demands, root, first, 0, &mut images) {
            for k in 0..candidates.count {
                let second = usize::from(candidates.slots[k]);
                if match_candidate(graph, rule, demands, last, second, next, &mut images) {
                    found = Some(images);
                    break 'search;
                }
            }
        }
        first = next_candidate(graph, head, first + 1);
    }
    found
}
