// Whether a map is a match. Output images fix the rest of a match, so one attempt at those that the map gives makes the only match that the
// map can be: nothing is searched.
#![tactic(auto)]

ghost use Rattle.std.specs.Prelude.{◌≡◌, ◌*◌, ◌≤◌, eqb, length, get_or};
ghost use Rattle.definitions.specs.Lists.{all_below};
ghost use Rattle.definitions.specs.Fields.{u16_at};
ghost use Rattle.definitions.specs.Graph.{graph_of, SoundGraph};
ghost use Rattle.definitions.specs.Rule.{side_capacity, source_count, rule_output_count};
ghost use Rattle.rule_fields.specs.Fixed.{fixed_of};
ghost use Rattle.rule_nodes.specs.Working.{WorkingRule};
ghost use Rattle.match_images.specs.Partial.{Step};
ghost use Rattle.match_map.specs.Attempt.{AttemptReady, SendsOutputs};
ghost use Rattle.match_map.specs.Holding.{places_in, is_map_of, MapFits};

use definitions::{SIDE_CAPACITY, UNUSED_PLACE};
use fields::u16_at;
use graph_fields::slot_count;
use matching::match_vertex;
use rule_fields::{output_count, source_output};
use rule_uses::count_demands;

// The attempt: each output is matched with the slot that the map gives it, the first output first.
fn attempt(
    graph: &[u8],
    rule: &[u8],
    demands: &[u16; SIDE_CAPACITY],
    map: &[u8],
    images: &mut [u16; SIDE_CAPACITY],
) -> bool
    requires { AttemptReady graph.now rule.now demands.now map.now images.old }
    ensures { Step (graph_of graph.now) (fixed_of rule.now) 0 images.old
        (SendsOutputs (fixed_of rule.now) map.now (rule_output_count rule.now))
        (source_count rule.now) result images.new }
{
    let slots = slot_count(graph);
    let outputs = output_count(rule);
    let mut next = 0;
    for i in 0..outputs {
        let output = source_output(rule, i);
        let slot = u16_at(map, 2 * output);
        if slots <= slot {
            return false;
        }
        if !match_vertex(graph, rule, demands, output, slot, next, images) {
            return false;
        }
        next = next.max(output + 1);
    }
    true
}

// Whether the map holds these images, in every place.
fn holds_images(map: &[u8], images: &[u16; SIDE_CAPACITY]) -> bool
    requires map_bound { places_in map.now ≤ side_capacity }
    requires images_len { length images.now ≡ side_capacity }
    ensures { result ≡ all_below (λ j. eqb (u16_at map.now (2 * j)) (get_or images.now j 0))
        (places_in map.now) }
{
    (0..map.len() / 2).all(|j| u16_at(map, 2 * j) == usize::from(images[j]))
}

// Whether the map is a match, any, with 65535 in the places that no source vertex has.
pub fn is_match(graph: &[u8], rule: &[u8], map: &[u8]) -> bool
    requires sound_graph { SoundGraph graph.now }
    requires working_rule { WorkingRule rule.now }
    requires map_fits { MapFits rule.now map.now }
    ensures { result ≡ is_map_of (graph_of graph.now) (fixed_of rule.now) (places_in map.now)
        map.now }
{
    let demands = count_demands(rule);
    let mut images = [UNUSED_PLACE; SIDE_CAPACITY];
    attempt(graph, rule, &demands, map, &mut images) && holds_images(map, &images)
}
