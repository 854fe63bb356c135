// The least match from a start, by the number of a rule's outputs. The first output's candidates are looked for before anything is counted in
// the rule: where no slot passes the look, there is no match. In the graph nothing is counted: a slot stores how often it is named.
#![tactic(auto)]

ghost use Rattle.definitions.specs.Graph.{graph_of, SoundGraph};
ghost use Rattle.definitions.specs.Rule.{source_count};
ghost use Rattle.definitions.specs.Match.{least_match};
ghost use Rattle.rule_fields.specs.Fixed.{fixed_of};
ghost use Rattle.rule_nodes.specs.Working.{WorkingRule};
ghost use Rattle.match_outputs.specs.Finds.{Finds};

use definitions::SIDE_CAPACITY;
use graph_fields::slot_count;
use match_candidates::next_candidate;
use match_look::pattern_head;
use match_outputs::search_one;
use match_pairs::search_pairs;
use rule_fields::{output_count, source_output};
use rule_uses::count_demands;

// Counts what every step asks for, and searches. A rule has one output or two.
fn search(graph: &[u8], rule: &[u8], start: usize) -> Option<[u16; SIDE_CAPACITY]>
    requires sound_graph { SoundGraph graph.now }
    requires working_rule { WorkingRule rule.now }
    ensures { Finds (least_match (graph_of graph.now) (fixed_of rule.now) start)
        (source_count rule.now) result }
{
    let demands = count_demands(rule);
    let root = source_output(rule, 0);
    if output_count(rule) == 1 {
        search_one(graph, rule, &demands, root, start)
    } else {
        let last = source_output(rule, 1);
        search_pairs(graph, rule, &demands, root, last, start)
    }
}

// The least match whose first output's image is at least `start`: the images of all source vertices, and 65535 in the places after them.
pub fn least_match(graph: &[u8], rule: &[u8], start: usize) -> Option<[u16; SIDE_CAPACITY]>
    requires sound_graph { SoundGraph graph.now }
    requires working_rule { WorkingRule rule.now }
    ensures { Finds (least_match (graph_of graph.now) (fixed_of rule.now) start)
        (source_count rule.now) result }
{
    let root = source_output(rule, 0);
    let first = next_candidate(graph, pattern_head(rule, root), start);
    if slot_count(graph) <= first {
        None
    } else {
        search(graph, rule, first)
    }
}
