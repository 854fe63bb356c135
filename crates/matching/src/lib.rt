// Matching a source vertex with a slot. The traversal that put the source vertices in order is followed: inputs first, left to right,
// each vertex once, so the images found so far are those of the first `next` source vertices.
#![tactic(auto)]

ghost use Rattle.std.specs.Prelude.{suc, max, drop};
ghost use Rattle.definitions.specs.Graph.{graph_of};
ghost use Rattle.definitions.specs.Rule.{source_inputs};
ghost use Rattle.rule_fields.specs.Fixed.{fixed_of};
ghost use Rattle.rule_order.specs.InOrder.{visited_after};
ghost use Rattle.match_images.specs.Partial.{Sends, SendsInputs, Step};
ghost use Rattle.matching.specs.Ready.{VertexReady, VertexDone, CandidateReady, InputsReady};

use definitions::SIDE_CAPACITY;
use graph_fields::input_at;
use match_images::{is_image, settle};
use match_look::{pattern_head, suits};
use rule_fields::{source_input, source_input_count};

// Matches source vertex j with slot v. A vertex that has its image is compared, not entered again; another is looked at first, and its
// inputs are entered only where v is a candidate. Where it succeeds, the images are those of the first `next` vertices and of all up to j.
#[cycle(match_candidate_match_inputs_match_vertex)]
pub fn match_vertex(
    graph: &[u8],
    rule: &[u8],
    demands: &[u16; SIDE_CAPACITY],
    j: usize,
    v: usize,
    next: usize,
    images: &mut [u16; SIDE_CAPACITY],
) -> bool
    requires { VertexReady graph.now rule.now demands.now j v next images.old }
    ensures { VertexDone (graph_of graph.now) (fixed_of rule.now) j v next images.old result
        images.new }
{
    if j < next {
        return is_image(images, j, v);
    }
    let head = pattern_head(rule, j);
    suits(graph, head, demands[j], v) && match_candidate(graph, rule, demands, j, v, next, images)
}

// Matches source vertex j, which has no image yet, with slot v, a candidate for it: its inputs first, and then itself.
#[cycle(match_candidate_match_inputs_match_vertex)]
pub fn match_candidate(
    graph: &[u8],
    rule: &[u8],
    demands: &[u16; SIDE_CAPACITY],
    j: usize,
    v: usize,
    next: usize,
    images: &mut [u16; SIDE_CAPACITY],
) -> bool
    requires { CandidateReady graph.now rule.now demands.now j v next images.old }
    ensures { Step (graph_of graph.now) (fixed_of rule.now) next images.old (Sends j v)
        (max next (suc j)) result images.new }
{
    match_inputs(graph, rule, demands, j, v, 0, next, images) && settle(graph, rule, j, v, images)
}

// Matches the inputs of source vertex j, from place i on, with those of slot v, a candidate for it.
#[cycle(match_candidate_match_inputs_match_vertex)]
fn match_inputs(
    graph: &[u8],
    rule: &[u8],
    demands: &[u16; SIDE_CAPACITY],
    j: usize,
    v: usize,
    i: usize,
    next: usize,
    images: &mut [u16; SIDE_CAPACITY],
) -> bool
    requires { InputsReady graph.now rule.now demands.now j v i next images.old }
    ensures { Step (graph_of graph.now) (fixed_of rule.now) next images.old
        (SendsInputs (graph_of graph.now) (fixed_of rule.now) j v i)
        (visited_after next (drop i (source_inputs (fixed_of rule.now) j))) result images.new }
{
    if i == source_input_count(rule, j) {
        return true;
    }
    let u = source_input(rule, j, i);
    let w = input_at(graph, v, i);
    if !match_vertex(graph, rule, demands, u, w, next, images) {
        return false;
    }
    let reached = next.max(u + 1);
    match_inputs(graph, rule, demands, j, v, i + 1, reached, images)
}
