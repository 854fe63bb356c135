// The slots that pass the look for a source vertex, in ascending order. A pass over the heads finds them; of a match nothing is tried for
// what the look turns away. An output may be named from anywhere, so that for an output these are the candidates.
#![tactic(auto)]

ghost use Rattle.definitions.specs.Graph.{slot_count, graph_of};
ghost use Rattle.graph_fields.specs.Layout.{ReadableGraph};
ghost use Rattle.match_look.specs.Head.{head_in};
ghost use Rattle.match_look.specs.Candidate.{passes_look};
ghost use Rattle.match_candidates.specs.Listed.{NextFrom, Listed};

use definitions::SLOT_LIMIT;
use graph_fields::slot_count;
use match_look::passes_look;

// The lowest slot from `from` on that passes the look for a vertex with that head; where there is none, a number past the last slot.
pub fn next_candidate(graph: &[u8], head: u32, from: usize) -> usize
    requires { ReadableGraph graph.now }
    ensures { NextFrom (passes_look (head_in head) (graph_of graph.now)) from (slot_count graph.now) result }
{
    let slots = slot_count(graph);
    (from..slots)
        .find(|&v| passes_look(graph, head, v))
        .unwrap_or(from.max(slots))
}

// The slots that pass the look, the lowest first: the first `count` places. There is no heap, so the array has room for all slots.
#[derive(Drop)]
pub struct Candidates {
    pub slots: [u16; SLOT_LIMIT],
    pub count: usize,
}

// All slots that pass the look for a vertex with that head.
pub fn all_candidates(graph: &[u8], head: u32) -> Candidates
    requires { ReadableGraph graph.now }
    ensures { Listed (passes_look (head_in head) (graph_of graph.now)) (slot_count graph.now) result.slots result.count }
{
    let mut slots = [0; SLOT_LIMIT];
    let mut count = 0;
    for v in 0..slot_count(graph) {
        if passes_look(graph, head, v) {
            slots[count] = v as u16;
            count += 1;
        }
    }
    Candidates { slots, count }
}
