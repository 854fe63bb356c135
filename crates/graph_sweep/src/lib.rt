// The sweep: every vertex from which no graph output is reached is emptied in the lent graph, except Variables, which the phone feeds by
// number. Which slots go is settled before the first is written. Then counts are stored anew: what a slot that went has read is named less
// often.
#![tactic(auto)]

ghost use Rattle.std.specs.Prelude.{◌≡◌, ◌<◌, length};
ghost use Rattle.definitions.specs.Graph.{slot_limit, slot_count, graph_of, graph_reply, SoundGraph};
ghost use Rattle.definitions.specs.Sweep as swept;
ghost use Rattle.laws.specs.Marked.{Marked};
ghost use Rattle.graph_fields.specs.Layout.{WholeGraph};
ghost use Rattle.graph_sweep.specs.Emptied.{emptied};

use definitions::{KIND_EMPTY, KIND_VARIABLE, Reply, SLOT_LIMIT};
use graph_check::check;
use graph_counts::store_counts;
use graph_fields::{kind_of, slot_count};
use graph_reach::reaching_outputs;
use graph_slots::clear_slot;

// Whether slot v goes: it is a vertex, no Variable, and not marked as one that an output needs.
fn goes(graph: &[u8], needed: &[bool; SLOT_LIMIT], v: usize) -> bool
    requires whole_graph { WholeGraph graph.now }
    requires v_bound { v < slot_count graph.now }
    requires needed_len { length needed.now ≡ slot_limit }
    ensures { result ≡ swept.is_unneeded (graph_of graph.now) needed.now v }
{
    if needed[v] {
        return false;
    }
    let kind = kind_of(graph, v);
    if kind == KIND_EMPTY {
        return false;
    }
    kind != KIND_VARIABLE
}

// Marks the slots that go.
fn find_unneeded(graph: &[u8]) -> [bool; SLOT_LIMIT]
    requires { SoundGraph graph.now }
    ensures { Marked (swept.is_unneeded (graph_of graph.now) (swept.reaching_outputs (graph_of graph.now)))
        (slot_count graph.now) result }
{
    let needed = reaching_outputs(graph);
    let slots = slot_count(graph);
    let mut unneeded = [false; SLOT_LIMIT];
    for v in 0..slots {
        unneeded[v] = goes(graph, &needed, v);
    }
    unneeded
}

// Empties the marked slots. Every other byte stays as it is, the counts of what stays too.
fn empty_slots(graph: &mut [u8], unneeded: &[bool; SLOT_LIMIT])
    requires sound_graph { SoundGraph graph.old }
    requires marked { Marked (swept.is_unneeded (graph_of graph.old) (swept.reaching_outputs (graph_of graph.old))) (slot_count graph.old) unneeded.now }
    ensures { graph.new ≡ emptied (graph_of graph.old) }
{
    let slots = slot_count(graph);
    for v in 0..slots {
        if unneeded[v] {
            clear_slot(graph, v);
        }
    }
}

// Sweeps the lent graph, or says what is wrong with it and leaves it as it is.
pub fn sweep(graph: &mut [u8]) -> Reply
    ensures value { result ≡ graph_reply graph.old }
    ensures graph_after { graph.new ≡ swept.sweep_graph graph.old }
{
    check(graph)?;
    let unneeded = find_unneeded(graph);
    empty_slots(graph, &unneeded);
    store_counts(graph);
    Ok(0)
}
