// Checking a graph block: the five kinds of fault, in the papers' order, each with the lowest place that has it. The first four are those of
// either version of the block.
#![tactic(auto)]

ghost use Rattle.std.specs.Prelude.{◌≡◌};
ghost use Rattle.definitions.specs.Graph.{reply_as, graph_reply};
ghost use Rattle.graph_check.specs.Stages.{early_reply};

use definitions::{GRAPH_VERSION, Reply};
use graph_cycles::lowest_on_cycle;
use graph_faults::bad_record;
use graph_fields::{output_count, slot_count};
use graph_header::header_fits;
use graph_names::{bad_inputs, bad_output};
use graph_uses::bad_count;
use reply::{Reason, refuse, refuse_at};

// What comes before a cycle: header, records and names.
fn check_names(graph: &[u8], version: usize) -> Reply
    ensures { result ≡ early_reply version graph.now }
{
    if !header_fits(graph, version) {
        return refuse(Reason::BadGraphHeader);
    }
    let slots = slot_count(graph);
    let unfit = bad_record(graph, version);
    if unfit < slots {
        return refuse_at(Reason::BadGraphRecord, unfit as u32);
    }
    let reader = bad_inputs(graph);
    let outputs = output_count(graph);
    let output = bad_output(graph);
    // A bad output is told only where no input is bad.
    if reader < slots {
        return refuse_at(Reason::BadGraphName, reader as u32);
    }
    if output < outputs {
        return refuse_at(Reason::BadGraphName, output as u32);
    }
    Ok(0)
}

// The reply for any bytes as a graph block of a version, counts aside.
pub fn judge(graph: &[u8], version: usize) -> Reply
    ensures { result ≡ reply_as version graph.now }
{
    check_names(graph, version)?;
    let slots = slot_count(graph);
    let cyclic = lowest_on_cycle(graph);
    if cyclic < slots {
        return refuse_at(Reason::GraphHasCycle, cyclic as u32);
    }
    Ok(0)
}

// The reply for any bytes as a graph block.
pub fn check(graph: &[u8]) -> Reply
    ensures { result ≡ graph_reply graph.now }
{
    check_names(graph, GRAPH_VERSION)?;
    let slots = slot_count(graph);
    let looped = lowest_on_cycle(graph);
    let wrong = bad_count(graph);
    // A wrong count is told only where there is no cycle. Both are looked for before either is told, so that their order is these two tests.
    if looped < slots {
        return refuse_at(Reason::GraphHasCycle, looped as u32);
    }
    if wrong < slots {
        return refuse_at(Reason::BadGraphCount, wrong as u32);
    }
    Ok(0)
}
