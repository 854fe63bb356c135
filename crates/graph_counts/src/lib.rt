// The counts of a graph block, all stored anew: they are counted once, over the whole table, and then each record gets its own. Whatever has
// changed in the table before, every count is true after.
#![tactic(auto)]

ghost use Rattle.std.specs.Prelude.{◌≡◌, ◌+◌, ◌≤◌, length};
ghost use Rattle.definitions.specs.Graph.{record_at};
ghost use Rattle.graph_records.specs.Records.{slot_at};
ghost use Rattle.graph_slots.specs.Written.{SlotWritten};
ghost use Rattle.graph_uses.specs.Countable.{CountableGraph};
ghost use Rattle.graph_counts.specs.Recounted.{with_count, recounted};

use definitions::{COUNT_OFFSET, HEADER_BYTES, SLOT_BYTES};
use graph_fields::slot_count;
use graph_uses::count_uses;
use writing::put_u16_at;

// Stores a count in slot k's record. Every other byte stays.
fn store_count(graph: &mut [u8], k: usize, count: u16)
    requires { record_at (k + 1) ≤ length graph.old }
    ensures { SlotWritten k (with_count count (slot_at graph.old (record_at k))) graph.old graph.new }
{
    let at = HEADER_BYTES + SLOT_BYTES * k + COUNT_OFFSET;
    put_u16_at(graph, at, count);
}

// Stores every slot's true count.
pub fn store_counts(graph: &mut [u8])
    requires { CountableGraph graph.old }
    ensures { graph.new ≡ recounted graph.old }
{
    let slots = slot_count(graph);
    let uses = count_uses(graph);
    for k in 0..slots {
        store_count(graph, k, uses[k]);
    }
}
