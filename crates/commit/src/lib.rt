// The commit of a rewriting: the new table, which was made and judged beside the old one, is written over it, the header first
// and then record by record. It is called once the answer is sure.
#![tactic(auto)]

ghost use Rattle.std.specs.Prelude.{◌≡◌, true, ◌+◌, ◌<◌, ◌≤◌, length};
ghost use Rattle.definitions.specs.Graph.{slot_bytes, slot_count, record_at};
ghost use Rattle.graph_fields.specs.Layout.{WholeGraph};
ghost use Rattle.graph_records.specs.Records.{slot_at};
ghost use Rattle.commit.specs.Tables.{Committed};

use definitions::{HEADER_BYTES, SLOT_BYTES, TAIL_OFFSET};
use graph_fields::slot_count;
use graph_records::read_record;
use graph_slots::write_slot;

// Says true only where both blocks have the same 48 bytes from `at` on.
fn same_record(graph: &[u8], table: &[u8], at: usize) -> bool
    requires slot_bytes_in_bounds { at + slot_bytes ≤ length graph.now }
    requires slot_bytes_in_bounds_2 { at + slot_bytes ≤ length table.now }
    ensures { result ≡ true → slot_at graph.now at ≡ slot_at table.now at }
{
    let end = at + SLOT_BYTES;
    graph[at..end] == table[at..end]
}

// Writes slot k, where all before it is written. A record that does not change is not written again; that is for speed alone.
fn commit_slot(graph: &mut [u8], table: &[u8], k: usize)
    requires whole_graph { WholeGraph table.now }
    requires k_bound { k < slot_count table.now }
    requires committed { Committed (record_at k) graph.old table.now }
    ensures { Committed (record_at (k + 1)) graph.new table.now }
{
    let at = HEADER_BYTES + SLOT_BYTES * k;
    if !same_record(graph, table, at) {
        let record = read_record(table, at);
        let end = at + SLOT_BYTES;
        let tail = at + TAIL_OFFSET;
        write_slot(graph, k, record, &table[tail..end]);
    }
}

// Writes the new table over the old one, which is as long.
pub fn commit(graph: &mut [u8], table: &[u8])
    requires graph_len { length graph.old ≡ length table.now }
    requires whole_graph { WholeGraph table.now }
    ensures { graph.new ≡ table.now }
{
    graph[0..HEADER_BYTES].copy_from_slice(&table[0..HEADER_BYTES]);
    let slots = slot_count(table);
    for k in 0..slots {
        commit_slot(graph, table, k);
    }
}
