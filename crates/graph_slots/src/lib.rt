// One slot of a graph block, written in place: its 48 bytes are lent on, and every other byte stays. And room for a block of any size.
#![tactic(auto)]

ghost use Rattle.std.specs.Prelude.{◌≡◌, ◌+◌, ◌≤◌, length};
ghost use Rattle.definitions.specs.Graph.{tail_bytes, slot_limit, input_limit, attribute_limit, record_at};
ghost use Rattle.graph_records.specs.Records.{record_bytes};
ghost use Rattle.graph_slots.specs.Written.{empty_bytes, SlotWritten};

use definitions::{BLOCK_LIMIT, HEADER_BYTES, SLOT_BYTES, TAIL_BYTES};
use graph_records::{Record, empty_record, write_record};

// Writes slot k's record, with the tail that the caller gives it.
pub fn write_slot(graph: &mut [u8], k: usize, record: Record, tail: &[u8])
    requires k_in_bounds { record_at (k + 1) ≤ length graph.old }
    requires record_len { length «record».inputs ≡ input_limit }
    requires record_len_2 { length «record».attributes ≡ attribute_limit }
    requires tail_len { length tail.now ≡ tail_bytes }
    ensures { SlotWritten k (record_bytes tail.now «record») graph.old graph.new }
{
    let at = HEADER_BYTES + SLOT_BYTES * k;
    let end = at + SLOT_BYTES;
    write_record(&mut graph[at..end], record, tail);
}

// Empties slot k.
pub fn clear_slot(graph: &mut [u8], k: usize)
    requires { record_at (k + 1) ≤ length graph.old }
    ensures { SlotWritten k empty_bytes graph.old graph.new }
{
    let tail = [0u8; TAIL_BYTES];
    write_slot(graph, k, empty_record(), &tail);
}

// Room for a table: zeros, as many as the longest block has bytes.
pub fn blank_table() -> [u8; BLOCK_LIMIT]
    ensures { length result ≡ record_at slot_limit }
{
    [0u8; BLOCK_LIMIT]
}
