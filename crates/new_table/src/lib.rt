// The new table, written whole into a block of its own: the header and every slot, each from the old table, which is only read. So
// nothing is read from a slot that was written before, and every place is redirected once. Counts are left 0: they are known when all places
// are.
#![tactic(auto)]

ghost use Rattle.std.specs.Prelude.{◌≡◌, not, ◌++◌, ◌+◌, ◌*◌, ◌<◌, length, take};
ghost use Rattle.definitions.specs.Lists.{filter, range};
ghost use Rattle.definitions.specs.Graph.{header_bytes, slot_bytes, graph_version, slot_count, graph_of, record_block, records_block, block_as};
ghost use Rattle.definitions.specs.Rule.{rule_output_count};
ghost use Rattle.definitions.specs.Rewriting.{stays};
ghost use Rattle.rule_fields.specs.Fixed.{fixed_of};
ghost use Rattle.laws.specs.Marked.{Marked};
ghost use Rattle.new_vertices.specs.Slots.{Prepared};
ghost use Rattle.new_records.specs.Slots.{Redirects};
ghost use Rattle.new_table.specs.Table.{new_table};

use definitions::{HEADER_BYTES, SIDE_CAPACITY, SLOT_LIMIT, TAIL_BYTES};
use graph_fields::{output_count, slot_count};
use new_header::write_header;
use new_places::new_outputs;
use new_records::new_record;
use redirection::{Redirection, redirection_of};

// Writes slot k, behind the slots that are written already. Its record is made from the old table: in the new one a slot that went
// may hold a target vertex by now.
fn write_slot(
    graph: &[u8],
    rule: &[u8],
    images: &[u16; SIDE_CAPACITY],
    places: &[u16; SIDE_CAPACITY],
    way: Redirection,
    k: usize,
    free: bool,
    next: usize,
    table: &mut [u8],
)
    requires prepared { Prepared graph.now rule.now images.now places.now }
    requires redirects { Redirects graph.now rule.now images.now way }
    requires k_bound { k < slot_count graph.now }
    requires free_value { free ≡ not (stays (graph_of graph.now) (fixed_of rule.now) images.now k) }
    requires next_value { next ≡ length (filter (λ i. not (stays (graph_of graph.now) (fixed_of rule.now) images.now i)) (range 0 k)) }
    requires table_len { length table.old ≡ length graph.now }
    ensures { take (header_bytes + slot_bytes * (k + 1)) table.new ≡ take (header_bytes + slot_bytes * k) table.old
        ++ record_block (λ i. 0) (new_table graph.now rule.now images.now) k }
{
    let record = new_record(graph, rule, images, places, way, k, free, next);
    let tail = [0u8; TAIL_BYTES];
    graph_slots::write_slot(table, k, record, &tail);
}

// Writes every slot; the header is left as it is.
fn write_slots(
    graph: &[u8],
    rule: &[u8],
    images: &[u16; SIDE_CAPACITY],
    places: &[u16; SIDE_CAPACITY],
    way: Redirection,
    free: &[bool; SLOT_LIMIT],
    table: &mut [u8],
)
    requires prepared { Prepared graph.now rule.now images.now places.now }
    requires redirects { Redirects graph.now rule.now images.now way }
    requires marked { Marked (λ k. not (stays (graph_of graph.now) (fixed_of rule.now) images.now k)) (slot_count graph.now) free.now }
    requires table_len { length table.old ≡ length graph.now }
    ensures { table.new ≡ take header_bytes table.old
        ++ records_block (λ i. 0) (new_table graph.now rule.now images.now)
        (length (new_table graph.now rule.now images.now).slots) }
{
    let slots = slot_count(graph);
    let mut next = 0;
    for k in 0..slots {
        let marked = free[k];
        write_slot(graph, rule, images, places, way, k, marked, next, table);
        next += usize::from(marked);
    }
}

// Writes the new table: `places` are the target vertices' slots, and `free` marks the slots that are Empty after the removal.
pub fn write_table(
    graph: &[u8],
    rule: &[u8],
    images: &[u16; SIDE_CAPACITY],
    places: &[u16; SIDE_CAPACITY],
    free: &[bool; SLOT_LIMIT],
    table: &mut [u8],
)
    requires prepared { Prepared graph.now rule.now images.now places.now }
    requires rule_nonzero { 0 < rule_output_count rule.now }
    requires marked { Marked (λ k. not (stays (graph_of graph.now) (fixed_of rule.now) images.now k)) (slot_count graph.now) free.now }
    requires table_len { length table.old ≡ length graph.now }
    ensures { table.new ≡ block_as graph_version (λ i. 0) (new_table graph.now rule.now images.now) }
{
    let way = redirection_of(rule, images, places);
    let slots = slot_count(graph);
    let count = output_count(graph);
    let outputs = new_outputs(graph, way);
    write_header(
        &mut table[0..HEADER_BYTES],
        slots as u16,
        count as u16,
        &outputs,
    );
    write_slots(graph, rule, images, places, way, free, table);
}
