// The squeeze: in the lent graph the vertices move to the lowest slots, in their order, and all that names them follows; the lent list
// tells where each slot went. No vertex moves up, so a record is read before its slot is written. Counts are stored last, for the whole table.
#![tactic(auto)]

ghost use Rattle.std.specs.Prelude.{◌≡◌, ◌+◌, ◌≤◌, length, replicate};
ghost use Rattle.definitions.specs.Graph.{header_bytes, slot_limit, tail_bytes, graph_version, slot_count, record_at, Slot, renamed, graph_of, slot_block, block_as, SoundGraph};
ghost use Rattle.definitions.specs.Squeeze as squeezed;
ghost use Rattle.graph_slots.specs.Written.{SlotWritten};
ghost use Rattle.graph_moves.specs.Moving.{name_in, Moving};
ghost use Rattle.graph_squeeze.specs.Held.{Held, HeldSlot};

use definitions::{HEADER_BYTES, Reply, SLOT_BYTES, SLOT_LIMIT, TAIL_BYTES};
use graph_check::check;
use graph_counts::store_counts;
use graph_fields::{output_count, slot_count};
use graph_moves::{moves_of, renamed_outputs, renamed_record};
use graph_records::read_record;
use graph_slots::{clear_slot, write_slot};
use new_header::write_header;
use reply::{Reason, first_refusal, refuse};
use writing::put_numbers;

// Writes the vertex of slot v, with the new names of what it reads, into slot k.
fn move_slot(graph: &mut [u8], v: usize, k: usize, to: &[u16; SLOT_LIMIT])
    requires held_slot { HeldSlot graph.old v }
    requires k_le_v { k ≤ v }
    requires v_in_bounds { record_at (v + 1) ≤ length graph.old }
    requires to_len { length to.now ≡ slot_limit }
    ensures { (s : Slot) → Held graph.old v s
        → SlotWritten k (slot_block (replicate tail_bytes 0) (renamed (name_in to.now) s)) graph.old graph.new }
{
    let record = read_record(graph, HEADER_BYTES + SLOT_BYTES * v);
    let tail = [0u8; TAIL_BYTES];
    write_slot(graph, k, renamed_record(record, to), &tail);
}

// Writes the squeezed table: slot by slot from 0 the vertex that comes there, or Empty behind the last, and then the header. Counts are left 0.
fn move_vertices(graph: &mut [u8], count: usize, from: &[u16; SLOT_LIMIT], to: &[u16; SLOT_LIMIT])
    requires sound_graph { SoundGraph graph.old }
    requires moving { Moving (graph_of graph.old) (slot_count graph.old) count from.now to.now }
    ensures { graph.new ≡ block_as graph_version (λ i. 0) (squeezed.squeeze (graph_of graph.old)) }
{
    let slots = slot_count(graph);
    let outputs = output_count(graph);
    let names = renamed_outputs(graph, to);
    for k in 0..slots {
        if k < count {
            move_slot(graph, usize::from(from[k]), k, to);
        } else {
            clear_slot(graph, k);
        }
    }
    write_header(
        &mut graph[0..HEADER_BYTES],
        slots as u16,
        outputs as u16,
        &names,
    );
}

// Reply 40 is about the list's length alone: its bytes are not read.
fn check_moves(graph: &[u8], moves: &[u8]) -> Reply
    ensures { header_bytes ≤ length graph.now → result ≡ squeezed.moves_reply graph.now moves.now }
{
    if graph.len() < HEADER_BYTES {
        return Ok(0);
    }
    if moves.len() != 2 * slot_count(graph) {
        return refuse(Reason::BadMovesLength);
    }
    Ok(0)
}

// The graph's faults come first. What is said of the list next to a block that is shorter than a header does not matter.
fn check_both(graph: &[u8], moves: &[u8]) -> Reply
    ensures { result ≡ squeezed.squeeze_reply graph.now moves.now }
{
    let found = check(graph);
    let listed = check_moves(graph, moves);
    first_refusal(found, listed)
}

// Squeezes the lent graph and writes the list of moves, or says what is wrong and leaves both as they are.
pub fn squeeze(graph: &mut [u8], moves: &mut [u8]) -> Reply
    ensures value { result ≡ squeezed.squeeze_reply graph.old moves.old }
    ensures graph_after { graph.new ≡ squeezed.squeeze_graph graph.old moves.old }
    ensures moves_after { moves.new ≡ squeezed.squeeze_moves graph.old moves.old }
{
    check_both(graph, moves)?;
    let slots = slot_count(graph);
    let plan = moves_of(graph);
    let from = plan.from;
    let to = plan.to;
    move_vertices(graph, plan.count, &from, &to);
    store_counts(graph);
    put_numbers(moves, &to[0..slots]);
    Ok(0)
}
