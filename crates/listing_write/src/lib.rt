// The listing of a graph, written into a lent text. Where the text has room for any listing, it is printed into it at once. Else it is
// printed twice by the same code: into an empty part, which tells the length and writes nothing, and then, where it fits, into the text.
#![tactic(auto)]

ghost use Rattle.std.specs.Prelude.{◌≡◌, ◌+◌, ◌<◌, ◌≤◌, length};
ghost use Rattle.definitions.specs.Graph.{slot_count, graph_of};
ghost use Rattle.definitions.specs.Listing.{listing, write_reply, write_text};
ghost use Rattle.graph_fields.specs.Layout.{ReadableGraph};
ghost use Rattle.listing_print.specs.Laid.{text_limit, Laid};
ghost use Rattle.listing_write.specs.Parts.{head_text, slot_text, slots_text, outputs_text};

use definitions::Reply;
use graph_check::check;
use graph_fields::{is_vertex, slot_count};
use listing_print::{outputs_of, put_bytes, put_line, put_natural, put_spaced};
use reply::{Reason, refuse};

// No listing has more bytes.
const LISTING_ROOM: usize = 65535;

// Prints the line of slot k, or nothing where it is Empty.
fn put_slot(text: &mut [u8], at: usize, graph: &[u8], k: usize) -> usize
    requires readable_graph { ReadableGraph graph.now }
    requires k_bound { k < slot_count graph.now }
    requires k_bound_2 { at + length (slot_text (graph_of graph.now) k) ≤ text_limit }
    ensures { Laid at (slot_text (graph_of graph.now) k) text.old text.new result }
{
    if is_vertex(graph, k) {
        put_line(text, at, graph, k)
    } else {
        at
    }
}

// Prints the lines of all slots.
fn put_slots(text: &mut [u8], at: usize, graph: &[u8]) -> usize
    requires readable_graph { ReadableGraph graph.now }
    requires graph_bound { at + length (slots_text (graph_of graph.now) (slot_count graph.now)) ≤ text_limit }
    ensures { Laid at (slots_text (graph_of graph.now) (slot_count graph.now)) text.old text.new result }
{
    let slots = slot_count(graph);
    let mut end = at;
    for k in 0..slots {
        end = put_slot(text, end, graph, k);
    }
    end
}

// Prints the first line, with the number of slots.
fn put_head(text: &mut [u8], slots: usize) -> usize
    requires slots_bound { slots < 65536 }
    requires slots_len_bound { length (head_text slots) ≤ text_limit }
    ensures { Laid 0 (head_text slots) text.old text.new result }
{
    let number = put_bytes(text, 0, b"graph ");
    let number_end = put_natural(text, number, slots as u64);
    put_bytes(text, number_end, b"\n")
}

// Prints the last line, with the outputs.
fn put_outputs(text: &mut [u8], at: usize, graph: &[u8]) -> usize
    requires readable_graph { ReadableGraph graph.now }
    requires graph_nonzero { 0 < slot_count graph.now }
    requires graph_bound { at + length (outputs_text (graph_of graph.now)) ≤ text_limit }
    ensures { Laid at (outputs_text (graph_of graph.now)) text.old text.new result }
{
    let outputs = outputs_of(graph);
    let numbers = put_bytes(text, at, b"out");
    let numbers_end = put_spaced(text, numbers, graph, outputs, 0);
    put_bytes(text, numbers_end, b"\n")
}

// Prints the listing.
fn put_listing(text: &mut [u8], graph: &[u8]) -> usize
    requires readable_graph { ReadableGraph graph.now }
    requires graph_nonzero { 0 < slot_count graph.now }
    requires graph_len_bound { length (listing (graph_of graph.now)) ≤ text_limit }
    ensures { Laid 0 (listing (graph_of graph.now)) text.old text.new result }
{
    let lines = put_head(text, slot_count(graph));
    let outputs = put_slots(text, lines, graph);
    put_outputs(text, outputs, graph)
}

// Writes the listing of a sound graph into the lent text, or says what is wrong and leaves the text as it is.
pub fn write_listing(graph: &[u8], text: &mut [u8]) -> Reply
    ensures value { result ≡ write_reply graph.now text.old }
    ensures text_after { text.new ≡ write_text graph.now text.old }
{
    check(graph)?;
    if LISTING_ROOM <= text.len() {
        let end = put_listing(text, graph);
        return Ok(end as u32);
    }
    let size = put_listing(&mut text[0..0], graph);
    if text.len() < size {
        return refuse(Reason::ShortText);
    }
    put_listing(&mut text[0..size], graph);
    let length = size as u32;
    Ok(length)
}
