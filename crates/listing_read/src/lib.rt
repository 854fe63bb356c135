// Reading a listing into a lent graph. The whole text is read into a table beside it, and the table's graph judged there; the lent graph is written
// last, once the answer is sure.
#![tactic(auto)]

ghost use Rattle.definitions.specs.Listing.{ReadListing};
ghost use Rattle.listing_read.specs.Taken.{SheetBlock, Taken};

use definitions::{GRAPH_VERSION, HEADER_BYTES, Reply, SLOT_BYTES};
use graph_check::judge;
use graph_counts::store_counts;
use graph_slots::blank_table;
use listing_sheet::read_sheet;
use reply::{Reason, refuse, refuse_at};
use writing::copy;

// Judges the graph of a block that has no counts yet; where it is sound, and the lent graph as long, stores the true counts and writes the block over
// the lent graph.
fn take_block(block: &mut [u8], graph: &mut [u8]) -> Reply
    requires { SheetBlock block.old }
    ensures { Taken block.old graph.old result graph.new }
{
    match judge(block, GRAPH_VERSION) {
        Err(_) => return refuse(Reason::UnsoundListing),
        Ok(_) => {}
    }
    if graph.len() != block.len() {
        return refuse(Reason::BadGraphLength);
    }
    store_counts(block);
    copy(graph, block);
    Ok(0)
}

// Reads a listing into the lent graph, or says what is wrong and leaves the graph as it is.
pub fn read_listing(text: &[u8], graph: &mut [u8]) -> Reply
    ensures { ReadListing text.now graph.old result graph.new }
{
    let mut table = blank_table();
    let size = match read_sheet(text, &mut table) {
        Ok(size) => size,
        Err(stopped) => return refuse_at(Reason::BadListing, stopped.at as u32),
    };
    let end = HEADER_BYTES + SLOT_BYTES * size;
    take_block(&mut table[0..end], graph)
}
