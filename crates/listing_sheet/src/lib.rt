// A whole listing, read in one pass from its first byte on into a table: the line of the graph, the lines of the slots, the line of the outputs,
// and nothing behind it. The header is written when the outputs are known.
#![tactic(auto)]

ghost use Rattle.std.specs.Prelude.{◌≡◌, true, ◌≤◌, length, take, IfOk};
ghost use Rattle.definitions.specs.Lists.{within, padded};
ghost use Rattle.definitions.specs.Graph.{slot_limit, output_limit, unused_place};
ghost use Rattle.definitions.specs.Sheet.{size_field};
ghost use Rattle.listing.specs.Parts.{PartRead};
ghost use Rattle.listing_numbers.specs.State.{field_of};
ghost use Rattle.listing_lists.specs.Lists.{list_limit};
ghost use Rattle.listing_lines.specs.Lines.{PlaceWords};
ghost use Rattle.listing_parse.specs.Parts.{part_of, place_of};
ghost use Rattle.listing_slots.specs.Rows.{table_bytes};
ghost use Rattle.listing_sheet.specs.Read.{graph_line, OutputsRead, SheetRead};

use definitions::{HEADER_BYTES, OUTPUT_LIMIT, SLOT_LIMIT};
use listing_lines::{place_field, places_of};
use listing_lists::{LIST_LIMIT, Numbers, read_spaced};
use listing_numbers::{Field, Stopped};
use listing_parse::{Part, read_letters, read_natural};
use listing_slots::read_lines;
use new_header::write_header;

// N is from 1 to 512.
fn size_field() -> Field
    ensures { field_of result ≡ size_field }
{
    Field {
        low: 1,
        high: SLOT_LIMIT as u64,
        below: 0,
    }
}

// Reads the line of the graph; the value is N.
fn read_size(text: &[u8]) -> Result<Part, Stopped>
    ensures part_read { PartRead graph_line text.now 0 (part_of result) }
    ensures next_in_bounds { place_of result ≤ length text.now }
    ensures slot_limit_value { IfOk result (λ part. within 1 part.value slot_limit ≡ true) }
{
    let opening = read_letters(text, 0, b"graph ")?;
    let size = read_natural(text, opening.next, size_field())?;
    let end = read_letters(text, size.next, b"\n")?;
    Ok(Part {
        next: end.next,
        value: size.value,
    })
}

// Reads the line of the outputs behind its `o`; nothing may follow it.
fn read_outputs(text: &[u8], at: usize) -> Result<Numbers, Stopped>
    requires { at ≤ length text.now }
    ensures { OutputsRead text.now at result }
{
    let word = read_letters(text, at, b"ut")?;
    let outputs = read_spaced(text, word.next, 1, OUTPUT_LIMIT, place_field(), b'\n')?;
    let next = outputs.next;
    if next < text.len() {
        return Err(Stopped { at: next });
    }
    Ok(outputs)
}

// The output places of a header; 65535 stands in the unused ones.
fn output_places(words: [u32; LIST_LIMIT], count: usize) -> [u16; OUTPUT_LIMIT]
    requires words_len { length «words» ≡ list_limit }
    requires count_le_output_limit { count ≤ output_limit }
    requires place_words { PlaceWords «words» }
    ensures { result ≡ padded output_limit unused_place (take count «words») }
{
    let places = places_of(words, count);
    [places[0], places[1], places[2], places[3]]
}

// Reads a listing into a table: it has the block of its graph then, with counts 0. The result is how many slots that graph has.
pub fn read_sheet(text: &[u8], table: &mut [u8]) -> Result<usize, Stopped>
    requires { length table.old ≡ table_bytes }
    ensures { SheetRead text.now table.new result }
{
    let graph = read_size(text)?;
    let size = graph.value;
    let lines = read_lines(text, graph.next, size, table)?;
    let outputs = read_outputs(text, lines.next)?;
    let places = output_places(outputs.words, outputs.count);
    write_header(
        &mut table[0..HEADER_BYTES],
        size as u16,
        outputs.count as u16,
        &places,
    );
    Ok(size)
}
