// The lines of a listing's slots, read in one pass into the records of a table, with Empty ones between them. Counts are left 0: they are made
// when the graph is known to be sound.
#![tactic(auto)]

ghost use Rattle.std.specs.Prelude.{◌≡◌, true, not, ◌&&◌, ◌+◌, ◌-◌, ◌<◌, ◌≤◌, ltb, length};
ghost use Rattle.definitions.specs.Graph.{slot_limit, record_at};
ghost use Rattle.definitions.specs.Sheet.{slot_field};
ghost use Rattle.listing_numbers.specs.State.{field_of};
ghost use Rattle.listing_parse.specs.Parts.{has_byte};
ghost use Rattle.listing_slots.specs.Rows.{table_bytes, Cleared};
ghost use Rattle.listing_slots.specs.Read.{SlotRead, LinesRead};

use definitions::TAIL_BYTES;
use graph_slots::{clear_slot, write_slot};
use listing_lines::read_line;
use listing_numbers::{Field, Stopped};
use listing_parse::{Part, has_byte, read_letters, read_natural};

// Empties the slots from `from` up to `to`.
fn clear_slots(table: &mut [u8], from: usize, to: usize)
    requires from_le_to { from ≤ to }
    requires to_in_bounds { record_at to ≤ length table.old }
    ensures { Cleared from to table.old table.new }
{
    for k in from..to {
        clear_slot(table, k);
    }
}

// A slot's number: from the one behind the last line's slot on, and below N.
fn slot_field(from: usize, size: usize) -> Field
    requires { from < size }
    ensures { field_of result ≡ slot_field from size }
{
    let last = size - 1;
    Field {
        low: from as u64,
        high: last as u64,
        below: 0,
    }
}

// Reads one slot's line into the table, and empties the slots that it leaves out. The value is the slot's number.
fn read_slot(
    text: &[u8],
    at: usize,
    from: usize,
    size: usize,
    table: &mut [u8],
) -> Result<Part, Stopped>
    requires at_in_bounds { at ≤ length text.now }
    requires from_lt_size { (from < size) × (size ≤ slot_limit) }
    requires table_len { length table.old ≡ table_bytes }
    ensures { SlotRead from size text.now at table.old table.new result }
{
    let number = read_natural(text, at, slot_field(from, size))?;
    let slot = number.value;
    let line = read_line(text, number.next)?;
    clear_slots(table, from, slot);
    let tail = [0u8; TAIL_BYTES];
    write_slot(table, slot, line.record, &tail);
    Ok(Part {
        next: line.next,
        value: slot,
    })
}

// Whether a slot's line may follow, and the line of the outputs does not.
fn more_lines(text: &[u8], at: usize, from: usize, size: usize) -> bool
    ensures { result ≡ (ltb from size && not (has_byte text.now at 111)) }
{
    from < size && !has_byte(text, at, b'o')
}

// Reads the lines of the slots, and the `o` behind them. The table has every slot's record then.
pub fn read_lines(text: &[u8], at: usize, size: usize, table: &mut [u8]) -> Result<Part, Stopped>
    requires at_in_bounds { at ≤ length text.now }
    requires size_le_slot_limit { size ≤ slot_limit }
    requires table_len { length table.old ≡ table_bytes }
    ensures { LinesRead size text.now at table.new result }
{
    let mut from = 0;
    let mut place = at;
    // The place goes on by whole lines, and the slot to the one behind the line's.
    while more_lines(text, place, from, size) {
        let line = read_slot(text, place, from, size, table)?;
        from = line.value + 1;
        place = line.next;
    }
    clear_slots(table, from, size);
    read_letters(text, place, b"o")
}
