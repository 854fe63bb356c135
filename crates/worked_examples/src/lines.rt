// The lines that the program prints.
ghost use Rattle.std.specs.Prelude.{◌<◌};

use definitions::{HEADER_BYTES, INPUT_LIMIT, OUTPUT_LIMIT, SLOT_BYTES};
use std::io;

// Where a header has its outputs, and a slot its inputs and its attributes.
const OUTPUTS_AT: usize = 10;

const INPUTS_AT: usize = 4;

const ATTRIBUTES_AT: usize = INPUTS_AT + 2 * INPUT_LIMIT;

// The number in these bytes, the lowest one first. Of more than eight, the first eight count.
pub fn number(bytes: &[u8]) -> u64 {
    let mut value = 0;
    for &byte in bytes.iter().rev() {
        value = value % 72057594037927936 * 256 + u64::from(byte);
    }
    value
}

// Prints the numbers of so many bytes each that stand in a block, with a space before each.
pub fn print_numbers(rt: &impl Print, block: &[u8], width: usize) -> io::Result<()>
    requires { 0 < width }
{
    for bytes in block.chunks_exact(width) {
        rt.write_all(b" ")?;
        rt.print(number(bytes))?;
    }
    Ok(())
}

// Prints a reply: its number, and its place where that is not 0. No reply has a value yet.
pub fn print_reply(rt: &impl Print, reply: u64) -> io::Result<()> {
    rt.print(reply % 256)?;
    let place = reply / 256;
    if place != 0 {
        rt.write_all(b" at ")?;
        rt.print(place)?;
    }
    Ok(())
}

// A line for a graph's outputs, and one for each slot: its number, kind, operator, first two input places and first attribute. Each
// follows a line's end.
pub fn graph_lines(rt: &impl Print, graph: &[u8]) -> io::Result<()> {
    if graph.len() < HEADER_BYTES {
        return Ok(());
    }
    rt.write_all(b"\noutputs:")?;
    print_numbers(rt, &graph[OUTPUTS_AT..OUTPUTS_AT + 2 * OUTPUT_LIMIT], 2)?;
    for (k, slot) in graph[HEADER_BYTES..].chunks_exact(SLOT_BYTES).enumerate() {
        rt.write_all(b"\nslot ")?;
        rt.print(k as u64)?;
        rt.write_all(b":")?;
        print_numbers(rt, &slot[0..2], 1)?;
        print_numbers(rt, &slot[INPUTS_AT..INPUTS_AT + 4], 2)?;
        print_numbers(rt, &slot[ATTRIBUTES_AT..ATTRIBUTES_AT + 4], 4)?;
    }
    Ok(())
}
