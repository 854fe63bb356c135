// Document 01's run-only examples for the checks and for matching, checks of an old version, of wrong counts and of slots that are
// named twice, P9's values as the code finds them, and what rewriting makes of P1, P3, P4, P7, P8 and P10. The calls are data: they are
// read from stdin, a file that examples/worked_examples.py writes from readable sources and whose lines it describes. What this prints is
// held to the stored stdout, which the second program under reference/ wrote.
#![tactic(auto)]

mod calls;
mod lines;

ghost use Rattle.std.specs.Prelude.{◌≡◌, ◌<◌, ◌≤◌, length, take, IfOk};
ghost use Rattle.std.specs.Io.KnownBytes.{Consumes, IsAtEnd};

use definitions::{
    HEADER_BYTES, NODE_BYTES, NODE_LIMIT, PATTERN_BYTES, RULE_HEADER_BYTES, SIDE_LIMIT, SLOT_BYTES,
    SLOT_LIMIT,
};
use std::io;
use std::io::Read;

// More text than the calls have.
const TEXT_ROOM: usize = 262144;

// A block of one slot or one node too many has room.
const GRAPH_ROOM: usize = HEADER_BYTES + SLOT_BYTES * (SLOT_LIMIT + 1);

const RULE_ROOM: usize = RULE_HEADER_BYTES
    + 2 * PATTERN_BYTES * SIDE_LIMIT
    + NODE_BYTES * (NODE_LIMIT + 1);

const START_BYTES: usize = 8;

// So many zeros. The prover need not look into them, since their number is known from here.
fn text_room() -> [u8; TEXT_ROOM]
    ensures { 262144 ≡ length result }
{
    [0; TEXT_ROOM]
}

// Fills the block from its start with what the reader has left, and stops where the reader ends. Gives how many bytes came.
fn read_full<R: Read>(reader: &mut R, block: &mut [u8]) -> io::Result<usize>
    ensures within { IfOk result (λ n. n ≤ length block.new) }
    ensures bytes { IfOk result (λ n. Consumes (R.remaining reader.old) (R.remaining reader.new) (take n block.new)) }
    ensures end { IfOk result (λ n. n < length block.new → IsAtEnd (R.remaining reader.new)) }
{
    let mut filled = 0;
    // The library's read_exact says nothing of what came from a reader that ends before the block is full.
    while filled < block.len() {
        let count = reader.read(&mut block[filled..])?;
        if count == 0 {
            break;
        }
        filled += count;
    }
    Ok(filled)
}

fn main(rt: HostRuntime) -> io::Result<()> {
    let mut text = text_room();
    let length = read_full(&mut rt.stdin(), &mut text)?;
    if length == TEXT_ROOM {
        return rt.write_all(b"there is no room for so many calls\n");
    }
    let mut graph = [0u8; GRAPH_ROOM];
    let mut rule = [0u8; RULE_ROOM];
    let mut start = [0u8; START_BYTES];
    calls::make_calls(&rt, &text[..length], &mut graph, &mut rule, &mut start)
}
