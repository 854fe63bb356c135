// The calls, read line by line and made.
ghost use Rattle.std.specs.Prelude.{◌≡◌, eqb, ◌<◌, IfSome};

use crate::lines::{graph_lines, number, print_numbers, print_reply};
use definitions::MAP_BYTES;
use leafgraph::{lg_check_graph, lg_check_rule, lg_find_match, lg_rewrite};
use std::io;

// What has been read of a call: the lengths of its graph, its rule and its start, or none where the bytes can't be read.
#[derive(Clone, Copy)]
pub struct Call {
    pub graph: Option<usize>,
    pub rule: Option<usize>,
    pub start: Option<usize>,
}

// A call of which nothing has been read.
fn new_call() -> Call {
    Call {
        graph: Some(0),
        rule: Some(0),
        start: Some(0),
    }
}

// The number that a hexadecimal digit stands for.
fn digit(letter: u8) -> Option<u8>
    ensures { IfSome result (λ number. number < 16) }
{
    match letter {
        b'0'..=b'9' => Some(letter - b'0'),
        b'a'..=b'f' => Some(letter - b'a' + 10),
        _ => None,
    }
}

// Writes the bytes that these digits stand for into the block, from its byte `from` on, and gives the block's new length. Spaces between two
// bytes don't count. None where the digits can't be read, or the block has no room.
fn append(text: &[u8], block: &mut [u8], from: usize) -> Option<usize> {
    let mut filled = from;
    let mut rest = text;
    while let Some((&first, others)) = rest.split_first() {
        rest = others;
        if first != b' ' {
            let (&second, behind) = rest.split_first()?;
            let byte = 16 * digit(first)? + digit(second)?;
            *block.get_mut(filled)? = byte;
            filled += 1;
            rest = behind;
        }
    }
    Some(filled)
}

// Asks the library and prints what it answers, without the last line's end. False where no operation has this letter.
fn ask(
    rt: &impl Print,
    letter: u8,
    graph: &mut [u8],
    rule: &[u8],
    start: usize,
    map: &mut [u8],
) -> io::Result<bool> {
    match letter {
        b'G' => print_reply(rt, lg_check_graph(graph))?,
        b'R' => print_reply(rt, lg_check_rule(rule))?,
        b'F' => print_reply(rt, lg_find_match(graph, rule, start, map))?,
        b'M' => {
            print_reply(rt, lg_find_match(graph, rule, start, map))?;
            print_map(rt, map)?;
        }
        b'W' => {
            print_reply(rt, lg_rewrite(graph, rule, start, map))?;
            print_map(rt, map)?;
            graph_lines(rt, graph)?;
        }
        _ => return Ok(false),
    }
    Ok(true)
}

// A line for the map's numbers, which follows a line's end.
fn print_map(rt: &impl Print, map: &[u8]) -> io::Result<()> {
    rt.write_all(b"\nmap:")?;
    print_numbers(rt, map, 2)
}

// Makes the call that has been read. False where a block of it cannot be read, or no operation has this letter. Every byte of the map is
// 170 before, so that a refusal is seen to keep it.
fn make_call(
    rt: &impl Print,
    letter: u8,
    name: &[u8],
    graph: &mut [u8],
    rule: &[u8],
    start: &[u8],
    call: Call,
) -> io::Result<bool> {
    let (Some(graph_length), Some(rule_length), Some(start_length)) = (
        call.graph, call.rule, call.start,
    ) else {
        return Ok(false);
    };
    if graph.len() < graph_length || rule.len() < rule_length || start.len() < start_length {
        return Ok(false);
    }
    let from = number(&start[..start_length]) as usize;
    let mut map = [170u8; MAP_BYTES];
    rt.write_all(name)?;
    rt.write_all(b": ")?;
    let is_answered = ask(
        rt,
        letter,
        &mut graph[..graph_length],
        &rule[..rule_length],
        from,
        &mut map,
    )?;
    rt.write_all(b"\n")?;
    Ok(is_answered)
}

// Reads a line: bytes of a block, or the operation, with which the call is made and nothing is read of the next one. None where the call can't be
// made.
fn read_line(
    rt: &impl Print,
    text: &[u8],
    graph: &mut [u8],
    rule: &mut [u8],
    start: &mut [u8],
    call: Call,
) -> io::Result<Option<Call>> {
    if text.len() < 2 || text[0] == b'#' {
        return Ok(Some(call));
    }
    let rest = &text[2..];
    let mut next = call;
    match text[0] {
        b'g' => next.graph = call.graph.and_then(|from| append(rest, graph, from)),
        b'r' => next.rule = call.rule.and_then(|from| append(rest, rule, from)),
        b's' => next.start = call.start.and_then(|from| append(rest, start, from)),
        letter => {
            if !make_call(rt, letter, rest, graph, rule, start, call)? {
                return Ok(None);
            }
            next = new_call();
        }
    }
    Ok(Some(next))
}

// Whether this byte ends a line.
fn is_line_end(byte: &u8) -> bool
    ensures { result ≡ eqb byte.now 10 }
{
    *byte == b'\n'
}

// Makes the calls of a text, up to the first one that cannot be read.
pub fn make_calls(
    rt: &impl Print,
    text: &[u8],
    graph: &mut [u8],
    rule: &mut [u8],
    start: &mut [u8],
) -> io::Result<()> {
    let mut call = new_call();
    for line in text.split(|byte| is_line_end(byte)) {
        let Some(next) = read_line(rt, line, graph, rule, start, call)? else {
            rt.write_all(b"cannot be read: ")?;
            rt.write_all(line)?;
            return rt.write_all(b"\n");
        };
        call = next;
    }
    Ok(())
}
