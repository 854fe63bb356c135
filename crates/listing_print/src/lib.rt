// The parts of a listing, printed into a lent text from a place on. Each function returns the place behind its part, and writes the part
// where it fits. So what is printed into an empty text writes nothing, and tells the length.
#![tactic(auto)]

ghost use Rattle.std.specs.Prelude.{◌≡◌, ◌∷◌, ◌++◌, map, ◌+◌, ◌*◌, ◌<◌, ◌≤◌, ◌^◌, pos, length, drop};
ghost use Rattle.definitions.specs.Fields.{signed};
ghost use Rattle.definitions.specs.Graph.{slot_count, graph_of, slot_of, inputs_of};
ghost use Rattle.definitions.specs.Numerals.{decimal, numeral};
ghost use Rattle.definitions.specs.Sheet.{spaced, joined, word, operator_text, line_text};
ghost use Rattle.definitions.specs.Listing.{line_of};
ghost use Rattle.graph_fields.specs.Layout.{ReadableGraph};
ghost use Rattle.listing_print.specs.Laid.{text_limit, Laid};
ghost use Rattle.listing_print.specs.Rows.{number_in, numbers_in, RowOf};

use definitions::{
    ATTRIBUTES_OFFSET, HEADER_BYTES, INPUTS_OFFSET, KIND_CALL, KIND_CONST, KIND_PROJ, KIND_TUPLE,
    KIND_VARIABLE, OUTPUTS_OFFSET, SLOT_BYTES,
};
use fields::{u16_at, u32_at};
use graph_fields::{attribute_count, input_count, kind_of, operator_of, output_count};
use listing_numbers::{digit_count, put_decimal};
use writing::copy;

// ---- bytes and numbers

// Prints bytes as they are.
pub fn put_bytes(text: &mut [u8], at: usize, bytes: &[u8]) -> usize
    requires { at + length bytes.now ≤ text_limit }
    ensures { Laid at bytes.now text.old text.new result }
{
    let end = at + bytes.len();
    if text.len() < end {
        return end;
    }
    copy(&mut text[at..end], bytes);
    end
}

// Prints a number in decimal.
pub fn put_natural(text: &mut [u8], at: usize, n: u64) -> usize
    requires n_bound { n < 10 ^ 10 }
    requires n_bound_2 { at + length (decimal n) ≤ text_limit }
    ensures { Laid at (decimal n) text.old text.new result }
{
    let end = at + digit_count(n);
    if text.len() < end {
        return end;
    }
    put_decimal(&mut text[at..end], n);
    end
}

// Prints the number for which a 32-bit word stands, a minus before a negative one.
fn put_number(text: &mut [u8], at: usize, number: u32) -> usize
    requires { at + length (numeral (signed number)) ≤ text_limit }
    ensures { Laid at (numeral (signed number)) text.old text.new result }
{
    if number < 2147483648 {
        return put_natural(text, at, number as u64);
    }
    let digits = put_bytes(text, at, b"-");
    put_natural(text, digits, 4294967296 - number as u64)
}

// ---- rows of numbers

// Numbers in a row in a block, from byte `from` on: signed ones of 32 bits where they are wide, and else of 16 bits.
#[derive(Clone, Copy)]
pub struct Row {
    pub from: usize,
    pub count: usize,
    pub wide: bool,
}

// The inputs of slot k.
fn inputs_of(graph: &[u8], k: usize) -> Row
    requires readable_graph { ReadableGraph graph.now }
    requires k_bound { k < slot_count graph.now }
    ensures { RowOf graph.now result (map pos (inputs_of (graph_of graph.now) k)) }
{
    Row {
        from: HEADER_BYTES + SLOT_BYTES * k + INPUTS_OFFSET,
        count: input_count(graph, k),
        wide: false,
    }
}

// The attributes of slot k.
fn attributes_of(graph: &[u8], k: usize) -> Row
    requires readable_graph { ReadableGraph graph.now }
    requires k_bound { k < slot_count graph.now }
    ensures { RowOf graph.now result (map signed (slot_of (graph_of graph.now) k).attributes) }
{
    Row {
        from: HEADER_BYTES + SLOT_BYTES * k + ATTRIBUTES_OFFSET,
        count: attribute_count(graph, k),
        wide: true,
    }
}

// The outputs.
pub fn outputs_of(graph: &[u8]) -> Row
    requires readable_graph { ReadableGraph graph.now }
    requires graph_nonzero { 0 < slot_count graph.now }
    ensures { RowOf graph.now result (map pos (graph_of graph.now).outputs) }
{
    Row {
        from: OUTPUTS_OFFSET,
        count: output_count(graph),
        wide: false,
    }
}

// The 32-bit word of number i of a row.
fn number_at(block: &[u8], row: Row, i: usize) -> u32
    requires count_in_bounds { row.from + 4 * row.count ≤ length block.now }
    requires i_lt_count { i < row.count }
    ensures { signed result ≡ number_in block.now row.from row.wide i }
{
    let from = row.from;
    let wide = row.wide;
    if wide {
        return u32_at(block, from + 4 * i) as u32;
    }
    u16_at(block, from + 2 * i) as u32
}

// Prints a space and the number for which a 32-bit word stands.
fn put_behind(text: &mut [u8], at: usize, number: u32) -> usize
    requires { at + length (32 ∷ numeral (signed number)) ≤ text_limit }
    ensures { Laid at (32 ∷ numeral (signed number)) text.old text.new result }
{
    let digits = put_bytes(text, at, b" ");
    put_number(text, digits, number)
}

// Prints the numbers of a row from `first` on, a space before each.
pub fn put_spaced(text: &mut [u8], at: usize, block: &[u8], row: Row, first: usize) -> usize
    requires count_in_bounds { row.from + 4 * row.count ≤ length block.now }
    requires row_bound { at + length (spaced (drop first (numbers_in block.now «row»))) ≤ text_limit }
    ensures { Laid at (spaced (drop first (numbers_in block.now «row»))) text.old text.new result }
{
    let mut end = at;
    for i in first..row.count {
        end = put_behind(text, end, number_at(block, row, i));
    }
    end
}

// Prints what opens a list, and the numbers of a row with single spaces between them.
fn put_list(text: &mut [u8], at: usize, opening: &[u8], block: &[u8], row: Row) -> usize
    requires count_in_bounds { row.from + 4 * row.count ≤ length block.now }
    requires row_bound { at + length (opening.now ++ joined (numbers_in block.now «row»)) ≤ text_limit }
    ensures { Laid at (opening.now ++ joined (numbers_in block.now «row»)) text.old text.new result }
{
    let start = put_bytes(text, at, opening);
    let count = row.count;
    if count == 0 {
        return start;
    }
    let next = put_number(text, start, number_at(block, row, 0));
    put_spaced(text, next, block, row, 1)
}

// ---- a line

// Prints a space and the word of a kind.
fn put_word(text: &mut [u8], at: usize, kind: usize) -> usize
    requires { at + length (32 ∷ word kind) ≤ text_limit }
    ensures { Laid at (32 ∷ word kind) text.old text.new result }
{
    if kind == KIND_CONST {
        return put_bytes(text, at, b" const");
    }
    if kind == KIND_VARIABLE {
        return put_bytes(text, at, b" variable");
    }
    if kind == KIND_CALL {
        return put_bytes(text, at, b" call");
    }
    if kind == KIND_TUPLE {
        return put_bytes(text, at, b" tuple");
    }
    if kind == KIND_PROJ {
        return put_bytes(text, at, b" proj");
    }
    // Empty has no word, and no line.
    put_bytes(text, at, b" ")
}

// Prints a line's slot, the word of its kind, and the operator of a call.
fn put_start(text: &mut [u8], at: usize, slot: usize, kind: usize, operator: usize) -> usize
    requires slot_bound { (slot < 65536) × (operator < 65536) }
    requires operator_bound { at + length (numeral (pos slot) ++ 32 ∷ word kind ++ operator_text kind operator) ≤ text_limit }
    ensures { Laid at (numeral (pos slot) ++ 32 ∷ word kind ++ operator_text kind operator) text.old text.new result }
{
    let number_end = put_natural(text, at, slot as u64);
    let word_end = put_word(text, number_end, kind);
    if kind != KIND_CALL {
        return word_end;
    }
    let digits = put_bytes(text, word_end, b" ");
    put_natural(text, digits, operator as u64)
}

// Prints the line of slot k.
pub fn put_line(text: &mut [u8], at: usize, graph: &[u8], k: usize) -> usize
    requires readable_graph { ReadableGraph graph.now }
    requires k_bound { k < slot_count graph.now }
    requires k_bound_2 { at + length (line_text (line_of (graph_of graph.now) k)) ≤ text_limit }
    ensures { Laid at (line_text (line_of (graph_of graph.now) k)) text.old text.new result }
{
    let kind = kind_of(graph, k);
    let operator = operator_of(graph, k);
    let inputs = inputs_of(graph, k);
    let attributes = attributes_of(graph, k);
    let start_end = put_start(text, at, k, kind, operator);
    let inputs_end = put_list(text, start_end, b" [", graph, inputs);
    let attributes_end = put_list(text, inputs_end, b"] {", graph, attributes);
    put_bytes(text, attributes_end, b"}\n")
}
