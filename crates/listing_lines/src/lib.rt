// A slot's line in a listing, read from behind the slot's number on into the record of the slot.
#![tactic(auto)]

ghost use Rattle.std.specs.Prelude.{◌≡◌, true, ◌<◌, ◌≤◌, length, take};
ghost use Rattle.definitions.specs.Lists.{within, padded};
ghost use Rattle.definitions.specs.Operators.{kind_const, kind_proj};
ghost use Rattle.definitions.specs.Graph.{unused_place};
ghost use Rattle.definitions.specs.Sheet.{place_field, attribute_field};
ghost use Rattle.listing.specs.Grammar.{least_inputs, most_inputs, attribute_count, operator_of, attributes_form};
ghost use Rattle.listing_numbers.specs.State.{field_of};
ghost use Rattle.listing_lists.specs.Lists.{list_limit, NumbersRead};
ghost use Rattle.listing_lines.specs.Lines.{PlaceWords, lists_line, RecordOf, LineRead, AnyLineRead};

use definitions::{KIND_CALL, UNUSED_PLACE};
use graph_records::Record;
use listing_lists::{LIST_LIMIT, Numbers, read_joined};
use listing_numbers::{Field, Stopped};
use listing_parse::{read_letters, read_operator, read_word};
use operators::{counts_of, row_of};

// A line that has been read: the record of its slot, and the place behind the line's end.
#[derive(Clone, Copy)]
pub struct SlotLine {
    pub next: usize,
    pub record: Record,
}

// How many inputs and attributes a line has.
#[derive(Clone, Copy)]
pub struct Shape {
    pub least: usize,
    pub most: usize,
    pub attributes: usize,
}

// The counts of a kind and, for a Call, of its operator.
fn shape_of(kind: usize, operator: usize) -> Shape
    requires kind_proj_value { within kind_const kind kind_proj ≡ true }
    requires operator_value { operator_of kind operator ≡ true }
    ensures { (result.least ≡ least_inputs kind operator) × (result.most ≡ most_inputs kind operator) × (result.attributes ≡ attribute_count kind operator) }
{
    if kind == KIND_CALL {
        let counts = counts_of(operator);
        let inputs = counts.inputs as usize;
        Shape {
            least: inputs,
            most: inputs,
            attributes: counts.attributes as usize,
        }
    } else {
        let row = row_of(kind);
        Shape {
            least: row.least as usize,
            most: row.greatest as usize,
            attributes: row.attributes as usize,
        }
    }
}

// Inputs and outputs are 16-bit numbers.
pub fn place_field() -> Field
    ensures { field_of result ≡ place_field }
{
    Field {
        low: 0,
        high: 65535,
        below: 0,
    }
}

// Attributes are signed 32-bit numbers.
fn attribute_field() -> Field
    ensures { field_of result ≡ attribute_field }
{
    Field {
        low: 0,
        high: 2147483647,
        below: 2147483648,
    }
}

// The first words as places; 65535 stands in the unused ones.
pub fn places_of(words: [u32; LIST_LIMIT], count: usize) -> [u16; LIST_LIMIT]
    requires words_len { length «words» ≡ list_limit }
    requires count_le_list_limit { count ≤ list_limit }
    requires place_words { PlaceWords «words» }
    ensures { result ≡ padded list_limit unused_place (take count «words») }
{
    let mut places = [UNUSED_PLACE; LIST_LIMIT];
    for i in 0..count {
        places[i] = words[i] as u16;
    }
    places
}

// Reads the attributes, in braces behind a space, and the line's end.
fn read_attributes(text: &[u8], at: usize, count: usize) -> Result<Numbers, Stopped>
    requires at_in_bounds { at ≤ length text.now }
    requires count_le_list_limit { count ≤ list_limit }
    ensures { NumbersRead (attributes_form count) attribute_field count text.now at result }
{
    let open = read_letters(text, at, b" {")?;
    let numbers = read_joined(text, open.next, count, count, attribute_field(), b'}')?;
    let words = numbers.words;
    let end = read_letters(text, numbers.next, b"\n")?;
    Ok(Numbers {
        next: end.next,
        count: numbers.count,
        words,
    })
}

// The record with these fields.
fn record_of(kind: usize, operator: usize, inputs: Numbers, attributes: Numbers) -> Record
    requires kind_bound { (kind < 256) × (operator < 256) }
    requires inputs_len { (length «inputs».words ≡ list_limit) × («inputs».count ≤ list_limit) × («attributes».count ≤ list_limit) }
    requires place_words { PlaceWords «inputs».words }
    ensures { RecordOf kind operator «inputs» «attributes» result }
{
    let words = attributes.words;
    Record {
        kind: kind as u8,
        operator: operator as u8,
        n: inputs.count as u8,
        m: attributes.count as u8,
        inputs: places_of(inputs.words, inputs.count),
        attributes: words,
    }
}

// Reads both lists of a line, and its end.
fn read_lists(text: &[u8], at: usize, kind: usize, operator: usize) -> Result<SlotLine, Stopped>
    requires at_in_bounds { at ≤ length text.now }
    requires kind_proj_value { within kind_const kind kind_proj ≡ true }
    requires operator_value { operator_of kind operator ≡ true }
    ensures { LineRead (lists_line kind operator) 0 text.now at result }
{
    let shape = shape_of(kind, operator);
    let open = read_letters(text, at, b" [")?;
    let inputs = read_joined(
        text,
        open.next,
        shape.least,
        shape.most,
        place_field(),
        b']',
    )?;
    let attributes = read_attributes(text, inputs.next, shape.attributes)?;
    Ok(SlotLine {
        next: attributes.next,
        record: record_of(kind, operator, inputs, attributes),
    })
}

// Reads a line from behind the slot's number on, whatever that number is.
pub fn read_line(text: &[u8], at: usize) -> Result<SlotLine, Stopped>
    requires { at ≤ length text.now }
    ensures { AnyLineRead text.now at result }
{
    let space = read_letters(text, at, b" ")?;
    let word = read_word(text, space.next)?;
    let operator = read_operator(text, word.next, word.value)?;
    read_lists(text, operator.next, word.value, operator.value)
}
