// The parts of a listing's lines, read from a place on up to the first byte that no listing goes on with: fixed letters, numbers that are not
// negative, the words of the kinds, and what follows the word.
#![tactic(auto)]

ghost use Rattle.std.specs.Prelude.{◌≡◌, true, false, ◌<◌, ◌≤◌, length, IfOk};
ghost use Rattle.definitions.specs.Lists.{within};
ghost use Rattle.definitions.specs.Operators.{kind_const, kind_proj};
ghost use Rattle.definitions.specs.Sheet.{operator_field};
ghost use Rattle.listing.specs.Typing.{FieldFits, nothing};
ghost use Rattle.listing.specs.Forms.{number};
ghost use Rattle.listing.specs.Grammar.{magnitude, literal, word_form, operator_form, operator_of};
ghost use Rattle.listing.specs.Parts.{PartRead};
ghost use Rattle.listing_numbers.specs.State.{field_of};
ghost use Rattle.listing_parse.specs.Parts.{part_of, place_of, has_byte, const_or_call};

use definitions::{KIND_CALL, KIND_CONST, KIND_PROJ, KIND_TUPLE, KIND_VARIABLE, OPERATOR_COUNT};
use listing_numbers::{Field, Stopped, read_number};

// A part that has been read: what it says, and the place behind it.
#[derive(Clone, Copy)]
pub struct Part {
    pub next: usize,
    pub value: usize,
}

// Reads these letters; they say nothing, so the value is 0.
pub fn read_letters(text: &[u8], at: usize, letters: &[u8]) -> Result<Part, Stopped>
    requires { at ≤ length text.now }
    ensures part_read { PartRead (λ f. literal letters.now (f 0)) text.now at (part_of result) }
    ensures next_in_bounds { place_of result ≤ length text.now }
{
    let mut place = at;
    for &letter in letters {
        if place == text.len() || text[place] != letter {
            return Err(Stopped { at: place });
        }
        place += 1;
    }
    Ok(Part {
        next: place,
        value: 0,
    })
}

// Reads a number of a field that has none below 0.
pub fn read_natural(text: &[u8], at: usize, field: Field) -> Result<Part, Stopped>
    requires field_fits { FieldFits (field_of «field») }
    requires below_value { field.below ≡ 0 }
    requires at_in_bounds { at ≤ length text.now }
    ensures part_read { PartRead (λ f. number (field_of «field») nothing (λ z. f (magnitude z))) text.now at (part_of result) }
    ensures next_in_bounds { place_of result ≤ length text.now }
    ensures high_value { IfOk result (λ part. within field.low part.value field.high ≡ true) }
{
    let number = read_number(text, at, field)?;
    Ok(Part {
        next: number.next,
        value: number.value as usize,
    })
}

// Reads the rest of the word of a kind.
fn read_rest(text: &[u8], at: usize, letters: &[u8], kind: usize) -> Result<Part, Stopped>
    requires { at ≤ length text.now }
    ensures part_read { PartRead (λ f. literal letters.now (f kind)) text.now at (part_of result) }
    ensures next_in_bounds { place_of result ≤ length text.now }
    ensures value_value { IfOk result (λ part. part.value ≡ kind) }
{
    let rest = read_letters(text, at, letters)?;
    Ok(Part {
        next: rest.next,
        value: kind,
    })
}

// Whether this byte stands at a place; no byte stands at the text's end.
pub fn has_byte(text: &[u8], at: usize, byte: u8) -> bool
    ensures { result ≡ has_byte text.now at byte }
{
    at < text.len() && text[at] == byte
}

// Reads the rest of `const` or `call`, behind the `c`.
fn read_const_or_call(text: &[u8], at: usize) -> Result<Part, Stopped>
    requires { at ≤ length text.now }
    ensures part_read { PartRead const_or_call text.now at (part_of result) }
    ensures next_in_bounds { place_of result ≤ length text.now }
    ensures kind_proj_value { IfOk result (λ part. within kind_const part.value kind_proj ≡ true) }
{
    if has_byte(text, at, b'o') {
        read_rest(text, at + 1, b"nst", KIND_CONST)
    } else {
        read_rest(text, at, b"all", KIND_CALL)
    }
}

// Reads the word of a kind.
pub fn read_word(text: &[u8], at: usize) -> Result<Part, Stopped>
    requires { at ≤ length text.now }
    ensures part_read { PartRead word_form text.now at (part_of result) }
    ensures next_in_bounds { place_of result ≤ length text.now }
    ensures kind_proj_value { IfOk result (λ part. within kind_const part.value kind_proj ≡ true) }
{
    if has_byte(text, at, b'c') {
        read_const_or_call(text, at + 1)
    } else if has_byte(text, at, b'v') {
        read_rest(text, at + 1, b"ariable", KIND_VARIABLE)
    } else if has_byte(text, at, b't') {
        read_rest(text, at + 1, b"uple", KIND_TUPLE)
    } else {
        read_rest(text, at, b"proj", KIND_PROJ)
    }
}

// The operators' numbers.
fn operator_field() -> Field
    ensures { field_of result ≡ operator_field }
{
    Field {
        low: 1,
        high: OPERATOR_COUNT as u64,
        below: 0,
    }
}

// Reads a space and an operator's number behind the word of a Call; behind any other word there is none, and the operator is 0.
pub fn read_operator(text: &[u8], at: usize, kind: usize) -> Result<Part, Stopped>
    requires { at ≤ length text.now }
    ensures part_read { PartRead (operator_form kind) text.now at (part_of result) }
    ensures next_in_bounds { place_of result ≤ length text.now }
    ensures value_value { IfOk result (λ part. operator_of kind part.value ≡ true) }
{
    if kind != KIND_CALL {
        return Ok(Part { next: at, value: 0 });
    }
    let space = read_letters(text, at, b" ")?;
    read_natural(text, space.next, operator_field())
}
