// Lists of numbers in a listing, read up to the first byte that no such list goes on with: inputs, attributes and outputs.
#![tactic(auto)]

ghost use Rattle.std.specs.Prelude.{◌≡◌, true, ◌&&◌, ◌∷◌, ◌+◌, ◌-◌, ◌<◌, ◌≤◌, ◌^◌, leb, eqb, length, take};
ghost use Rattle.definitions.specs.Fields.{word_of};
ghost use Rattle.listing.specs.Typing.{FieldFits, valued};
ghost use Rattle.listing.specs.Parts.{spaced_from, joined_from};
ghost use Rattle.listing_numbers.specs.State.{field_of};
ghost use Rattle.listing_lists.specs.Lists.{list_limit, Holds, place_of};

use definitions::ATTRIBUTE_LIMIT;
use listing_numbers::{Field, Stopped, read_number};

// No list of a listing has more numbers: a slot has at most six inputs and attributes, and a graph four outputs.
pub const LIST_LIMIT: usize = ATTRIBUTE_LIMIT;

// A list of numbers that has been read. The first count of the words are those of the numbers, zeros stand behind them, and next is
// the place behind the byte that ends the list. The count stands beside an array of a fixed length, since there is no heap.
#[derive(Drop)]
pub struct Numbers {
    pub next: usize,
    pub count: usize,
    pub words: [u32; LIST_LIMIT],
}

// The 32-bit word of a number.
fn word_of(negative: bool, value: u64) -> u32
    requires { value < 2 ^ 32 }
    ensures { result ≡ word_of (valued negative value) }
{
    if negative {
        if value == 0 {
            0
        } else {
            (4294967296 - value) as u32
        }
    } else {
        value as u32
    }
}

// The list may end with this byte.
fn ends_here(c: u8, stop: u8, least: usize, count: usize) -> bool
    ensures { result ≡ (leb least count && eqb c stop) }
{
    least <= count && c == stop
}

// Reads from least to most numbers of the field from a place on, a space before each, and the byte that ends them.
pub fn read_spaced(
    text: &[u8],
    at: usize,
    least: usize,
    most: usize,
    field: Field,
    stop: u8,
) -> Result<Numbers, Stopped>
    requires field_fits { FieldFits (field_of «field») }
    requires high_bound { (field.high < 2 ^ 32) × (field.below < 2 ^ 32) }
    requires at_in_bounds { (at ≤ length text.now) × (least ≤ most) × (most ≤ list_limit) }
    ensures holds { Holds (field_of «field») most result (spaced_from least most (field_of «field») stop text.now at) }
    ensures next_in_bounds { place_of result ≤ length text.now }
{
    let mut words = [0u32; LIST_LIMIT];
    let mut count = 0usize;
    let mut i = at;
    // The place goes on by whole numbers, and not by one.
    while i < text.len() {
        let c = text[i];
        if ends_here(c, stop, least, count) {
            return Ok(Numbers {
                next: i + 1,
                count,
                words,
            });
        }
        if count == most || c != b' ' {
            return Err(Stopped { at: i });
        }
        let number = read_number(text, i + 1, field)?;
        words[count] = word_of(number.negative, number.value);
        count += 1;
        i = number.next;
    }
    Err(Stopped { at: i })
}

// The words of a list with one more number in front.
fn with_first(first: u32, words: [u32; LIST_LIMIT]) -> [u32; LIST_LIMIT]
    requires { length «words» ≡ list_limit }
    ensures { result ≡ first ∷ take (list_limit - 1) «words» }
{
    [first, words[0], words[1], words[2], words[3], words[4]]
}

// Reads from least to most numbers of the field from a place on, single spaces between them, and the byte that ends them. Where there may
// be a number there must be one: no kind or operator has a list that may be empty and may also have numbers.
pub fn read_joined(
    text: &[u8],
    at: usize,
    least: usize,
    most: usize,
    field: Field,
    stop: u8,
) -> Result<Numbers, Stopped>
    requires field_fits { FieldFits (field_of «field») }
    requires high_bound { (field.high < 2 ^ 32) × (field.below < 2 ^ 32) }
    requires at_in_bounds { (at ≤ length text.now) × (least ≤ most) × (most ≤ list_limit) }
    ensures holds { Holds (field_of «field») most result (joined_from least most (field_of «field») stop text.now at) }
    ensures next_in_bounds { place_of result ≤ length text.now }
{
    if most == 0 {
        return read_spaced(text, at, least, most, field, stop);
    }
    let first = read_number(text, at, field)?;
    let rest = read_spaced(
        text,
        first.next,
        least.saturating_sub(1),
        most - 1,
        field,
        stop,
    )?;
    Ok(Numbers {
        next: rest.next,
        count: rest.count + 1,
        words: with_first(word_of(first.negative, first.value), rest.words),
    })
}
