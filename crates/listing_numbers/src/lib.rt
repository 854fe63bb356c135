// Numbers of a listing: printed in decimal, and read byte by byte up to the first byte that no number of the field goes on with. A number
// of a few plain digits, as most are, is read without asking at each digit what can come of it: it only has to fit in the end.
#![tactic(auto)]

ghost use Rattle.std.specs.Prelude.{◌≡◌, true, cond, ◌+◌, ◌-◌, ◌*◌, ◌<◌, ltb, ◌≤◌, ◌^◌, length, get_or, drop, IfSome};
ghost use Rattle.std.proofs.Math.Option.{none, some};
ghost use Rattle.definitions.specs.Lists.{within};
ghost use Rattle.definitions.specs.Numerals.{decimal, Field};
ghost use Rattle.listing.specs.Typing as typing;
ghost use Rattle.listing.specs.Typing.{FieldFits, is_digit, is_numeric, digits_of, whole, nothing, going_on, typed_with, ended_at, number_from};
ghost use Rattle.listing_numbers.specs.State.{field_of, typed_of, next_of, after_byte, digits_in, got_of};

// The numbers that a field takes: low to high, and -below to -1.
#[derive(Clone, Copy)]
pub struct Field {
    pub low: u64,
    pub high: u64,
    pub below: u64,
}

// What has been read of a number: nothing yet, a minus, the digits of a number, or the digits of one behind a minus.
#[derive(Clone, Copy)]
pub enum Typing {
    Nothing,
    Minus,
    Digits(u64),
    NegativeDigits(u64),
}

// A number that has been read, and the place behind it: whether a minus stood before the digits, and what they say.
#[derive(Clone, Copy)]
pub struct Number {
    pub negative: bool,
    pub value: u64,
    pub next: usize,
}

// No listing goes on at this place.
#[derive(Clone, Copy)]
pub struct Stopped {
    pub at: usize,
}

// ---- printing

// How many digits n has.
pub fn digit_count(n: u64) -> usize
    requires { n < 10 ^ 10 }
    ensures { result ≡ length (decimal n) }
{
    let mut count = 1;
    let mut rest = n / 10;
    // One turn for each digit behind the first; how many there are is what is asked.
    while 0 < rest {
        rest /= 10;
        count += 1;
    }
    count
}

// Writes n in decimal into a part of as many bytes as it has digits, from the last one on.
pub fn put_decimal(part: &mut [u8], n: u64)
    requires n_bound { n < 10 ^ 10 }
    requires part_len { length part.old ≡ length (decimal n) }
    ensures { part.new ≡ decimal n }
{
    let mut rest = n;
    for i in (0..part.len()).rev() {
        part[i] = b'0' + (rest % 10) as u8;
        rest /= 10;
    }
}

// ---- reading

// The greatest number of eight digits, behind which one more is taken without asking what can come of it.
const EIGHT_DIGITS: u64 = 99999999;

// low <= n <= high
fn is_within(low: u64, n: u64, high: u64) -> bool
    ensures { result ≡ within low n high }
{
    low <= n && n <= high
}

// Can the digits of d go on to a number from low to high?
fn reaches(d: u64, low: u64, high: u64) -> bool
    ensures { result ≡ typing.reaches 10 d low high }
{
    let mut l = low;
    let mut h = high;
    for place in 0..10usize {
        if is_within(l, d, h) {
            return true;
        }
        l /= 10;
        h /= 10;
    }
    false
}

fn goes_on(d: u64, low: u64, high: u64) -> bool
    ensures { result ≡ typing.goes_on d low high }
{
    if 0 < d {
        reaches(d, low, high)
    } else {
        low == 0
    }
}

// The digits of d, where some number of the field goes on with them.
// This and the functions below give an option of an enum, which goes by way of memory where it is handed back by a call; so they are compiled
// into the loop over a number's bytes.
#[inline(always)]
fn digits_so(negative: bool, d: u64, field: Field) -> Option<Typing>
    requires { FieldFits (field_of «field») }
    ensures value_value { next_of result ≡ going_on (field_of «field») (some (digits_of negative d)) }
    ensures value_bound { IfSome result (λ t. digits_in t < 10 ^ 10) }
{
    if negative {
        if goes_on(d, 1, field.below) {
            Some(Typing::NegativeDigits(d))
        } else {
            None
        }
    } else if goes_on(d, field.low, field.high) {
        Some(Typing::Digits(d))
    } else {
        None
    }
}

// One digit more behind those of value; no digit stands behind a leading zero.
#[inline(always)]
fn digits_behind(negative: bool, value: u64, d: u64, field: Field) -> Option<Typing>
    requires field_fits { FieldFits (field_of «field») }
    requires value_bound { (value < 10 ^ 10) × (d < 10) }
    ensures value_value { next_of result ≡ going_on (field_of «field») (cond (ltb 0 value) (some (digits_of negative (10 * value + d))) none) }
    ensures value_bound_2 { IfSome result (λ t. digits_in t < 10 ^ 10) }
{
    if value == 0 {
        None
    } else {
        digits_so(negative, 10 * value + d, field)
    }
}

fn is_digit(c: u8) -> bool
    ensures { result ≡ is_digit c }
{
    is_within(u64::from(b'0'), u64::from(c), u64::from(b'9'))
}

// One byte more of a number, a digit or a minus, where some number of the field goes on with it.
#[inline(always)]
fn typed_more(t: Typing, c: u8, field: Field) -> Option<Typing>
    requires field_fits { FieldFits (field_of «field») }
    requires value_bound { digits_in t < 10 ^ 10 }
    ensures value_value { next_of result ≡ typed_with (field_of «field») (typed_of t) c }
    ensures value_bound_2 { IfSome result (λ next. digits_in next < 10 ^ 10) }
{
    if !is_digit(c) {
        return match t {
            Typing::Nothing => {
                if 0 < field.below {
                    Some(Typing::Minus)
                } else {
                    None
                }
            }
            Typing::Minus | Typing::Digits(_) | Typing::NegativeDigits(_) => None,
        };
    }
    let d = u64::from(c - b'0');
    match t {
        Typing::Nothing => digits_so(false, d, field),
        // No number is a minus and a zero.
        Typing::Minus => {
            if d == 0 {
                None
            } else {
                digits_so(true, d, field)
            }
        }
        Typing::Digits(value) => digits_behind(false, value, d, field),
        Typing::NegativeDigits(value) => digits_behind(true, value, d, field),
    }
}

// The same of what one byte more may have left: where no number of the field can come of it, none can behind any byte.
#[tactic(auto, unfolding(crate::specs::State::after_byte))]
#[inline(always)]
pub fn press(t: Option<Typing>, c: u8, field: Field) -> Option<Typing>
    requires field_fits { FieldFits (field_of «field») }
    requires value_bound { IfSome t (λ typing. digits_in typing < 10 ^ 10) }
    ensures value_value { next_of result ≡ after_byte (field_of «field») (next_of t) c }
    ensures value_bound_2 { IfSome result (λ next. digits_in next < 10 ^ 10) }
{
    typed_more(t?, c, field)
}

fn is_numeric(c: u8) -> bool
    ensures { result ≡ is_numeric c }
{
    c == b'-' || is_digit(c)
}

// The number that ends before the byte at this place.
fn ended(t: Typing, at: usize, field: Field) -> Result<Number, Stopped>
    ensures { got_of result ≡ ended_at (field_of «field») at (whole (typed_of t)) }
{
    match t {
        Typing::Digits(value) => {
            if is_within(field.low, value, field.high) {
                Ok(Number {
                    negative: false,
                    value,
                    next: at,
                })
            } else {
                Err(Stopped { at })
            }
        }
        Typing::NegativeDigits(value) => {
            if is_within(1, value, field.below) {
                Ok(Number {
                    negative: true,
                    value,
                    next: at,
                })
            } else {
                Err(Stopped { at })
            }
        }
        Typing::Nothing | Typing::Minus => Err(Stopped { at }),
    }
}

// Reads a number of the field from a place on, and asks at each byte what can come of it.
fn read_bytewise(text: &[u8], at: usize, field: Field) -> Result<Number, Stopped>
    requires field_fits { FieldFits (field_of «field») }
    requires at_in_bounds { at ≤ length text.now }
    ensures { got_of result ≡ number_from (field_of «field») nothing at (drop at text.now) }
{
    let mut typing = Typing::Nothing;
    for i in at..text.len() {
        let c = text[i];
        if !is_numeric(c) {
            return ended(typing, i, field);
        }
        let Some(next) = press(Some(typing), c, field) else {
            return Err(Stopped { at: i });
        };
        typing = next;
    }
    Err(Stopped { at: text.len() })
}

// The digits behind the first one, which says `first`. Where they are no number of the field, more than nine, behind a leading zero or followed by a minus, or
// where the text ends in them, the number is read again bytewise, which finds the place.
// The bounds are taken out of the field one by one, here and below: copying the field whole at each number takes longer than the digits.
fn read_digits(text: &[u8], at: usize, first: u64, field: Field) -> Result<Number, Stopped>
    requires field_fits { FieldFits (field_of «field») }
    requires at_in_bounds { at < length text.now }
    requires at_value { is_digit (get_or text.now at 0) ≡ true }
    requires first_value { first ≡ get_or text.now at 0 - 48 }
    ensures { got_of result ≡ number_from (field_of «field») nothing at (drop at text.now) }
{
    let low = field.low;
    let high = field.high;
    let below = field.below;
    let mut value = first;
    for i in at + 1..text.len() {
        let c = text[i];
        if !is_numeric(c) {
            if is_within(low, value, high) {
                return Ok(Number {
                    negative: false,
                    value,
                    next: i,
                });
            }
            return read_bytewise(text, at, Field { low, high, below });
        }
        if !is_digit(c) {
            return read_bytewise(text, at, Field { low, high, below });
        }
        if !is_within(1, value, EIGHT_DIGITS) {
            return read_bytewise(text, at, Field { low, high, below });
        }
        value = 10 * value + (u64::from(c - b'0'));
    }
    read_bytewise(text, at, Field { low, high, below })
}

// Reads a number of the field from a place on.
pub fn read_number(text: &[u8], at: usize, field: Field) -> Result<Number, Stopped>
    requires field_fits { FieldFits (field_of «field») }
    requires at_in_bounds { at ≤ length text.now }
    ensures { got_of result ≡ number_from (field_of «field») nothing at (drop at text.now) }
{
    let low = field.low;
    let high = field.high;
    let below = field.below;
    if at < text.len() {
        let c = text[at];
        if is_digit(c) {
            return read_digits(text, at, u64::from(c - b'0'), Field { low, high, below });
        }
    }
    read_bytewise(text, at, Field { low, high, below })
}
