// A version 2 rule block as a version 1 block, without marks and named Tuples, so that what version 1 asks can be asked of it.
#![tactic(auto)]

ghost use Rattle.std.specs.Prelude.{◌≡◌, ◌<◌, ◌≤◌, length};
ghost use Rattle.definitions.specs.Rule.{rule_header_bytes, node_at};
ghost use Rattle.variadic_plain.specs.Plain.{plain_header_byte, plain_byte, plain_block};

use definitions::{PATTERN_BYTES, RULE_HEADER_BYTES, RULE_VERSION};
use fields::byte_at;
use rule_fields::{source_count, target_count};
use variadic_header::TEMPLATE_MARK;

// What byte `at` of the header holds where it held `byte`: the version is 1, and no Tuple is named.
#[tactic(auto, unfolding(crate::specs::Plain::plain_header_byte))]
fn header_byte(at: usize, byte: usize) -> usize
    requires { byte < 256 }
    ensures { (result ≡ plain_header_byte at byte) × (result < 256) }
{
    match at {
        4 => RULE_VERSION,
        5 | 14 | 15 => 0,
        _ => byte,
    }
}

// What byte `at` holds, where the records end at `end`. A record starts with its kind, at a multiple of 16.
#[tactic(auto, unfolding(crate::specs::Plain::plain_byte))]
fn plain_byte(rule: &[u8], end: usize, at: usize) -> usize
    requires at_in_bounds { at < length rule.now }
    requires end_value { end ≡ node_at rule.now 0 }
    ensures { (result ≡ plain_byte rule.now at) × (result < 256) }
{
    let byte = byte_at(rule, at);
    if at < RULE_HEADER_BYTES {
        header_byte(at, byte)
    } else if at < end && at % PATTERN_BYTES == 0 {
        byte % TEMPLATE_MARK
    } else {
        byte
    }
}

// Writes the version 1 block into a lent buffer of the same length.
pub fn write_plain(rule: &[u8], plain: &mut [u8])
    requires rule_header_bytes_in_bounds { rule_header_bytes ≤ length rule.now }
    requires plain_len { length plain.old ≡ length rule.now }
    ensures { plain.new ≡ plain_block rule.now }
{
    let vertices = source_count(rule) + target_count(rule);
    let end = RULE_HEADER_BYTES + PATTERN_BYTES * vertices;
    for (at, byte) in plain.iter_mut().enumerate() {
        *byte = plain_byte(rule, end, at) as u8;
    }
}
