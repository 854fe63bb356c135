// The first kind of fault of a version 2 rule block: its length and its header. And the marks of its vertices.
#![tactic(auto)]

ghost use Rattle.std.specs.Prelude.{◌≡◌, ◌&&◌, ◌||◌, ◌*◌, ◌<◌, ◌≤◌, eqb, ltb, length};
ghost use Rattle.definitions.specs.Fields.{byte_at};
ghost use Rattle.definitions.specs.Rule.{rule_header_bytes, place_numbers, source_count, target_count};
ghost use Rattle.definitions.specs.VariadicBlock.{no_tuple, is_variadic, marked, variadic_header_fits};

use definitions::{PATTERN_BYTES, RULE_HEADER_BYTES, RULE_LETTER, SIDE_LIMIT};
use fields::{byte_at, has_mark, u16_at};
use rule_fields::{source_count, target_count};
use rule_header::{length_fits, output_places_fit, sizes_fit};

pub const VARIADIC_VERSION: usize = 2;
// A kind plus this marks a template.
pub const TEMPLATE_MARK: usize = 128;
// What byte 15 holds where the target has no named Tuple.
pub const NO_TUPLE: usize = 255;
// The most fields that the named Tuple may stand for, and so the highest index.
pub const FIELD_LIMIT: usize = 6;
// The forms of an expression node of version 2 alone.
pub const FORM_INDEX: usize = 8;

pub const FORM_SUM: usize = 9;

// Whether the block has version 2; one that ends before its version has none.
#[tactic(auto, unfolding(definitions::specs::VariadicBlock::is_variadic))]
pub fn is_variadic(rule: &[u8]) -> bool
    ensures { result ≡ is_variadic rule.now }
{
    6 <= rule.len() && u16_at(rule, 4) == VARIADIC_VERSION
}

// Whether vertex v is marked as a template. A number past the last vertex may name a byte past the block, and that has no mark.
pub fn is_marked(rule: &[u8], v: usize) -> bool
    requires { v < 2 * place_numbers }
    ensures { result ≡ marked rule.now v }
{
    let at = RULE_HEADER_BYTES + PATTERN_BYTES * v;
    at < rule.len() && TEMPLATE_MARK <= byte_at(rule, at)
}

// Whether byte 14 names a source vertex, and byte 15 a target vertex or none.
fn tuples_fit(rule: &[u8]) -> bool
    requires { rule_header_bytes ≤ length rule.now }
    ensures { result ≡ (ltb (byte_at rule.now 14) (source_count rule.now)
        && (eqb (byte_at rule.now 15) no_tuple || ltb (byte_at rule.now 15) (target_count rule.now))) }
{
    let tuple = byte_at(rule, 15);
    byte_at(rule, 14) < source_count(rule) && (tuple == NO_TUPLE || tuple < target_count(rule))
}

// Whether the length and the header are right.
#[tactic(auto, unfolding(definitions::specs::VariadicBlock::variadic_header_fits, definitions::specs::Rule::rule_sizes_fit))]
pub fn header_fits(rule: &[u8]) -> bool
    ensures { result ≡ variadic_header_fits rule.now }
{
    RULE_HEADER_BYTES <= rule.len()
        && length_fits(rule)
        && has_mark(rule, RULE_LETTER)
        && is_variadic(rule)
        && sizes_fit(rule, SIDE_LIMIT)
        && output_places_fit(rule)
        && tuples_fit(rule)
}
