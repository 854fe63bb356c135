// Runs of equal bytes in a lent block, tested byte by byte or a word at a time. Nothing here reads past what its `requires` names.
#![tactic(auto)]

ghost use Rattle.std.specs.Prelude.{◌≡◌, ◌+◌, ◌*◌, ◌≤◌, length};
ghost use Rattle.definitions.specs.Fields.{filled};
ghost use Rattle.fields.specs.Words.{word_bytes};

use fields::{byte_at, u64_at};

// The bytes of a 64-bit word.
pub const WORD_BYTES: usize = 8;
// The word whose bytes are all 1.
const WORD_OF_ONES: usize = 72340172838076673;

// Whether the bytes from `from` up to `to` all hold `value`.
pub fn is_filled(block: &[u8], from: usize, to: usize, value: usize) -> bool
    requires { to ≤ length block.now }
    ensures { result ≡ filled block.now from to value }
{
    (from..to).all(|at| byte_at(block, at) == value)
}

// Whether the 8 bytes from `at` on all hold `value`: they are compared as one word.
pub fn word_filled(block: &[u8], at: usize, value: u8) -> bool
    requires { at + word_bytes ≤ length block.now }
    ensures { result ≡ filled block.now at (at + word_bytes) value }
{
    u64_at(block, at) == WORD_OF_ONES * value as usize
}

// Whether the last six of the 8 bytes from `at` on are zero: then the word is a 16-bit number.
pub fn word_ends_zero(block: &[u8], at: usize) -> bool
    requires { at + word_bytes ≤ length block.now }
    ensures { result ≡ filled block.now (at + 2) (at + word_bytes) 0 }
{
    u64_at(block, at) < 65536
}

// Whether the bytes from `from` up to `to` all hold `value`, where they are one word to two words long: the first word and the last,
// which may overlap.
pub fn two_words_filled(block: &[u8], from: usize, to: usize, value: u8) -> bool
    requires word_bytes_bound { from + word_bytes ≤ to }
    requires to_bound { to ≤ from + 2 * word_bytes }
    requires to_in_bounds { to ≤ length block.now }
    ensures { result ≡ filled block.now from to value }
{
    word_filled(block, from, value) && word_filled(block, to - WORD_BYTES, value)
}

// The same where they are one word to three words long: a pair of words as above, and the last word, which may overlap it. There is no loop, so
// that nothing depends on the length but where the words stand.
pub fn three_words_filled(block: &[u8], from: usize, to: usize, value: u8) -> bool
    requires word_bytes_bound { from + word_bytes ≤ to }
    requires to_bound { to ≤ from + 3 * word_bytes }
    requires to_in_bounds { to ≤ length block.now }
    ensures { result ≡ filled block.now from to value }
{
    let middle = to.min(from + 2 * WORD_BYTES);
    let last = to - WORD_BYTES;
    two_words_filled(block, from, middle, value) && word_filled(block, last, value)
}
