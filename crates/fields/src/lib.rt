// Fields of a lent block: bytes, 16-bit, 32-bit and 64-bit little-endian numbers, and signed ones. Nothing here reads past what its
// `requires` names.
#![tactic(auto)]

ghost use Rattle.std.specs.Prelude.{◌≡◌, ◌+◌, ◌<◌, ◌≤◌, length};
ghost use Rattle.definitions.specs.Fields.{byte_at, u16_at, u32_at, mark_fits, signed};
ghost use Rattle.fields.specs.Words.{word_bytes, u64_at};

// The byte at `at`.
pub fn byte_at(block: &[u8], at: usize) -> usize
    requires { at < length block.now }
    ensures { (result ≡ byte_at block.now at) × (result < 256) }
{
    block[at] as usize
}

// The 16-bit number at `at`.
pub fn u16_at(block: &[u8], at: usize) -> usize
    requires { at + 1 < length block.now }
    ensures { (result ≡ u16_at block.now at) × (result < 65536) }
{
    let low = byte_at(block, at);
    let high = byte_at(block, at + 1);
    low + 256 * high
}

// The 32-bit word at `at`.
pub fn u32_at(block: &[u8], at: usize) -> usize
    requires { at + 3 < length block.now }
    ensures { (result ≡ u32_at block.now at) × (result < 4294967296) }
{
    let low = u16_at(block, at);
    let high = u16_at(block, at + 2);
    low + 65536 * high
}

// The 64-bit word at `at`. The compiler reads it in one step.
pub fn u64_at(block: &[u8], at: usize) -> usize
    requires { at + word_bytes ≤ length block.now }
    ensures { result ≡ u64_at block.now at }
{
    let low = u32_at(block, at);
    let high = u32_at(block, at + 4);
    low + 4294967296 * high
}

// The signed 32-bit number at `at`, in two's complement.
pub fn i32_at(block: &[u8], at: usize) -> i32
    requires { at + 3 < length block.now }
    ensures { result ≡ signed (u32_at block.now at) }
{
    let word = u32_at(block, at) as u32;
    word.cast_signed()
}

// Whether the block starts with its mark: `LG`, the letter of its sort, and a zero byte.
pub fn has_mark(block: &[u8], letter: usize) -> bool
    requires { 4 ≤ length block.now }
    ensures { result ≡ mark_fits block.now letter }
{
    byte_at(block, 0) == 76
        && byte_at(block, 1) == 71
        && byte_at(block, 2) == letter
        && byte_at(block, 3) == 0
}
