// Numbers, zeros and other bytes, written into a part of a block that the caller lends on, and one number at its place in a block.
#![tactic(auto)]

ghost use Rattle.std.specs.Prelude.{◌≡◌, List, ℕ, ◌+◌, ◌*◌, ◌≤◌, length, replicate};
ghost use Rattle.definitions.specs.Lists.{concat_map};
ghost use Rattle.definitions.specs.Fields.{u16_bytes, u32_bytes};
ghost use Rattle.writing.specs.Numbers.{with_u16};

// A number that stands in a block as W bytes, the lowest one first.
pub trait Stored<const W: usize> {
    ghost bytes: { Self → List ℕ };

    fn to_bytes(self) -> [u8; W]
        ensures { result ≡ bytes self };
}

impl Stored<2> for u16 {
    ghost bytes = { u16_bytes };

    fn to_bytes(self) -> [u8; 2] {
        u16::to_le_bytes(self)
    }
}

impl Stored<4> for u32 {
    ghost bytes = { u32_bytes };

    fn to_bytes(self) -> [u8; 4] {
        u32::to_le_bytes(self)
    }
}

// Writes numbers, each as its W bytes.
pub fn put_numbers<const W: usize, T: Stored<W> + Copy>(part: &mut [u8], numbers: &[T])
    requires { length part.old ≡ W * length numbers.now }
    ensures { part.new ≡ concat_map T.bytes numbers.now }
{
    for (i, number) in numbers.iter().enumerate() {
        let bytes = (*number).to_bytes();
        let at = W * i;
        let end = at + W;
        part[at..end].copy_from_slice(&bytes);
    }
}

// Writes one 16-bit number into a block, from byte `at` on. Every other byte stays.
pub fn put_u16_at(block: &mut [u8], at: usize, number: u16)
    requires { at + 2 ≤ length block.old }
    ensures { block.new ≡ with_u16 at number block.old }
{
    let end = at + 2;
    let numbers = [number];
    put_numbers(&mut block[at..end], &numbers);
}

// Writes zero into every byte.
pub fn clear(part: &mut [u8])
    ensures { part.new ≡ replicate (length part.old) 0 }
{
    part.fill(0);
}

// Writes the bytes of one block over another of the same length.
pub fn copy(to: &mut [u8], from: &[u8])
    requires { length to.old ≡ length from.now }
    ensures { to.new ≡ from.now }
{
    // The library's copy_from_slice may stand for a call of memmove, which a few bytes of a text are too short for, and which the archive for C
    // does not ask its users for.
    for (i, &byte) in from.iter().enumerate() {
        to[i] = byte;
    }
}
