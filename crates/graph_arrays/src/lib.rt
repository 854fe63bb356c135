// The arrays of a slot's record, read from a block: every place as it stands, the unused ones too.
#![tactic(auto)]

ghost use Rattle.std.specs.Prelude.{◌≡◌, ◌+◌, ◌≤◌, length};
ghost use Rattle.definitions.specs.Graph.{slot_bytes};
ghost use Rattle.graph_arrays.specs.Arrays.{inputs_at, attributes_at};

use definitions::{ATTRIBUTE_LIMIT, ATTRIBUTES_OFFSET, INPUT_LIMIT, INPUTS_OFFSET};
use fields::{u16_at, u32_at};
use std::array;

// Every input place of the record that starts at `at`.
pub fn read_inputs(block: &[u8], at: usize) -> [u16; INPUT_LIMIT]
    requires { at + slot_bytes ≤ length block.now }
    ensures { result ≡ inputs_at block.now at }
{
    array::from_fn(|i| u16_at(block, at + INPUTS_OFFSET + 2 * i) as u16)
}

// Every attribute place of the record that starts at `at`.
pub fn read_attributes(block: &[u8], at: usize) -> [u32; ATTRIBUTE_LIMIT]
    requires { at + slot_bytes ≤ length block.now }
    ensures { result ≡ attributes_at block.now at }
{
    array::from_fn(|i| u32_at(block, at + ATTRIBUTES_OFFSET + 4 * i) as u32)
}
