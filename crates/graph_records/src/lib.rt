// The records of a graph block: a record is written into a part that the caller lends on, and read from a block.
#![tactic(auto)]

ghost use Rattle.std.specs.Prelude.{◌≡◌, ◌+◌, ◌≤◌, length};
ghost use Rattle.definitions.specs.Graph.{slot_bytes, tail_bytes, input_limit, attribute_limit, empty_slot};
ghost use Rattle.graph_records.specs.Records.{fields_of, record_bytes, Stands, fields_at, ReadFrom};

use definitions::{
    ATTRIBUTE_LIMIT, ATTRIBUTES_OFFSET, INPUT_LIMIT, INPUTS_OFFSET, KIND_EMPTY, SLOT_BYTES,
    TAIL_OFFSET, UNUSED_PLACE,
};
use graph_arrays::{read_attributes, read_inputs};
use writing::put_numbers;

// What a slot's record holds: kind, operator, input count n, attribute count m, and every place, the unused ones too. The counts stand beside
// arrays of a fixed length, as in the block's format: there is no heap for lists of any length.
#[derive(Clone, Copy)]
pub struct Record {
    pub kind: u8,
    pub operator: u8,
    pub n: u8,
    pub m: u8,
    pub inputs: [u16; INPUT_LIMIT],
    pub attributes: [u32; ATTRIBUTE_LIMIT],
}

// The record of an Empty slot.
pub fn empty_record() -> Record
    ensures { Stands result empty_slot }
{
    Record {
        kind: KIND_EMPTY as u8,
        operator: 0,
        n: 0,
        m: 0,
        inputs: [UNUSED_PLACE; INPUT_LIMIT],
        attributes: [0u32; ATTRIBUTE_LIMIT],
    }
}

// Writes a slot's record into the 48 bytes of its slot, with the tail that the caller gives it.
pub fn write_record(part: &mut [u8], record: Record, tail: &[u8])
    requires part_len { length part.old ≡ slot_bytes }
    requires record_len { length «record».inputs ≡ input_limit }
    requires record_len_2 { length «record».attributes ≡ attribute_limit }
    requires tail_len { length tail.now ≡ tail_bytes }
    ensures { part.new ≡ record_bytes tail.now «record» }
{
    part[0] = record.kind;
    part[1] = record.operator;
    part[2] = record.n;
    part[3] = record.m;
    let inputs = record.inputs;
    put_numbers(&mut part[INPUTS_OFFSET..ATTRIBUTES_OFFSET], &inputs);
    let attributes = record.attributes;
    put_numbers(&mut part[ATTRIBUTES_OFFSET..TAIL_OFFSET], &attributes);
    part[TAIL_OFFSET..SLOT_BYTES].copy_from_slice(tail);
}

// The record of a slot whose 48 bytes start at `at`: every place as it stands, the unused ones too, so that the fields of a record
// that is read and written again have the bytes that they were read from. The tail is not looked at.
pub fn read_record(block: &[u8], at: usize) -> Record
    requires { at + slot_bytes ≤ length block.now }
    ensures read_from { ReadFrom block.now at result }
    ensures inputs_len { (length result.inputs ≡ input_limit) × (length result.attributes ≡ attribute_limit) }
    ensures result_value { fields_of result ≡ fields_at block.now at }
{
    let kind = block[at];
    let operator = block[at + 1];
    let n = block[at + 2];
    let m = block[at + 3];
    let inputs = read_inputs(block, at);
    let attributes = read_attributes(block, at);
    Record {
        kind,
        operator,
        n,
        m,
        inputs,
        attributes,
    }
}
