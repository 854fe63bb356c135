// The types of a reply, and the sizes of the blocks under the names that specs/ gives them. What
// document 01 means stands in specs/, in its order; this crate has no code of its own.
#![tactic(auto)]

// The graph block.
pub const HEADER_BYTES: usize = 24;

pub const SLOT_BYTES: usize = 48;
// Where the header's output places start, and where they end.
pub const OUTPUTS_OFFSET: usize = 10;

pub const OUTPUTS_END: usize = 18;
// Where a record's input places start, its attribute places, and its tail: the bytes behind them.
pub const INPUTS_OFFSET: usize = 4;

pub const ATTRIBUTES_OFFSET: usize = 16;

pub const TAIL_OFFSET: usize = 40;

pub const TAIL_BYTES: usize = SLOT_BYTES - TAIL_OFFSET;
// A tail starts with the record's count.
pub const COUNT_OFFSET: usize = TAIL_OFFSET;

pub const SLOT_LIMIT: usize = 512;
// The length of the longest block.
pub const BLOCK_LIMIT: usize = HEADER_BYTES + SLOT_BYTES * SLOT_LIMIT;

pub const OUTPUT_LIMIT: usize = 4;
// The letter of its mark, `T`, where its version stands, and the version; the import takes another.
pub const GRAPH_LETTER: usize = 84;

pub const VERSION_OFFSET: usize = 4;

pub const GRAPH_VERSION: usize = 2;

pub const IMPORT_VERSION: usize = 1;

// The rule block.
pub const RULE_HEADER_BYTES: usize = 16;

pub const PATTERN_BYTES: usize = 16;

pub const NODE_BYTES: usize = 8;

pub const SIDE_LIMIT: usize = 16;
// The first target place that names a target vertex.
pub const TARGET_BASE: usize = 16;
// The vertices of a side for which an array has space.
pub const SIDE_CAPACITY: usize = 64;
// The numbers that a place of a rule may hold: it is a byte.
pub const PLACE_NUMBERS: usize = 256;

pub const RULE_OUTPUT_LIMIT: usize = 2;

pub const NODE_LIMIT: usize = 64;
// The letter of its mark, `R`, and its version.
pub const RULE_LETTER: usize = 82;

pub const RULE_VERSION: usize = 1;

// The forms of an expression node.
pub const FORM_ANY: usize = 0;

pub const FORM_CONSTANT: usize = 1;

pub const FORM_ACCESS: usize = 2;
// The operations, from here on.
pub const FORM_ADD: usize = 3;

pub const FORM_SUBTRACT: usize = 4;

pub const FORM_MULTIPLY: usize = 5;

pub const FORM_DIVIDE: usize = 6;

pub const FORM_REMAINDER: usize = 7;

// Both: the kinds of a record; in a rule, kind 0 is the wildcard.
pub const KIND_EMPTY: usize = 0;

pub const KIND_CONST: usize = 1;

pub const KIND_VARIABLE: usize = 2;

pub const KIND_CALL: usize = 3;

pub const KIND_TUPLE: usize = 4;

pub const KIND_PROJ: usize = 5;
// Operators are numbered from 1 to this.
pub const OPERATOR_COUNT: usize = 14;

// Both: the places of a record for inputs and for attributes.
pub const INPUT_LIMIT: usize = 6;

pub const ATTRIBUTE_LIMIT: usize = 6;

// What an unused output or input place of a graph holds, and a map after its last image.
pub const UNUSED_PLACE: u16 = 65535;

// The map: a 16-bit number for each source vertex that a rule may have.
pub const MAP_PLACES: usize = 16;

pub const MAP_BYTES: usize = 2 * MAP_PLACES;

// Where a refusal's fault lies, and a value beside it, a count or a reason, which is zero for now.
#[derive(Clone, Copy)]
pub struct Place {
    pub index: u32,
    pub value: u32,
}

// A refusal: the number of the reply table with its place record. It is the number and not the reason, since C gets it as it is.
#[derive(Clone, Copy)]
pub struct Refusal {
    pub number: u8,
    pub place: Place,
}

// The answer of every operation: done, with a value where a request names one, or a refusal. A value has 24 bits.
pub type Reply = Result<u32, Refusal>;
