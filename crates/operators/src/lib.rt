// The table of operators, the table of kinds, and the one test of a record's counts against them.
// Both block checks use it.
#![tactic(auto)]

ghost use Rattle.std.specs.Prelude.{◌≡◌, ◌<◌, ◌≤◌};
ghost use Rattle.definitions.specs.Operators.{kind_call, kind_proj, operator_count, counts_of, row_of, shape_fits};

use definitions::{KIND_CALL, KIND_PROJ, OPERATOR_COUNT};

// How many inputs and attributes an operator has. The tables are of bytes, since an array that is a constant is stored anew wherever it
// is read.
#[derive(Clone, Copy)]
pub struct Counts {
    pub inputs: u8,
    pub attributes: u8,
}

// Operators 1 to 14, in order.
const OPERATORS: [Counts; OPERATOR_COUNT] = [
    // add, mul, sub
    Counts {
        inputs: 2,
        attributes: 0,
    },
    Counts {
        inputs: 2,
        attributes: 0,
    },
    Counts {
        inputs: 2,
        attributes: 0,
    },
    // conv2d, bias_add, batch_norm
    Counts {
        inputs: 2,
        attributes: 4,
    },
    Counts {
        inputs: 2,
        attributes: 1,
    },
    Counts {
        inputs: 5,
        attributes: 2,
    },
    // relu, concat, split
    Counts {
        inputs: 1,
        attributes: 0,
    },
    Counts {
        inputs: 1,
        attributes: 1,
    },
    Counts {
        inputs: 1,
        attributes: 2,
    },
    // gain, vivid, mean
    Counts {
        inputs: 1,
        attributes: 3,
    },
    Counts {
        inputs: 1,
        attributes: 1,
    },
    Counts {
        inputs: 1,
        attributes: 1,
    },
    // reshape, cast
    Counts {
        inputs: 1,
        attributes: 4,
    },
    Counts {
        inputs: 1,
        attributes: 1,
    },
];

// The least and the greatest input count of a kind other than Call, and its attribute count.
#[derive(Clone, Copy)]
pub struct Row {
    pub least: u8,
    pub greatest: u8,
    pub attributes: u8,
}

// Kinds 0 to 5; a Call's row is not used.
const KINDS: [Row; KIND_PROJ + 1] = [
    Row {
        least: 0,
        greatest: 0,
        attributes: 0,
    },
    Row {
        least: 0,
        greatest: 0,
        attributes: 1,
    },
    Row {
        least: 0,
        greatest: 0,
        attributes: 5,
    },
    Row {
        least: 0,
        greatest: 0,
        attributes: 0,
    },
    Row {
        least: 1,
        greatest: 6,
        attributes: 0,
    },
    Row {
        least: 1,
        greatest: 1,
        attributes: 1,
    },
];

// The counts of an operator.
pub fn counts_of(operator: usize) -> Counts
    requires { (1 ≤ operator) × (operator ≤ operator_count) }
    ensures { (result.inputs ≡ (counts_of operator).inputs) × (result.attributes ≡ (counts_of operator).attributes) }
{
    OPERATORS[operator - 1]
}

// The row of a kind.
pub fn row_of(kind: usize) -> Row
    requires { kind ≤ kind_proj }
    ensures { (result.least ≡ (row_of kind).least) × (result.greatest ≡ (row_of kind).greatest) × (result.attributes ≡ (row_of kind).attributes) }
{
    KINDS[kind]
}

// Whether a Call's operator is known, with that operator's counts.
#[tactic(auto, unfolding(definitions::specs::Operators::shape_fits))]
fn call_fits(operator: usize, n: usize, m: usize) -> bool
    ensures { result ≡ shape_fits kind_call operator n m }
{
    if !(1..=OPERATOR_COUNT).contains(&operator) {
        return false;
    }
    let counts = counts_of(operator);
    n == usize::from(counts.inputs) && m == usize::from(counts.attributes)
}

// Whether a record's kind, operator, input count and attribute count agree with the tables.
#[tactic(auto, unfolding(definitions::specs::Operators::shape_fits))]
pub fn shape_fits(kind: usize, operator: usize, n: usize, m: usize) -> bool
    ensures { result ≡ shape_fits kind operator n m }
{
    if kind == KIND_CALL {
        return call_fits(operator, n, m);
    }
    if KIND_PROJ < kind || operator != 0 {
        return false;
    }
    let row = row_of(kind);
    (usize::from(row.least)..=usize::from(row.greatest)).contains(&n)
        && m == usize::from(row.attributes)
}
