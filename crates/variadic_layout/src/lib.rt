// The layout of a fixed rule, made of a variadic rule's block: a header, a record for each copy in visiting order, and behind the nodes the
// table of the copies' attributes. The nodes between records and table are another's to write, and stay as they are.
#![tactic(auto)]

ghost use Rattle.std.specs.Prelude.{◌≡◌, cond, suc, ◌+◌, ◌*◌, ◌/◌, ◌%◌, ◌<◌, ◌≤◌, eqb, length, get_or};
ghost use Rattle.definitions.specs.Rule.{rule_header_bytes, pattern_bytes, node_bytes, node_limit, node_count, vertex_at, node_at};
ghost use Rattle.definitions.specs.Variadic.{copy_index, source_order, target_order};
ghost use Rattle.definitions.specs.VariadicBlock.{field_limit, expanded_limit, variadic_of};
ghost use Rattle.rule_fields.specs.Fixed.{attribute_place_bytes};
ghost use Rattle.variadic_order.specs.Order.{Ordered};
ghost use Rattle.variadic_order.specs.Sides.{field_count, field_place};
ghost use Rattle.variadic_layout.specs.Bytes.{number_from, head_byte, table_byte};
ghost use Rattle.variadic_layout.specs.Written.{BlockLayout, CopyOf, Numbers, PlaceLayout, Written};
ghost use Rattle.variadic_layout.specs.Parts.{part_place, part_output, part_field, part_record, part_header, Numbered, PartCopy, PartCopies, PartOutputs, source_part, target_part};
ghost use Rattle.variadic_layout.specs.Laid.{layout_bytes, Laid};

use definitions::{NODE_BYTES, NODE_LIMIT, PATTERN_BYTES, RULE_HEADER_BYTES, RULE_LETTER};
use fields::byte_at;
use rule_fields::{ATTRIBUTE_PLACE_BYTES, EXPANDED_VERSION, node_count, output_count};
use variadic_header::{FIELD_LIMIT, TEMPLATE_MARK};
use variadic_order::{
    COPIES, COPY_STRIDE, EXPANDED_LIMIT, Side, copy_of, field_count, side_byte, source_side,
    target_side,
};
use variadic_terms::term_of;
use writing::copy;

// A node of the block gives so many nodes at most, one for each index from 0 to the highest.
const TERM_LIMIT: usize = FIELD_LIMIT + 1;
// The bytes of the largest layout.
pub const LAYOUT_BYTES: usize = RULE_HEADER_BYTES
    + (PATTERN_BYTES + ATTRIBUTE_PLACE_BYTES) * 2 * EXPANDED_LIMIT
    + NODE_BYTES * NODE_LIMIT * TERM_LIMIT;
// What an unused place holds.
const UNUSED_BYTE: usize = 255;
// Where the block's source outputs start, and its target outputs.
const SOURCE_OUTPUTS: usize = 10;

const TARGET_OUTPUTS: usize = 12;

// A side of the block in the made layout: its vertices have the place numbers from `split` on; the source has `inputs` copies, which are
// numbered for the places that name rule inputs, and the side has `count`.
#[derive(Clone, Copy)]
struct Part {
    side: Side,
    split: usize,
    inputs: usize,
    count: usize,
}

// The number of copy c; one that is not visited has the number behind the last.
fn number_of(numbers: &[u8; COPIES], count: usize, c: usize) -> usize
    requires numbers { Numbers numbers.now count }
    requires c_in_bounds { c < length numbers.now }
    ensures { (result ≡ number_from numbers.now count c) × (result ≤ expanded_limit) }
{
    let number = numbers[c] as usize;
    if number == 0 {
        return count;
    }
    number - 1
}

// The number by which the layout names what place number `place` of the block names where the index is `index`.
fn place_number(
    rule: &[u8],
    part: Part,
    index: usize,
    place: usize,
    inputs: &[u8; COPIES],
    numbers: &[u8; COPIES],
) -> usize
    requires place_layout { PlaceLayout rule.now part.side.first part.side.base index place }
    requires numbered { Numbered part inputs.now numbers.now }
    ensures { (result ≡ part_place rule.now part inputs.now numbers.now index place) × (result < 256) }
{
    if place < part.side.base {
        return number_of(inputs, part.inputs, copy_of(rule, 0, place, index));
    }
    let c = copy_of(rule, part.side.first, place - part.side.base, index);
    part.split + number_of(numbers, part.count, c)
}

// The place number that stands for field i of copy c.
fn field_place(rule: &[u8], side: Side, n: usize, c: usize, i: usize) -> usize
    requires copy_of { CopyOf rule.now side.first side.base side.tuple n c }
    requires i_bound { i < field_count rule.now side.first side.base side.tuple n c }
    ensures { result ≡ field_place rule.now side.first side.base side.tuple n c i }
{
    if c == side.tuple {
        return side_byte(rule, side.first, c % COPY_STRIDE, 4 + i / n);
    }
    side_byte(rule, side.first, c % COPY_STRIDE, 4 + i)
}

// The index of what field i of copy c names: each field of the named Tuple has its own.
fn field_index(side: Side, n: usize, c: usize, i: usize) -> usize
    requires { 1 ≤ n }
    ensures { result ≡ cond (eqb c side.tuple) (suc (i % n)) (copy_index c) }
{
    if c == side.tuple {
        return i % n + 1;
    }
    c / COPY_STRIDE
}

// The number by which field i of copy c names.
fn field_number(
    rule: &[u8],
    part: Part,
    n: usize,
    c: usize,
    i: usize,
    inputs: &[u8; COPIES],
    numbers: &[u8; COPIES],
) -> usize
    requires part_copy { PartCopy rule.now part n c }
    requires i_bound { i < field_count rule.now part.side.first part.side.base part.side.tuple n c }
    requires numbered { Numbered part inputs.now numbers.now }
    ensures { (result ≡ part_field rule.now part inputs.now numbers.now n c i) × (result < 256) }
{
    let place = field_place(rule, part.side, n, c, i);
    let index = field_index(part.side, n, c, i);
    place_number(rule, part, index, place, inputs, numbers)
}

// Byte b of the head of copy c's record: the kind without its mark, the operator, and the numbers of fields and of attributes.
fn head_byte(rule: &[u8], side: Side, n: usize, c: usize, b: usize) -> usize
    requires copy_of { CopyOf rule.now side.first side.base side.tuple n c }
    requires b_bound { b < 4 }
    ensures { (result ≡ head_byte rule.now side.first side.base side.tuple n c b) × (result < 256) }
{
    if b == 2 {
        return field_count(rule, side, n, c);
    }
    let byte = side_byte(rule, side.first, c % COPY_STRIDE, b);
    if b == 0 {
        return byte % TEMPLATE_MARK;
    }
    byte
}

// Byte b of the record of copy c. Its attributes stand in the table.
fn record_byte(
    rule: &[u8],
    part: Part,
    n: usize,
    c: usize,
    b: usize,
    inputs: &[u8; COPIES],
    numbers: &[u8; COPIES],
) -> usize
    requires part_copy { PartCopy rule.now part n c }
    requires b_lt_pattern_bytes { b < pattern_bytes }
    requires numbered { Numbered part inputs.now numbers.now }
    ensures { (result ≡ part_record rule.now part inputs.now numbers.now n c b) × (result < 256) }
{
    if b < 4 {
        return head_byte(rule, part.side, n, c, b);
    }
    if b - 4 < field_count(rule, part.side, n, c) {
        return field_number(rule, part, n, c, b - 4, inputs, numbers);
    }
    UNUSED_BYTE
}

// Writes the records of a side's copies, one behind the other, from byte `at` on.
fn write_records(
    rule: &[u8],
    part: Part,
    n: usize,
    copies: &[u8; EXPANDED_LIMIT],
    inputs: &[u8; COPIES],
    numbers: &[u8; COPIES],
    at: usize,
    made: &mut [u8],
)
    requires part_copies { PartCopies rule.now part n copies.now }
    requires copies_len { length copies.now ≡ expanded_limit }
    requires numbered { Numbered part inputs.now numbers.now }
    requires count_in_bounds { at + pattern_bytes * part.count ≤ length made.old }
    ensures { Written at (pattern_bytes * part.count) (λ m. part_record rule.now part inputs.now
        numbers.now n (get_or copies.now (m / pattern_bytes) 0) (m % pattern_bytes)) made.old made.new }
{
    for m in 0..PATTERN_BYTES * part.count {
        let j = m / PATTERN_BYTES;
        let c = copies[j] as usize;
        let byte = record_byte(rule, part, n, c, m % PATTERN_BYTES, inputs, numbers);
        made[at + m] = byte as u8;
    }
}

// Byte b of the row of copy c in the table: two bytes for each attribute, the lower one first.
fn table_byte(rule: &[u8], side: Side, n: usize, c: usize, b: usize) -> usize
    requires copy_of { CopyOf rule.now side.first side.base side.tuple n c }
    requires b_lt_attribute_place_bytes { b < attribute_place_bytes }
    ensures { (result ≡ table_byte rule.now side.first n c b) × (result < 256) }
{
    let u = c % COPY_STRIDE;
    if side_byte(rule, side.first, u, 3) <= b / 2 {
        return UNUSED_BYTE;
    }
    let k = side_byte(rule, side.first, u, 10 + b / 2);
    let node = term_of(rule, n, k, c / COPY_STRIDE);
    if b % 2 == 0 {
        return node % 256;
    }
    node / 256
}

// Writes the rows of a side's copies in the table, one behind the other, from byte `at` on.
fn write_table(
    rule: &[u8],
    part: Part,
    n: usize,
    copies: &[u8; EXPANDED_LIMIT],
    at: usize,
    made: &mut [u8],
)
    requires part_copies { PartCopies rule.now part n copies.now }
    requires copies_len { length copies.now ≡ expanded_limit }
    requires count_le_expanded_limit { part.count ≤ expanded_limit }
    requires count_in_bounds { at + attribute_place_bytes * part.count ≤ length made.old }
    ensures { Written at (attribute_place_bytes * part.count) (λ m. table_byte rule.now part.side.first n
        (get_or copies.now (m / attribute_place_bytes) 0) (m % attribute_place_bytes)) made.old made.new }
{
    for m in 0..ATTRIBUTE_PLACE_BYTES * part.count {
        let j = m / ATTRIBUTE_PLACE_BYTES;
        let c = copies[j] as usize;
        let byte = table_byte(rule, part.side, n, c, m % ATTRIBUTE_PLACE_BYTES);
        made[at + m] = byte as u8;
    }
}

// Output place i of a side whose outputs the block has from byte `at` on.
fn output_byte(
    rule: &[u8],
    part: Part,
    at: usize,
    i: usize,
    inputs: &[u8; COPIES],
    numbers: &[u8; COPIES],
) -> usize
    requires part_outputs { PartOutputs rule.now part at }
    requires i_bound { i < 2 }
    requires numbered { Numbered part inputs.now numbers.now }
    ensures { (result ≡ part_output rule.now part inputs.now numbers.now at i) × (result < 256) }
{
    if i < output_count(rule) {
        return place_number(rule, part, 0, byte_at(rule, at + i), inputs, numbers);
    }
    UNUSED_BYTE
}

// Writes the header of the layout.
fn write_header(
    rule: &[u8],
    n: usize,
    source: Part,
    target: Part,
    inputs: &[u8; COPIES],
    numbers: &[u8; COPIES],
    made: &mut [u8],
)
    requires part_outputs { PartOutputs rule.now source 10 }
    requires part_outputs_2 { PartOutputs rule.now target 12 }
    requires numbered { Numbered source inputs.now inputs.now }
    requires numbered_2 { Numbered target inputs.now numbers.now }
    requires rule_bound { (node_count rule.now ≤ node_limit) × (n ≤ field_limit) }
    requires rule_header_bytes_in_bounds { rule_header_bytes ≤ length made.old }
    ensures { Written 0 rule_header_bytes (λ b. get_or (part_header rule.now n source target inputs.now
        numbers.now) b 0) made.old made.new }
{
    let nodes = node_count(rule) * (n + 1);
    let bytes = [
        76,
        71,
        RULE_LETTER as u8,
        0,
        EXPANDED_VERSION as u8,
        0,
        source.count as u8,
        target.count as u8,
        output_count(rule) as u8,
        (nodes % 256) as u8,
        output_byte(rule, source, SOURCE_OUTPUTS, 0, inputs, inputs) as u8,
        output_byte(rule, source, SOURCE_OUTPUTS, 1, inputs, inputs) as u8,
        output_byte(rule, target, TARGET_OUTPUTS, 0, inputs, numbers) as u8,
        output_byte(rule, target, TARGET_OUTPUTS, 1, inputs, numbers) as u8,
        (nodes / 256) as u8,
        0,
    ];
    copy(&mut made[0..RULE_HEADER_BYTES], &bytes);
}

// The source of the layout.
fn source_part(rule: &[u8], sources: usize) -> Part
    requires { rule_header_bytes ≤ length rule.now }
    ensures { result ≡ source_part rule.now sources }
{
    Part {
        side: source_side(rule),
        split: 0,
        inputs: sources,
        count: sources,
    }
}

// The target of the layout.
fn target_part(rule: &[u8], sources: usize, targets: usize) -> Part
    requires { rule_header_bytes ≤ length rule.now }
    ensures { result ≡ target_part rule.now sources targets }
{
    Part {
        side: target_side(rule),
        split: EXPANDED_LIMIT,
        inputs: sources,
        count: targets,
    }
}

// Where the table starts, behind the records and the nodes.
fn table_at(rule: &[u8], n: usize, sources: usize, targets: usize) -> usize
    requires rule_header_bytes_in_bounds { rule_header_bytes ≤ length rule.now }
    requires rule_bound { node_count rule.now ≤ node_limit }
    requires n_le_field_limit { n ≤ field_limit }
    requires sources_le_expanded_limit { sources ≤ expanded_limit }
    requires targets_le_expanded_limit { targets ≤ expanded_limit }
    ensures { result ≡ vertex_at (sources + targets) + node_bytes * (node_count rule.now * (n + 1)) }
{
    RULE_HEADER_BYTES
        + PATTERN_BYTES * (sources + targets)
        + NODE_BYTES * (node_count(rule) * (n + 1))
}

// Writes the layout of the fixed rule for n. The source's copies are the first s of `sources`, in visiting order, and `inputs` has their
// numbers; so have `targets`, t and `numbers` those of the target.
pub fn write_layout(
    rule: &[u8],
    n: usize,
    sources: &[u8; EXPANDED_LIMIT],
    inputs: &[u8; COPIES],
    s: usize,
    targets: &[u8; EXPANDED_LIMIT],
    numbers: &[u8; COPIES],
    t: usize,
    made: &mut [u8],
)
    requires block_layout { BlockLayout rule.now }
    requires le_n { (1 ≤ n) × (n ≤ field_limit) }
    requires ordered { Ordered (source_order (variadic_of rule.now) n) sources.now inputs.now s }
    requires s_le_expanded_limit { s ≤ expanded_limit }
    requires ordered_2 { Ordered (target_order (variadic_of rule.now) n) targets.now numbers.now t }
    requires t_le_expanded_limit { t ≤ expanded_limit }
    requires made_len { length made.old ≡ layout_bytes }
    ensures { Laid rule.now n made.old made.new }
{
    let source = source_part(rule, s);
    let target = target_part(rule, s, t);
    let first = RULE_HEADER_BYTES;
    let second = first + PATTERN_BYTES * s;
    let table = table_at(rule, n, s, t);
    let rows = table + ATTRIBUTE_PLACE_BYTES * s;
    write_header(rule, n, source, target, inputs, numbers, made);
    write_records(rule, source, n, sources, inputs, inputs, first, made);
    write_records(rule, target, n, targets, inputs, numbers, second, made);
    write_table(rule, source, n, sources, table, made);
    write_table(rule, target, n, targets, rows, made);
}
