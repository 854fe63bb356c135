// The copies of a variadic rule's vertices in visiting order, on either side: what a copy names comes before the copy, left to right, each
// copy once, from the listed outputs. A shared vertex is its own number, and copy i of a template v is v + 16 i.
#![tactic(auto)]

ghost use Rattle.std.specs.Prelude.{◌≡◌, ◌+◌, ◌*◌, ◌<◌, ◌≤◌, length, IfSome};
ghost use Rattle.definitions.specs.Graph.{input_limit};
ghost use Rattle.definitions.specs.Rule.{rule_header_bytes, pattern_bytes, target_base, source_count, target_count, vertex_at};
ghost use Rattle.definitions.specs.Fields.{byte_at};
ghost use Rattle.definitions.specs.Variadic.{original, source_order, target_order};
ghost use Rattle.definitions.specs.VariadicBlock.{field_limit, expanded_limit, variadic_of};
ghost use Rattle.variadic_order.specs.Order.{Ordered};
ghost use Rattle.variadic_order.specs.Sides.{source_side, target_side, place_of, side_copy, place_names, field_count, field_names, SideLayout, OutputLayout};
ghost use Rattle.variadic_order.specs.Visits.{SideCopy, SidePlace, Visited, Names, Visits, VisitsNames, SideOutputs, SideOrdered, visited_count};

use definitions::{PATTERN_BYTES, RULE_HEADER_BYTES, SIDE_CAPACITY, SIDE_LIMIT, TARGET_BASE};
use fields::byte_at;
use rule_fields::{output_count, source_count};
use variadic_header::{FIELD_LIMIT, TEMPLATE_MARK};

// From a copy of a template to the next.
pub const COPY_STRIDE: usize = SIDE_LIMIT;
// Copies are below this: a shared vertex has the index 0, and a template's copies those from 1 to the highest.
pub const COPIES: usize = COPY_STRIDE * (FIELD_LIMIT + 1);
// A fixed rule has at most so many vertices a side.
pub const EXPANDED_LIMIT: usize = SIDE_CAPACITY;

// A side of the block: the record of its vertex u is record first + u; an input place from base on names vertex place - base, and a
// lower one a rule input, which is not visited; tuple is the number of its named Tuple.
#[derive(Clone, Copy)]
pub struct Side {
    pub first: usize,
    pub base: usize,
    pub tuple: usize,
}

// The first `count` copies are those of the side in visiting order, and numbers[c] is one more than the number of copy c, or 0 where it
// has none. Where there are more than 64 copies, count is 65. The count stands beside arrays of a fixed length, since there is no heap.
#[derive(Drop)]
pub struct Order {
    pub copies: [u8; EXPANDED_LIMIT],
    pub numbers: [u8; COPIES],
    pub count: usize,
}

// The source's side of the block.
pub fn source_side(rule: &[u8]) -> Side
    requires { rule_header_bytes ≤ length rule.now }
    ensures { result ≡ source_side rule.now }
{
    Side {
        first: 0,
        base: 0,
        tuple: byte_at(rule, 14),
    }
}

// The target's side of the block: its records follow the source's.
pub fn target_side(rule: &[u8]) -> Side
    requires { rule_header_bytes ≤ length rule.now }
    ensures { result ≡ target_side rule.now }
{
    Side {
        first: source_count(rule),
        base: TARGET_BASE,
        tuple: byte_at(rule, 15),
    }
}

// Byte i of the record of vertex u of the side.
pub fn side_byte(rule: &[u8], first: usize, u: usize, i: usize) -> usize
    requires i_lt_pattern_bytes { i < pattern_bytes }
    requires pattern_bytes_in_bounds { vertex_at (first + u) + pattern_bytes ≤ length rule.now }
    ensures { (result ≡ byte_at rule.now (vertex_at (first + u) + i)) × (result < 256) }
{
    byte_at(rule, RULE_HEADER_BYTES + PATTERN_BYTES * (first + u) + i)
}

// How many fields copy c has; each field of the named Tuple counts n times.
pub fn field_count(rule: &[u8], side: Side, n: usize, c: usize) -> usize
    requires { SideCopy rule.now side.first side.base n c }
    ensures { (result ≡ field_count rule.now side.first side.base side.tuple n c) × (result ≤ input_limit * field_limit) }
{
    let places = side_byte(rule, side.first, c % COPY_STRIDE, 2);
    if c == side.tuple { places * n } else { places }
}

// Vertex u of the side where the index is `index`: a template's copy of that index, or u itself, which is shared.
pub fn copy_of(rule: &[u8], first: usize, u: usize, index: usize) -> usize
    requires pattern_bytes_in_bounds { vertex_at (first + u) + pattern_bytes ≤ length rule.now }
    requires index_le_field_limit { index ≤ field_limit }
    ensures { result ≡ side_copy rule.now first index u }
{
    if side_byte(rule, first, u, 0) < TEMPLATE_MARK {
        u
    } else {
        u + COPY_STRIDE * index
    }
}

// The copy that input place i of vertex u names where the index is `index`, or none where it names a rule input.
fn named_by(rule: &[u8], side: Side, u: usize, i: usize, index: usize) -> Option<usize>
    requires { SidePlace rule.now side.first side.base u i index }
    ensures { Names (place_names rule.now side.first side.base index
        (place_of rule.now side.first u i)) u result }
{
    let place = side_byte(rule, side.first, u, 4 + i);
    if place < side.base {
        None
    } else {
        Some(copy_of(rule, side.first, place - side.base, index))
    }
}

// The copy that field i of copy c names, or none where it names a rule input.
fn name_at(rule: &[u8], side: Side, n: usize, c: usize, i: usize) -> Option<usize>
    requires side_copy { SideCopy rule.now side.first side.base n c }
    requires i_bound { i < field_count rule.now side.first side.base side.tuple n c }
    ensures { Names (field_names rule.now side.first side.base side.tuple n c i) (original c) result }
{
    if c == side.tuple {
        named_by(rule, side, c % COPY_STRIDE, i / n, i % n + 1)
    } else {
        named_by(rule, side, c % COPY_STRIDE, i, c / COPY_STRIDE)
    }
}

// Visits copy c, what it names first, where `count` copies are visited already, and counts those that are visited then, or gives none where
// they are too many; a copy that has its number is not entered again.
#[cycle(visit_visit_names)]
fn visit(
    rule: &[u8],
    side: Side,
    n: usize,
    c: usize,
    count: usize,
    copies: &mut [u8; EXPANDED_LIMIT],
    numbers: &mut [u8; COPIES],
) -> Option<usize>
    requires side_copy { SideCopy rule.now side.first side.base n c }
    requires visited { Visited copies.old numbers.old count }
    ensures visits { Visits rule.now side.first side.base side.tuple n c copies.old numbers.old
        count copies.new numbers.new (visited_count result) }
    ensures few { IfSome result (λ after. after ≤ expanded_limit) }
{
    if numbers[c] != 0 {
        return Some(count);
    }
    let after = visit_names(rule, side, n, c, 0, count, copies, numbers)?;
    if EXPANDED_LIMIT <= after {
        return None;
    }
    copies[after] = c as u8;
    numbers[c] = (after + 1) as u8;
    Some(after + 1)
}

// Visits what copy c names, from field i on.
#[cycle(visit_visit_names)]
fn visit_names(
    rule: &[u8],
    side: Side,
    n: usize,
    c: usize,
    i: usize,
    count: usize,
    copies: &mut [u8; EXPANDED_LIMIT],
    numbers: &mut [u8; COPIES],
) -> Option<usize>
    requires side_copy { SideCopy rule.now side.first side.base n c }
    requires i_bound { i ≤ field_count rule.now side.first side.base side.tuple n c }
    requires visited { Visited copies.old numbers.old count }
    ensures visits { VisitsNames rule.now side.first side.base side.tuple n c i copies.old
        numbers.old count copies.new numbers.new (visited_count result) }
    ensures few { IfSome result (λ after. after ≤ expanded_limit) }
{
    if i == field_count(rule, side, n, c) {
        return Some(count);
    }
    match name_at(rule, side, n, c, i) {
        None => visit_names(rule, side, n, c, i + 1, count, copies, numbers),
        Some(named) => {
            let after = visit(rule, side, n, named, count, copies, numbers)?;
            visit_names(rule, side, n, c, i + 1, after, copies, numbers)
        }
    }
}

// The copies of a side in visiting order, from the outputs that the block lists from byte `at` on.
fn order_of(rule: &[u8], side: Side, at: usize, n: usize) -> Order
    requires { SideOutputs rule.now side.first side.base at n }
    ensures { SideOrdered rule.now side.first side.base side.tuple at n result.copies result.numbers result.count }
{
    let mut copies = [0; EXPANDED_LIMIT];
    let mut numbers = [0; COPIES];
    let mut count = 0;
    for i in 0..output_count(rule) {
        let place = byte_at(rule, at + i);
        if side.base <= place {
            let u = place - side.base;
            match visit(rule, side, n, u, count, &mut copies, &mut numbers) {
                Some(after) => count = after,
                None => {
                    count = EXPANDED_LIMIT + 1;
                    break;
                }
            }
        }
    }
    Order {
        copies,
        numbers,
        count,
    }
}

// The copies of the source vertices in visiting order, in the fixed rule for n.
pub fn source_order(rule: &[u8], n: usize) -> Order
    requires side_layout { SideLayout rule.now 0 0 (source_count rule.now) }
    requires output_layout { OutputLayout rule.now 10 0 (source_count rule.now) }
    requires le_n { (1 ≤ n) × (n ≤ field_limit) }
    ensures { Ordered (source_order (variadic_of rule.now) n) result.copies result.numbers result.count }
{
    order_of(rule, source_side(rule), 10, n)
}

// The copies of the target vertices in visiting order, in the fixed rule for n.
pub fn target_order(rule: &[u8], n: usize) -> Order
    requires side_layout { SideLayout rule.now (source_count rule.now) target_base (target_count rule.now) }
    requires output_layout { OutputLayout rule.now 12 target_base (target_count rule.now) }
    requires le_n { (1 ≤ n) × (n ≤ field_limit) }
    ensures { Ordered (target_order (variadic_of rule.now) n) result.copies result.numbers result.count }
{
    order_of(rule, target_side(rule), 12, n)
}
