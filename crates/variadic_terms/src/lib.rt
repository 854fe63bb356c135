// The expression nodes of a fixed rule, made of those of a variadic rule's block and written one after the other.
#![tactic(auto)]

ghost use Rattle.std.specs.Prelude.{◌≡◌, false, ℕ, ◌+◌, ◌*◌, ◌<◌, ◌≤◌, eqb, length};
ghost use Rattle.definitions.specs.Rule.{node_bytes, node_limit, side_capacity, source_count, node_count, node_at, form_access, form_sum, node_form};
ghost use Rattle.definitions.specs.Variadic.{source_copy};
ghost use Rattle.definitions.specs.VariadicBlock.{field_limit, variadic_of};
ghost use Rattle.variadic_terms.specs.Terms.{term_bytes, any_term, constant_term, operation_term, term_of, bottom, constant_at, access_at, plain_term, sum_term, term_at, number_in, copy_limit, Expandable, TermWritten, TermsWritten};

use definitions::{
    FORM_ACCESS, FORM_ADD, FORM_ANY, FORM_CONSTANT, NODE_BYTES, PATTERN_BYTES, RULE_HEADER_BYTES,
};
use fields::byte_at;
use rule_fields::{node_count, source_count, target_count};
use rule_nodes::{node_at, node_byte, node_form};
use variadic_header::{FORM_INDEX, FORM_SUM};
use variadic_order::{COPIES, copy_of};

// A node of the fixed rule: its form, the low bytes of its operands, or what is accessed, and its last four bytes, which are a constant's
// number, or start with the high bytes of the operands.
#[derive(Drop)]
pub struct Term {
    pub form: u8,
    pub left: u8,
    pub right: u8,
    pub number: [u8; 4],
}

// The node any.
fn any_term() -> Term
    ensures { result ≡ any_term }
{
    Term {
        form: FORM_ANY as u8,
        left: 0,
        right: 0,
        number: [0u8, 0u8, 0u8, 0u8],
    }
}

// The constant whose number has these bytes, the lowest one first.
fn constant_term(a: u8, b: u8, c: u8, d: u8) -> Term
    ensures { result ≡ constant_term a b c d }
{
    Term {
        form: FORM_CONSTANT as u8,
        left: 0,
        right: 0,
        number: [a, b, c, d],
    }
}

// An operation on two nodes of the fixed rule. There may be more than 256 of these, so their numbers have two bytes.
fn operation_term(form: u8, left: usize, right: usize) -> Term
    requires left_bound { left < 65536 }
    requires right_bound { right < 65536 }
    ensures { result ≡ operation_term form left right }
{
    Term {
        form,
        left: (left % 256) as u8,
        right: (right % 256) as u8,
        number: [(left / 256) as u8, (right / 256) as u8, 0u8, 0u8],
    }
}

// The number of copy c among the source vertices of the fixed rule, or how many these are where it is none of them.
fn copy_number(numbers: &[u8; COPIES], count: usize, c: usize) -> u8
    requires count_le_side_capacity { count ≤ side_capacity }
    requires c_lt_copy_limit { c < copy_limit }
    ensures { result ≡ number_in numbers.now count c }
{
    let number = numbers[c];
    if number == 0 {
        return count as u8;
    }
    number - 1
}

// The number of source vertex v where the index is i: of a template the copy of that index counts.
fn accessed(rule: &[u8], numbers: &[u8; COPIES], count: usize, v: usize, i: usize) -> u8
    requires expandable { Expandable rule.now }
    requires i_le_field_limit { i ≤ field_limit }
    requires count_le_side_capacity { count ≤ side_capacity }
    requires v_bound { v < source_count rule.now }
    ensures { (n : ℕ) → result ≡ number_in numbers.now count (source_copy (variadic_of rule.now) n i v) }
{
    copy_number(numbers, count, copy_of(rule, 0, v, i))
}

// The node of the fixed rule that stands for node k where the index is `index`. Of a sum it is the last one, whatever the index.
pub fn term_of(rule: &[u8], n: usize, k: usize, index: usize) -> usize
    requires k_in_bounds { node_at rule.now (k + 1) ≤ length rule.now }
    requires k_lt_node_limit { k < node_limit }
    requires n_le_field_limit { n ≤ field_limit }
    requires index_le_field_limit { index ≤ field_limit }
    ensures { (result ≡ term_of rule.now n k index) × (result < 512) }
{
    let vertices = source_count(rule) + target_count(rule);
    let form = byte_at(
        rule,
        RULE_HEADER_BYTES + PATTERN_BYTES * vertices + NODE_BYTES * k,
    );
    let first = k * (n + 1);
    if form == FORM_SUM {
        first + n
    } else {
        first + index
    }
}

// The constant that node k is.
fn same_constant(rule: &[u8], k: usize) -> Term
    requires expandable { Expandable rule.now }
    requires k_bound { k < node_count rule.now }
    ensures { result ≡ constant_at rule.now k }
{
    let at = node_at(rule, k);
    constant_term(rule[at + 4], rule[at + 5], rule[at + 6], rule[at + 7])
}

// The access that node k is, where the index is i.
fn access_term(rule: &[u8], numbers: &[u8; COPIES], count: usize, k: usize, i: usize) -> Term
    requires expandable { Expandable rule.now }
    requires i_le_field_limit { i ≤ field_limit }
    requires count_le_side_capacity { count ≤ side_capacity }
    requires k_bound { k < node_count rule.now }
    requires k_value { node_form rule.now k ≡ form_access }
    ensures { (n : ℕ) → result ≡ access_at rule.now (number_in numbers.now count) n k i }
{
    let vertex = node_byte(rule, k, 1);
    let place = node_byte(rule, k, 2);
    Term {
        form: FORM_ACCESS as u8,
        left: accessed(rule, numbers, count, vertex, i),
        right: place as u8,
        number: [0u8, 0u8, 0u8, 0u8],
    }
}

// Node k, which is no sum, where the index is i.
fn plain_term(
    rule: &[u8],
    numbers: &[u8; COPIES],
    n: usize,
    count: usize,
    k: usize,
    i: usize,
) -> Term
    requires expandable { Expandable rule.now }
    requires i_le_n { i ≤ n }
    requires n_le_field_limit { n ≤ field_limit }
    requires count_le_side_capacity { count ≤ side_capacity }
    requires k_bound { k < node_count rule.now }
    requires form_sum_value { eqb (node_form rule.now k) form_sum ≡ false }
    ensures { result ≡ plain_term rule.now (number_in numbers.now count) n k i }
{
    let form = node_form(rule, k);
    if form == FORM_ANY {
        return any_term();
    }
    if form == FORM_CONSTANT {
        return same_constant(rule, k);
    }
    if form == FORM_ACCESS {
        return access_term(rule, numbers, count, k, i);
    }
    if form == FORM_INDEX {
        return constant_term(i as u8, 0, 0, 0);
    }
    let left = term_of(rule, n, node_byte(rule, k, 1), i);
    let right = term_of(rule, n, node_byte(rule, k, 2), i);
    operation_term(form as u8, left, right)
}

// The first node that is no sum on the way from node k down its operands: with one term each, sums of sums are what that node is.
fn below_sums(rule: &[u8], k: usize) -> usize
    requires expandable { Expandable rule.now }
    requires k_bound { k < node_count rule.now }
    ensures { (result ≡ bottom rule.now k) × (result ≤ k) × (eqb (node_form rule.now result) form_sum ≡ false) }
{
    let mut x = k;
    // From a node to its operand: no range has these numbers.
    while node_form(rule, x) == FORM_SUM {
        x = node_byte(rule, x, 1);
    }
    x
}

// What the sum k has for index i: the sum of its terms from 1 to i.
fn sum_term(rule: &[u8], numbers: &[u8; COPIES], n: usize, count: usize, k: usize, i: usize) -> Term
    requires expandable { Expandable rule.now }
    requires i_le_n { i ≤ n }
    requires n_le_field_limit { n ≤ field_limit }
    requires count_le_side_capacity { count ≤ side_capacity }
    requires k_bound { k < node_count rule.now }
    requires k_value { node_form rule.now k ≡ form_sum }
    ensures { result ≡ sum_term rule.now (number_in numbers.now count) n k i }
{
    if i == 0 {
        return any_term();
    }
    if n == 1 {
        return plain_term(rule, numbers, n, count, below_sums(rule, k), i);
    }
    if i == 1 {
        return any_term();
    }
    let x = node_byte(rule, k, 1);
    let term = term_of(rule, n, x, i);
    if i == 2 {
        return operation_term(FORM_ADD as u8, term_of(rule, n, x, 1), term);
    }
    operation_term(FORM_ADD as u8, k * (n + 1) + (i - 1), term)
}

// Node k where the index is i.
fn term_at(rule: &[u8], numbers: &[u8; COPIES], n: usize, count: usize, k: usize, i: usize) -> Term
    requires expandable { Expandable rule.now }
    requires i_le_n { i ≤ n }
    requires n_le_field_limit { n ≤ field_limit }
    requires count_le_side_capacity { count ≤ side_capacity }
    requires k_bound { k < node_count rule.now }
    ensures { result ≡ term_at rule.now (number_in numbers.now count) n k i }
{
    if node_form(rule, k) == FORM_SUM {
        return sum_term(rule, numbers, n, count, k, i);
    }
    plain_term(rule, numbers, n, count, k, i)
}

// Writes a node into its 8 bytes.
fn put_term(part: &mut [u8], term: Term)
    requires part_len { length part.old ≡ node_bytes }
    requires term_len { length «term».number ≡ 4 }
    ensures { part.new ≡ term_bytes «term» }
{
    let number = term.number;
    part[0] = term.form;
    part[1] = term.left;
    part[2] = term.right;
    part[3] = 0;
    part[4] = number[0];
    part[5] = number[1];
    part[6] = number[2];
    part[7] = number[3];
}

// Writes node m.
fn write_term(part: &mut [u8], m: usize, term: Term)
    requires m_in_bounds { node_bytes * (m + 1) ≤ length part.old }
    requires term_len { length «term».number ≡ 4 }
    ensures { TermWritten m «term» part.old part.new }
{
    let at = NODE_BYTES * m;
    let end = at + NODE_BYTES;
    put_term(&mut part[at..end], term);
}

// Writes all nodes of the fixed rule for n. `numbers` has one more than the number of each copy of a source vertex, or 0 where it has none, and
// there are `count` source vertices.
pub fn write_terms(rule: &[u8], n: usize, numbers: &[u8; COPIES], count: usize, part: &mut [u8])
    requires expandable { Expandable rule.now }
    requires n_le_field_limit { n ≤ field_limit }
    requires count_le_side_capacity { count ≤ side_capacity }
    requires part_len { length part.old ≡ node_bytes * (node_count rule.now * (n + 1)) }
    ensures { TermsWritten rule.now (number_in numbers.now count) n part.old part.new }
{
    let width = n + 1;
    for m in 0..node_count(rule) * width {
        let term = term_at(rule, numbers, n, count, m / width, m % width);
        write_term(part, m, term);
    }
}
