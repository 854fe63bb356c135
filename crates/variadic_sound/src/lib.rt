// Whether a fixed rule that was made of a variadic one is sound: the tests of a lent rule, on the made layout. What its maker leaves is not asked
// again: places that are unused, and expressions that are any as a whole or definite.
#![tactic(auto)]

ghost use Rattle.std.specs.Prelude.{◌≡◌, ◌+◌, ◌<◌, leb, ltb, length, get_or};
ghost use Rattle.definitions.specs.Lists.{all, all_below};
ghost use Rattle.definitions.specs.Fields.{byte_at};
ghost use Rattle.definitions.specs.Rule.{side_capacity, source_count, target_count, vertex_at};
ghost use Rattle.definitions.specs.FixedRule.{source_uses_fit, target_uses_fit, sound_fixed};
ghost use Rattle.rule_fields.specs.Fixed.{nodes_in, expression_in, attribute_node, fixed_of};
ghost use Rattle.rule_fields.specs.Layout.{WholeRule};
ghost use Rattle.rule_accesses.specs.Access.{top_access};
ghost use Rattle.variadic_sound.specs.Judged.{Judgeable, TopsBelow, TopsOf};

use definitions::{FORM_ACCESS, PATTERN_BYTES, RULE_HEADER_BYTES};
use fields::byte_at;
use rule_fields::{
    fixed_node_count, output_count, source_attribute, source_count, source_output,
    target_attribute, target_count,
};
use rule_nodes::{FIXED_NODE_LIMIT, node_byte, node_form, node_left, node_right};
use rule_order::first_misplaced;
use rule_outputs::outputs_fit;
use rule_records::bad_vertex;

// ---- the highest access of each node

// One more than the highest source vertex that node k accesses, itself or through the nodes that it names, or 0 where it accesses none.
fn node_top(rule: &[u8], k: usize, tops: &[u16; FIXED_NODE_LIMIT]) -> usize
    requires judgeable { Judgeable rule.now }
    requires k_bound { k < nodes_in rule.now }
    requires tops_below { TopsBelow rule.now k tops.now }
    ensures { (result ≡ top_access (expression_in rule.now k)) × (result < 65536) }
{
    let form = node_form(rule, k);
    if form < FORM_ACCESS {
        return 0;
    }
    if form == FORM_ACCESS {
        return node_byte(rule, k, 1) + 1;
    }
    let left = node_left(rule, k);
    let right = node_right(rule, k);
    usize::from(tops[left]).max(usize::from(tops[right]))
}

// The same for every node, each found once from those of its operands.
fn access_tops(rule: &[u8]) -> [u16; FIXED_NODE_LIMIT]
    requires { Judgeable rule.now }
    ensures { TopsOf rule.now result }
{
    let mut tops = [0u16; FIXED_NODE_LIMIT];
    for k in 0..fixed_node_count(rule) {
        tops[k] = node_top(rule, k, &tops) as u16;
    }
    tops
}

// ---- the attributes of each vertex

// One more than the highest source vertex that attribute i of vertex v accesses; target vertices are counted behind the source's.
fn attribute_top(rule: &[u8], tops: &[u16; FIXED_NODE_LIMIT], v: usize, i: usize) -> usize
    requires judgeable { Judgeable rule.now }
    requires tops_of { TopsOf rule.now tops.now }
    requires v_bound { v < source_count rule.now + target_count rule.now }
    requires i_bound { i < byte_at rule.now (vertex_at v + 3) }
    ensures { result ≡ get_or tops.now (attribute_node rule.now v i) 0 }
{
    let sources = source_count(rule);
    if v < sources {
        let node = source_attribute(rule, v, i);
        usize::from(tops[node])
    } else {
        let node = target_attribute(rule, v - sources, i);
        usize::from(tops[node])
    }
}

// Whether every attribute of vertex v accesses vertices below `limit` only.
fn attributes_below(rule: &[u8], tops: &[u16; FIXED_NODE_LIMIT], v: usize, limit: usize) -> bool
    requires judgeable { Judgeable rule.now }
    requires tops_of { TopsOf rule.now tops.now }
    requires v_bound { v < source_count rule.now + target_count rule.now }
    ensures { result ≡ all_below (λ i. leb (get_or tops.now (attribute_node rule.now v i) 0) limit) (byte_at rule.now (vertex_at v + 3)) }
{
    let count = byte_at(rule, RULE_HEADER_BYTES + PATTERN_BYTES * v + 3);
    (0..count).all(|i| attribute_top(rule, tops, v, i) <= limit)
}

// Whether every attribute of source vertex j accesses lower vertices only.
fn source_uses_fit(rule: &[u8], tops: &[u16; FIXED_NODE_LIMIT], j: usize) -> bool
    requires judgeable { Judgeable rule.now }
    requires tops_of { TopsOf rule.now tops.now }
    requires j_bound { j < source_count rule.now }
    ensures { result ≡ source_uses_fit (fixed_of rule.now) j }
{
    attributes_below(rule, tops, j, j)
}

// Whether every attribute of target vertex t accesses source vertices.
fn target_uses_fit(rule: &[u8], tops: &[u16; FIXED_NODE_LIMIT], t: usize) -> bool
    requires judgeable { Judgeable rule.now }
    requires tops_of { TopsOf rule.now tops.now }
    requires t_bound { t < target_count rule.now }
    ensures { result ≡ target_uses_fit (fixed_of rule.now) t }
{
    let sources = source_count(rule);
    attributes_below(rule, tops, sources + t, sources)
}

// Whether those of all source vertices do.
fn sources_use_fit(rule: &[u8], tops: &[u16; FIXED_NODE_LIMIT]) -> bool
    requires judgeable { Judgeable rule.now }
    requires tops_of { TopsOf rule.now tops.now }
    ensures { result ≡ all_below (source_uses_fit (fixed_of rule.now)) (length (fixed_of rule.now).source) }
{
    (0..source_count(rule)).all(|j| source_uses_fit(rule, tops, j))
}

// Whether those of all target vertices do.
fn targets_use_fit(rule: &[u8], tops: &[u16; FIXED_NODE_LIMIT]) -> bool
    requires judgeable { Judgeable rule.now }
    requires tops_of { TopsOf rule.now tops.now }
    ensures { result ≡ all_below (target_uses_fit (fixed_of rule.now)) (length (fixed_of rule.now).target) }
{
    (0..target_count(rule)).all(|t| target_uses_fit(rule, tops, t))
}

// ---- the rule

// Whether every source output is a source vertex.
fn outputs_inside(rule: &[u8]) -> bool
    requires { WholeRule rule.now }
    ensures { result ≡ all (λ o. ltb o (length (fixed_of rule.now).source)) (fixed_of rule.now).source_outputs }
{
    let sources = source_count(rule);
    (0..output_count(rule)).all(|i| source_output(rule, i) < sources)
}

// The tests in document 01's order, each of which takes from those before it what it reads.
pub fn is_sound(rule: &[u8]) -> bool
    requires { Judgeable rule.now }
    ensures { result ≡ sound_fixed side_capacity (fixed_of rule.now) }
{
    let sources = source_count(rule);
    if sources == 0 {
        return false;
    }
    if !outputs_inside(rule) {
        return false;
    }
    if bad_vertex(rule) < sources + target_count(rule) {
        return false;
    }
    if first_misplaced(rule) < sources {
        return false;
    }
    if !outputs_fit(rule) {
        return false;
    }
    let tops = access_tops(rule);
    if !sources_use_fit(rule, &tops) {
        return false;
    }
    targets_use_fit(rule, &tops)
}
