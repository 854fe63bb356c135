// The first source vertex of a rule that does not stand in visiting order: a vertex's inputs before the vertex, left to right, each
// vertex once, from the listed outputs. As long as the order is right, the vertices visited so far are 0, 1, .. next - 1 in this order,
// so the search keeps next alone, and enters each vertex at most once.
#![tactic(auto)]

ghost use Rattle.std.specs.Prelude.{◌≡◌, ◌≤◌, length};
ghost use Rattle.definitions.specs.Lists.{lowest};
ghost use Rattle.definitions.specs.Rule.{source_count, source_inputs, out_of_order};
ghost use Rattle.rule_fields.specs.Fixed.{fixed_of};
ghost use Rattle.rule_fields.specs.Layout.{LayeredRule};
ghost use Rattle.rule_order.specs.Order.{MayVisit, Visits, VisitsInputs};

use rule_fields::{output_count, source_input, source_input_count, source_output};

// Visits v, its inputs first, where next vertices are visited already, and gives how many are visited in order then. Where the order is
// wrong, the error is the first vertex in whose place another one is visited; and it stays wrong, from the same vertex on, since a visit
// only adds vertices after those that are visited.
#[cycle(visit_visit_inputs)]
fn visit(rule: &[u8], v: usize, next: usize) -> Result<usize, usize>
    requires { MayVisit rule.now v next }
    ensures { Visits rule.now v next result }
{
    if v < next {
        return Ok(next);
    }
    let after = visit_inputs(rule, v, 0, next)?;
    if v == after {
        Ok(after + 1)
    } else {
        Err(after)
    }
}

// Visits the inputs of v from place i on, with the same result.
#[cycle(visit_visit_inputs)]
fn visit_inputs(rule: &[u8], v: usize, i: usize, next: usize) -> Result<usize, usize>
    requires may_visit { MayVisit rule.now v next }
    requires i_in_bounds { i ≤ length (source_inputs (fixed_of rule.now) v) }
    ensures { VisitsInputs rule.now v i next result }
{
    if i == source_input_count(rule, v) {
        return Ok(next);
    }
    let after = visit(rule, source_input(rule, v, i), next)?;
    visit_inputs(rule, v, i + 1, after)
}

// The first source vertex in whose place the traversal from the outputs visits another, or before which it ends; or the number of
// source vertices.
pub fn first_misplaced(rule: &[u8]) -> usize
    requires { LayeredRule rule.now }
    ensures { result ≡ lowest (out_of_order (fixed_of rule.now)) (source_count rule.now) }
{
    let mut next = 0;
    for i in 0..output_count(rule) {
        match visit(rule, source_output(rule, i), next) {
            Ok(after) => next = after,
            Err(misplaced) => return misplaced,
        }
    }
    next
}
