// What a place of the new table names: a rule input's image or a target vertex's slot, and for a place that named a replaced output the
// slot that takes its part.
#![tactic(auto)]

ghost use Rattle.std.specs.Prelude.{◌≡◌, cond, ℕ, ◌+◌, ◌<◌, ◌≤◌, eqb};
ghost use Rattle.definitions.specs.Rule.{side_capacity, rule_output_count, origin_by};
ghost use Rattle.rule_fields.specs.Fixed.{fixed_of};
ghost use Rattle.redirection.specs.Moves.{Arrays, Movable, resolve_in, redirect_by, move_of, moved};

use definitions::SIDE_CAPACITY;
use rule_fields::{source_output, target_output, target_split};

// What names `from` is to name `to`.
#[derive(Clone, Copy)]
pub struct Move {
    pub from: u16,
    pub to: u16,
}

// One move for each output of the rule; where it has one output only, both are that one.
#[derive(Clone, Copy)]
pub struct Redirection {
    pub first: Move,
    pub second: Move,
}

// The slot that place number p of the target names: below `split` the image of that rule input, from there on the slot of a target vertex.
pub fn place_of(
    images: &[u16; SIDE_CAPACITY],
    places: &[u16; SIDE_CAPACITY],
    split: usize,
    p: usize,
) -> u16
    requires arrays { Arrays images.now places.now }
    requires split_le_side_capacity { split ≤ side_capacity }
    requires p_bound { p < split + side_capacity }
    ensures { result ≡ resolve_in images.now places.now (origin_by split p) }
{
    if p < split {
        return images[p];
    }
    places[p - split]
}

// What output i of the rule moves: its source output's image to the slot that its target output names.
fn move_of(
    rule: &[u8],
    images: &[u16; SIDE_CAPACITY],
    places: &[u16; SIDE_CAPACITY],
    i: usize,
) -> Move
    requires movable { Movable rule.now images.now places.now }
    requires i_bound { i < rule_output_count rule.now }
    ensures { result ≡ move_of rule.now images.now places.now i }
{
    let output = source_output(rule, i);
    let named = target_output(rule, i);
    let from = images[output];
    let split = target_split(rule);
    let to = place_of(images, places, split, named);
    Move { from, to }
}

// All moves of a rewriting, to be made at once.
pub fn redirection_of(
    rule: &[u8],
    images: &[u16; SIDE_CAPACITY],
    places: &[u16; SIDE_CAPACITY],
) -> Redirection
    requires movable { Movable rule.now images.now places.now }
    requires rule_nonzero { 0 < rule_output_count rule.now }
    ensures { (v : ℕ) → moved result v
        ≡ redirect_by (resolve_in images.now places.now) (fixed_of rule.now) images.now v }
{
    let outputs = rule_fields::output_count(rule);
    let first = move_of(rule, images, places, 0);
    let second = move_of(rule, images, places, outputs - 1);
    Redirection { first, second }
}

// Where v is what moves, the slot that takes its part, and else `other`.
fn moved_by(step: Move, v: u16, other: u16) -> u16
    ensures { result ≡ cond (eqb v step.from) step.to other }
{
    if v == step.from {
        return step.to;
    }
    other
}

// What a place that named v names after the rewriting. Both moves look at v, so that none is made on what the other brought.
pub fn redirected(way: Redirection, v: u16) -> u16
    ensures { result ≡ moved way v }
{
    let second = way.second;
    let other = moved_by(second, v, v);
    let first = way.first;
    moved_by(first, v, other)
}
