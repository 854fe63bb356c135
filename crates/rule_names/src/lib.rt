// Whether some target place names every rule input and every target vertex. A place holds a number below PLACE_NUMBERS, so what is
// named is marked at its place number, once for all.
#![tactic(auto)]

ghost use Rattle.std.specs.Prelude.{◌≡◌, ◌<◌, length};
ghost use Rattle.definitions.specs.Lists.{all_below};
ghost use Rattle.definitions.specs.Rule.{place_numbers, source_count, target_count, made, target_of, named, all_named};
ghost use Rattle.rule_fields.specs.Fixed.{split_in, fixed_of};
ghost use Rattle.rule_fields.specs.Layout.{WholeRule, ReadableRule};
ghost use Rattle.rule_names.specs.Marks.{MarksAdded, NamesMarked, input_named};

use definitions::PLACE_NUMBERS;
use rule_fields::{
    is_rule_input, output_count, source_count, target_count, target_input, target_input_count,
    target_output, target_split,
};

// Marks each place number that an input of target vertex t holds.
fn mark_inputs(rule: &[u8], t: usize, used: &mut [bool; PLACE_NUMBERS])
    requires readable_rule { ReadableRule rule.now }
    requires t_bound { t < target_count rule.now }
    requires used_len { length used.old ≡ place_numbers }
    ensures { MarksAdded (split_in rule.now) (target_of (fixed_of rule.now) t).inputs used.old used.new }
{
    for i in 0..target_input_count(rule, t) {
        used[target_input(rule, t, i)] = true;
    }
}

// Marks each place number that a target output holds.
// A loop for both lists would take the reading of a place as a closure with clauses of its own, and be no plainer.
fn mark_outputs(rule: &[u8], used: &mut [bool; PLACE_NUMBERS])
    requires whole_rule { WholeRule rule.now }
    requires used_len { length used.old ≡ place_numbers }
    ensures { MarksAdded (split_in rule.now) (fixed_of rule.now).target_outputs used.old used.new }
{
    let outputs = output_count(rule);
    for i in 0..outputs {
        used[target_output(rule, i)] = true;
    }
}

// At p, whether some target place, an input or an output, holds the place number p.
fn marked(rule: &[u8]) -> [bool; PLACE_NUMBERS]
    requires { ReadableRule rule.now }
    ensures { NamesMarked rule.now result }
{
    let mut used = [false; PLACE_NUMBERS];
    for t in 0..target_count(rule) {
        mark_inputs(rule, t, &mut used);
    }
    mark_outputs(rule, &mut used);
    used
}

// Whether j is named where it is a rule input; used says which place numbers are named.
fn input_named(rule: &[u8], j: usize, used: &[bool; PLACE_NUMBERS]) -> bool
    requires whole_rule { WholeRule rule.now }
    requires j_bound { j < source_count rule.now }
    requires names_marked { NamesMarked rule.now used.now }
    ensures { result ≡ input_named (fixed_of rule.now) j }
{
    !is_rule_input(rule, j) || used[j]
}

// Whether every rule input and every target vertex is named by some target place.
pub fn all_named(rule: &[u8]) -> bool
    requires { ReadableRule rule.now }
    ensures { result ≡ all_named (fixed_of rule.now) }
{
    let used = marked(rule);
    let split = target_split(rule);
    let count = target_count(rule);
    (0..source_count(rule)).all(|j| input_named(rule, j, &used))
        && (0..count).all(|t| used[split + t])
}
