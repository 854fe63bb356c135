// How often the image of each source vertex of a rule may be named, counted once, so that one comparison decides whether an image is
// read from outside.
#![tactic(auto)]

ghost use Rattle.std.specs.Prelude.{◌≡◌, ℕ, ◌+◌, ◌<◌, length, get_or};
ghost use Rattle.definitions.specs.Lists.{member};
ghost use Rattle.definitions.specs.Rule.{side_capacity, source_count};
ghost use Rattle.definitions.specs.Match.{must_be_private, places_of};
ghost use Rattle.rule_fields.specs.Fixed.{fixed_of};
ghost use Rattle.laws.specs.Counted.{Counted};
ghost use Rattle.rule_fields.specs.Layout.{WholeRule};
ghost use Rattle.rule_uses.specs.Countable.{places_below, CountableRule, InputsNext};
ghost use Rattle.rule_uses.specs.Demands.{demand_of};

use definitions::SIDE_CAPACITY;
use rule_fields::{
    is_const, is_rule_input, output_count, source_count, source_input, source_input_count,
    source_output,
};

// Whether source vertex j is an output.
fn is_source_output(rule: &[u8], j: usize) -> bool
    requires { WholeRule rule.now }
    ensures { result ≡ member j (fixed_of rule.now).source_outputs }
{
    (0..output_count(rule)).any(|i| source_output(rule, i) == j)
}

// Whether nothing outside a match may need the image of source vertex j, which is neither a rule input nor an output nor a Const.
#[tactic(auto, unfolding(definitions::specs::Match::must_be_private, definitions::specs::Match::is_interior))]
fn must_be_private(rule: &[u8], j: usize) -> bool
    requires whole_rule { WholeRule rule.now }
    requires j_bound { j < source_count rule.now }
    ensures { result ≡ must_be_private (fixed_of rule.now) j }
{
    !is_rule_input(rule, j) && !is_const(rule, j) && !is_source_output(rule, j)
}

// Counts the input places of source vertex w, after those of the vertices below it.
fn add_source_inputs(rule: &[u8], w: usize, places: &mut [u16; SIDE_CAPACITY])
    requires { InputsNext rule.now w places.old }
    ensures { Counted side_capacity (places_below (fixed_of rule.now) (w + 1)) places.new }
{
    let inputs = source_input_count(rule, w);
    for i in 0..inputs {
        let input = source_input(rule, w, i);
        places[input] += 1;
    }
}

// How often input places of source vertices name each source vertex.
pub fn count_places(rule: &[u8]) -> [u16; SIDE_CAPACITY]
    requires { CountableRule rule.now }
    ensures { Counted side_capacity (places_of (fixed_of rule.now)) result }
{
    let mut places = [0u16; SIDE_CAPACITY];
    for w in 0..source_count(rule) {
        add_source_inputs(rule, w, &mut places);
    }
    places
}

// What each source vertex demands of the uses of its image; a Const demands nothing.
pub fn count_demands(rule: &[u8]) -> [u16; SIDE_CAPACITY]
    requires { CountableRule rule.now }
    ensures { (length result ≡ side_capacity)
        × ((j : ℕ) → j < source_count rule.now → get_or result j 0 ≡ demand_of (fixed_of rule.now) j) }
{
    let mut demands = count_places(rule);
    for j in 0..source_count(rule) {
        if must_be_private(rule, j) {
            demands[j] += 1;
        } else {
            demands[j] = 0;
        }
    }
    demands
}
