// Whether some source vertex reaches every source output. What a vertex reaches is found from the lowest vertex up: inputs are lower.
#![tactic(auto)]

ghost use Rattle.std.specs.Prelude.{◌≡◌, false, ℕ, ◌<◌, get_or};
ghost use Rattle.definitions.specs.Lists.{all};
ghost use Rattle.definitions.specs.Rule.{source_count, reaches, connected};
ghost use Rattle.rule_fields.specs.Fixed.{fixed_of};
ghost use Rattle.rule_fields.specs.Layout.{LayeredRule};
ghost use Rattle.rule_connection.specs.Reached.{input_marked, reached_next};

use definitions::SIDE_CAPACITY;
use rule_fields::{output_count, source_count, source_input, source_input_count, source_output};

// Whether some input of source vertex w is marked in found.
fn has_marked_input(rule: &[u8], w: usize, found: &[bool; SIDE_CAPACITY]) -> bool
    requires layered_rule { LayeredRule rule.now }
    requires w_bound { w < source_count rule.now }
    ensures { result ≡ input_marked (fixed_of rule.now) found.now w }
{
    (0..source_input_count(rule, w)).any(|i| found[source_input(rule, w, i)])
}

// Whether v reaches source vertex w, where found says it of the lower vertices: inputs are lower.
fn reaches_next(rule: &[u8], v: usize, w: usize, found: &[bool; SIDE_CAPACITY]) -> bool
    requires layered_rule { LayeredRule rule.now }
    requires w_bound { w < source_count rule.now }
    ensures { result ≡ reached_next (fixed_of rule.now) v found.now w }
{
    v == w || has_marked_input(rule, w, found)
}

// At w, whether source vertex v reaches w.
fn reached_from(rule: &[u8], v: usize) -> [bool; SIDE_CAPACITY]
    requires { LayeredRule rule.now }
    ensures { (w : ℕ) → get_or result w false ≡ reaches (fixed_of rule.now) v w }
{
    let mut found = [false; SIDE_CAPACITY];
    for w in 0..source_count(rule) {
        found[w] = reaches_next(rule, v, w, &found);
    }
    found
}

// Whether v reaches every source output.
fn reaches_outputs(rule: &[u8], v: usize) -> bool
    requires { LayeredRule rule.now }
    ensures { result ≡ all (reaches (fixed_of rule.now) v) (fixed_of rule.now).source_outputs }
{
    let found = reached_from(rule, v);
    (0..output_count(rule)).all(|i| found[source_output(rule, i)])
}

// Whether some source vertex reaches every source output; with one output, that output itself does.
pub fn is_connected(rule: &[u8]) -> bool
    requires { LayeredRule rule.now }
    ensures { result ≡ connected (fixed_of rule.now) }
{
    (0..source_count(rule)).any(|v| reaches_outputs(rule, v))
}
