// Asking of a match in lent blocks whether the image of a source vertex is read elsewhere: the replies about the blocks, then 41, 42, or the
// answer. Nothing is written.
#![tactic(auto)]

ghost use Rattle.std.specs.Prelude.{◌≡◌, length};
ghost use Rattle.definitions.specs.Graph.{SoundGraph};
ghost use Rattle.definitions.specs.Rule.{SoundRule};
ghost use Rattle.definitions.specs.Operations.{map_bytes};
ghost use Rattle.definitions.specs.ReadElsewhere.{is_inner, asked_reply, elsewhere_reply};
ghost use Rattle.rule_fields.specs.Fixed.{fixed_of};
ghost use Rattle.rule_fields.specs.Layout.{WholeRule};

use blocks::check_blocks;
use definitions::Reply;
use fields::u16_at;
use graph_fields::stored_count;
use match_map::is_match;
use match_readers::named_elsewhere;
use reply::{Reason, answer_with, refuse};
use rule_fields::{is_rule_input, source_count};

// Whether it is a source vertex that is no rule input.
fn is_inner(rule: &[u8], vertex: usize) -> bool
    requires { WholeRule rule.now }
    ensures { result ≡ is_inner (fixed_of rule.now) vertex }
{
    if source_count(rule) <= vertex {
        return false;
    }
    !is_rule_input(rule, vertex)
}

// 41, then 42, and then the answer, for which the graph gives nothing but the count that the image's slot stores. Both refusals are looked for
// before either is told.
fn answer(graph: &[u8], rule: &[u8], map: &[u8], vertex: usize) -> Reply
    requires sound_graph { SoundGraph graph.now }
    requires sound_rule { SoundRule rule.now }
    requires map_len { length map.now ≡ map_bytes }
    ensures { result ≡ asked_reply graph.now rule.now map.now vertex }
{
    let matches = is_match(graph, rule, map);
    let inner = is_inner(rule, vertex);
    if !matches {
        return refuse(Reason::NotAMatch);
    }
    if !inner {
        return refuse(Reason::NoSuchVertex);
    }
    let image = u16_at(map, 2 * vertex);
    let count = stored_count(graph, image);
    answer_with(named_elsewhere(rule, vertex, count))
}

// The replies about the blocks come first.
pub fn is_read_elsewhere(graph: &[u8], rule: &[u8], map: &[u8], vertex: usize) -> Reply
    ensures { result ≡ elsewhere_reply graph.now rule.now map.now vertex }
{
    check_blocks(graph, rule, map)?;
    answer(graph, rule, map, vertex)
}
