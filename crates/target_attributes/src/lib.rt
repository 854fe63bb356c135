// The attributes of the target vertices: their expressions' results for the match, read from the old table, as 32-bit words.
#![tactic(auto)]

ghost use Rattle.std.specs.Prelude.{◌≡◌, ◌<◌};
ghost use Rattle.definitions.specs.Graph.{graph_of};
ghost use Rattle.definitions.specs.Rule.{target_count, target_of};
ghost use Rattle.definitions.specs.Match.{read_attribute};
ghost use Rattle.rule_fields.specs.Fixed.{fixed_of};
ghost use Rattle.numbers.specs.Value.{value_of};
ghost use Rattle.attributes.specs.Evaluation.{Evaluation};
ghost use Rattle.target_attributes.specs.Fitness.{target_fitness, Told};

use attributes::target_value;
use definitions::{ATTRIBUTE_LIMIT, SIDE_CAPACITY};
use new_words::{is_fit, word_of};
use rule_fields::{target_attribute_count, target_count, target_kind};

// The first that is unfit, by its place among those that were looked at.
#[derive(Clone, Copy)]
pub struct Lack {
    pub place: usize,
}

// A result as one of any size.
fn widened(value: Option<i32>) -> Option<i128>
    ensures { value_of result ≡ value_of value }
{
    match value {
        None => None,
        Some(number) => Some(i128::from(number)),
    }
}

// The words of the attributes of target vertex t, with zero in the unused places, or the first of them that is unfit.
pub fn vertex_words(
    graph: &[u8],
    rule: &[u8],
    images: &[u16; SIDE_CAPACITY],
    t: usize,
) -> Result<[u32; ATTRIBUTE_LIMIT], Lack>
    requires evaluation { Evaluation graph.now rule.now images.now }
    requires t_bound { t < target_count rule.now }
    ensures { Told (read_attribute (graph_of graph.now) images.now)
        (target_of (fixed_of rule.now) t) result }
{
    let kind = target_kind(rule, t);
    let count = target_attribute_count(rule, t);
    let mut words = [0u32; ATTRIBUTE_LIMIT];
    for i in 0..count {
        let value = target_value(graph, rule, images, t, i);
        if !is_fit(kind, widened(value)) {
            return Err(Lack { place: i });
        }
        words[i] = word_of(value);
    }
    Ok(words)
}

// Whether every attribute of every target vertex has a fit result, or the first target vertex with one that has none.
pub fn all_fit(graph: &[u8], rule: &[u8], images: &[u16; SIDE_CAPACITY]) -> Result<(), Lack>
    requires { Evaluation graph.now rule.now images.now }
    ensures { result ≡ target_fitness (read_attribute (graph_of graph.now) images.now)
        (fixed_of rule.now) }
{
    let count = target_count(rule);
    for t in 0..count {
        let found = vertex_words(graph, rule, images, t);
        if found.is_err() {
            return Err(Lack { place: t });
        }
    }
    Ok(())
}
