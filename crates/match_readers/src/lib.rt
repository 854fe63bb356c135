// Whether the image of a source vertex is read elsewhere: by something other than the images of source vertices that are no rule inputs, or as
// a graph output. It is told from the rule, and from how often the image is named, which its slot stores; the graph is not looked at.
#![tactic(auto)]

ghost use Rattle.std.specs.Prelude.{◌≡◌, ◌<◌, ltb};
ghost use Rattle.definitions.specs.Rule.{source_count};
ghost use Rattle.rule_fields.specs.Fixed.{fixed_of};
ghost use Rattle.rule_nodes.specs.Working.{WorkingRule};
ghost use Rattle.match_readers.specs.Elsewhere.{ToldByCount};

use rule_uses::count_places;

// Whether an image is named from elsewhere, where so many places name it, and so many input places of the rule's own source name its
// vertex: these are among them.
fn exceeds(count: usize, places: usize) -> bool
    ensures { result ≡ ltb places count }
{
    places < count
}

// Whether the image of source vertex j is read elsewhere in a match where `count` places name it, whatever the graph.
pub fn named_elsewhere(rule: &[u8], j: usize, count: usize) -> bool
    requires working_rule { WorkingRule rule.now }
    requires j_bound { j < source_count rule.now }
    ensures { ToldByCount (fixed_of rule.now) j count result }
{
    let places = count_places(rule);
    exceeds(count, usize::from(places[j]))
}
