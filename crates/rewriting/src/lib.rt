// Rewriting in lent blocks: the replies about the blocks, then 4 to 7, in order. The new table is made beside the old one and judged there; the lent blocks are
// written last, once the answer is sure.
#![tactic(auto)]

ghost use Rattle.std.specs.Prelude.{◌≡◌, take};
ghost use Rattle.definitions.specs.Graph.{graph_of};
ghost use Rattle.definitions.specs.Rule.{source_count};
ghost use Rattle.definitions.specs.Operations as operation;
ghost use Rattle.rule_fields.specs.Fixed.{fixed_of};
ghost use Rattle.new_plan.specs.Planned.{Matched};
ghost use Rattle.rewriting.specs.Replaced.{Replaced};

use blocks::{check_blocks, write_map};
use commit::commit;
use definitions::{MAP_PLACES, Reply, SIDE_CAPACITY};
use graph_slots::blank_table;
use new_plan::plan;
use reply::{Reason, refuse};
use search::least_match;

// Rewrites the graph at this match, or says how that is refused, and then leaves the graph as it is.
fn replace(graph: &mut [u8], rule: &[u8], images: &[u16; SIDE_CAPACITY]) -> Reply
    requires { Matched graph.old rule.now images.now }
    ensures { Replaced (operation.rewritten (graph_of graph.old) (fixed_of rule.now)
        (take (source_count rule.now) images.now)) result graph.old graph.new }
{
    let mut table = blank_table();
    let size = graph.len();
    plan(graph, rule, images, &mut table[0..size])?;
    commit(graph, &table[0..size]);
    Ok(0)
}

// Rewrites at the least match from `start`; no other is tried.
pub fn rewrite(graph: &mut [u8], rule: &[u8], start: usize, map: &mut [u8]) -> Reply
    ensures { operation.outcome result graph.new map.new
        ≡ operation.rewrite graph.old rule.now start map.old }
{
    check_blocks(graph, rule, map)?;
    let Some(images) = least_match(graph, rule, start) else {
        return refuse(Reason::NoMatch);
    };
    replace(graph, rule, &images)?;
    write_map(map, &images[0..MAP_PLACES]);
    Ok(0)
}
