// Finding a match in lent blocks: the replies about the blocks, then 4, and the map of the least match where there is one.
#![tactic(auto)]

ghost use Rattle.std.specs.Prelude.{◌≡◌};
ghost use Rattle.definitions.specs.Operations as operation;

use blocks::{check_blocks, write_map};
use definitions::{MAP_PLACES, Reply};
use reply::{Reason, refuse};
use search::least_match;

// Nothing is written before the reply is sure: the map is the last thing that is done.
pub fn find_match(graph: &[u8], rule: &[u8], start: usize, map: &mut [u8]) -> Reply
    ensures { operation.outcome result graph.now map.new
        ≡ operation.find_match graph.now rule.now start map.old }
{
    check_blocks(graph, rule, map)?;
    let Some(images) = least_match(graph, rule, start) else {
        return refuse(Reason::NoMatch);
    };
    write_map(map, &images[0..MAP_PLACES]);
    Ok(0)
}
