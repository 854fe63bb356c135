// The blocks that a caller of matching or rewriting lends: the replies about them, and the bytes of the map.
#![tactic(auto)]

ghost use Rattle.std.specs.Prelude.{◌≡◌, ◌*◌, length};
ghost use Rattle.definitions.specs.Lists.{concat_map};
ghost use Rattle.definitions.specs.Fields.{u16_bytes};
ghost use Rattle.definitions.specs.Operations.{map_reply, blocks_reply};

use definitions::{MAP_BYTES, Reply};
use reply::{Reason, refuse};
use writing::put_numbers;

// Reply 1 is about the map's length alone: its bytes are not read.
fn check_map(map: &[u8]) -> Reply
    ensures { result ≡ map_reply map.now }
{
    if map.len() != MAP_BYTES {
        return refuse(Reason::BadMapLength);
    }
    Ok(0)
}

// The first refusal of the map, the graph and the rule, in that order.
pub fn check_blocks(graph: &[u8], rule: &[u8], map: &[u8]) -> Reply
    ensures { result ≡ blocks_reply graph.now rule.now map.now }
{
    check_map(map)?;
    graph_check::check(graph)?;
    rule_check::check(rule)
}

// Writes the map: one image for each of its places, as two bytes, the lower one first.
pub fn write_map(map: &mut [u8], images: &[u16])
    requires { length map.old ≡ 2 * length images.now }
    ensures { map.new ≡ concat_map u16_bytes images.now }
{
    put_numbers(map, images);
}
