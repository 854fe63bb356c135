// The import: the lent block, a sound one of version 1, becomes the block of version 2 of the same graph. It gets the other version and its
// counts; no other byte changes.
#![tactic(auto)]

ghost use Rattle.std.specs.Prelude.{◌≡◌};
ghost use Rattle.definitions.specs.Import.{import_reply, import_graph};

use definitions::{GRAPH_VERSION, IMPORT_VERSION, Reply, VERSION_OFFSET};
use graph_check::judge;
use graph_counts::store_counts;
use writing::put_u16_at;

// Imports the lent graph, or says what is wrong with it by the rules of version 1 and leaves it as it is.
pub fn import(graph: &mut [u8]) -> Reply
    ensures value { result ≡ import_reply graph.old }
    ensures graph_after { graph.new ≡ import_graph graph.old }
{
    judge(graph, IMPORT_VERSION)?;
    put_u16_at(graph, VERSION_OFFSET, GRAPH_VERSION as u16);
    store_counts(graph);
    Ok(0)
}
