// The first kind of fault of a graph block in document 01's order: its length and header.
#![tactic(auto)]

ghost use Rattle.std.specs.Prelude.{◌≡◌, ◌≤◌, length};
ghost use Rattle.definitions.specs.Graph.{header_bytes, output_places_fit, header_fits};

use definitions::{
    GRAPH_LETTER, HEADER_BYTES, OUTPUT_LIMIT, OUTPUTS_END, OUTPUTS_OFFSET, SLOT_BYTES, SLOT_LIMIT,
    VERSION_OFFSET,
};
use fields::{has_mark, u16_at};
use graph_fields::{output_count, slot_count};
use runs::is_filled;

// Whether 1 to 4 outputs are counted, and the unused output places hold 65535.
#[tactic(auto, unfolding(definitions::specs::Graph::output_places_fit))]
fn output_places_fit(graph: &[u8]) -> bool
    requires { header_bytes ≤ length graph.now }
    ensures { result ≡ output_places_fit graph.now }
{
    let outputs = output_count(graph);
    (1..=OUTPUT_LIMIT).contains(&outputs)
        && is_filled(graph, OUTPUTS_OFFSET + 2 * outputs, OUTPUTS_END, 255)
}

// Whether the length and the header are right for a block of this version.
#[tactic(auto, unfolding(definitions::specs::Graph::header_fits))]
pub fn header_fits(graph: &[u8], version: usize) -> bool
    ensures { result ≡ header_fits version graph.now }
{
    if graph.len() < HEADER_BYTES {
        return false;
    }
    let slots = slot_count(graph);
    graph.len() == HEADER_BYTES + SLOT_BYTES * slots
        && has_mark(graph, GRAPH_LETTER)
        && u16_at(graph, VERSION_OFFSET) == version
        && (1..=SLOT_LIMIT).contains(&slots)
        && output_places_fit(graph)
        && is_filled(graph, OUTPUTS_END, HEADER_BYTES, 0)
}
