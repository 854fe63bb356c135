// The record of each slot of the new table: which of those that can stand there it is.
#![tactic(auto)]

ghost use Rattle.std.specs.Prelude.{◌≡◌, not, ◌<◌, length};
ghost use Rattle.definitions.specs.Lists.{filter, range};
ghost use Rattle.definitions.specs.Graph.{slot_count, graph_of};
ghost use Rattle.definitions.specs.Rewriting.{stays, new_slot};
ghost use Rattle.rule_fields.specs.Fixed.{fixed_of};
ghost use Rattle.graph_records.specs.Records.{Stands};
ghost use Rattle.new_vertices.specs.Slots.{values_of, fit_results, Prepared};
ghost use Rattle.new_records.specs.Slots.{Redirects};

use definitions::SIDE_CAPACITY;
use graph_records::{Record, empty_record};
use new_vertices::{staying_record, target_record};
use redirection::Redirection;
use rule_fields::target_count;

// The record of slot k of the new table. `next` free slots lie below it; so where it is free itself, target vertex `next` takes it, if
// there is one.
pub fn new_record(
    graph: &[u8],
    rule: &[u8],
    images: &[u16; SIDE_CAPACITY],
    places: &[u16; SIDE_CAPACITY],
    way: Redirection,
    k: usize,
    free: bool,
    next: usize,
) -> Record
    requires prepared { Prepared graph.now rule.now images.now places.now }
    requires redirects { Redirects graph.now rule.now images.now way }
    requires k_bound { k < slot_count graph.now }
    requires free_value { free ≡ not (stays (graph_of graph.now) (fixed_of rule.now) images.now k) }
    requires next_value { next ≡ length (filter (λ i. not (stays (graph_of graph.now) (fixed_of rule.now) images.now i)) (range 0 k)) }
    ensures { Stands result (new_slot (graph_of graph.now) (fixed_of rule.now) images.now
        (values_of (fit_results graph.now rule.now images.now)) k) }
{
    if !free {
        staying_record(graph, k, way)
    } else if next < target_count(rule) {
        target_record(graph, rule, images, places, next)
    } else {
        empty_record()
    }
}
