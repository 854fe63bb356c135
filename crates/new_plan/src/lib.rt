// The plan of a rewriting at one match: replies 5, 6 and 7 in order, and the new table in a block of its own. The graph is only read.
#![tactic(auto)]

ghost use Rattle.std.specs.Prelude.{◌≡◌, length, take};
ghost use Rattle.definitions.specs.Graph.{graph_of};
ghost use Rattle.definitions.specs.Rule.{source_count};
ghost use Rattle.definitions.specs.Operations as operation;
ghost use Rattle.rule_fields.specs.Fixed.{fixed_of};
ghost use Rattle.new_plan.specs.Planned.{Matched, Planned};

use acyclic::has_cycle;
use definitions::{Reply, SIDE_CAPACITY};
use graph_counts::store_counts;
use graph_fields::slot_count;
use new_slots::lowest_free;
use new_table::write_table;
use reply::{Reason, refuse};
use rule_fields::target_count;
use target_attributes::all_fit;
use vacancies::find_free;

// What a rewriting at this match comes to: refusal 5, 6 or 7, in that order, or done with the new table in `table`. The cycle is
// looked for in the new table, and the room counted after the removal. Counts are made last, once for the whole table: so they are true also
// of a slot that stays, which loses the places of removed vertices, and may get those of target vertices and redirected ones.
pub fn plan(graph: &[u8], rule: &[u8], images: &[u16; SIDE_CAPACITY], table: &mut [u8]) -> Reply
    requires cases { Matched graph.now rule.now images.now }
    requires table_len { length table.old ≡ length graph.now }
    ensures { Planned (operation.rewritten (graph_of graph.now) (fixed_of rule.now)
        (take (source_count rule.now) images.now)) result table.new }
{
    if let Err(_) = all_fit(graph, rule, images) {
        return refuse(Reason::NoResult);
    }
    let free = find_free(graph, rule, images);
    let places = lowest_free(&free, slot_count(graph));
    if places.count < target_count(rule) {
        return refuse(Reason::NoRoom);
    }
    let slots = places.slots;
    write_table(graph, rule, images, &slots, &free, table);
    let made = &table[..];
    if has_cycle(made) {
        return refuse(Reason::NewCycle);
    }
    store_counts(table);
    Ok(0)
}
