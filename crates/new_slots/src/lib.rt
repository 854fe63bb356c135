// The lowest free slots, which the target vertices take in order.
#![tactic(auto)]

ghost use Rattle.std.specs.Prelude.{◌≡◌, ◌≤◌, length};
ghost use Rattle.definitions.specs.Graph.{slot_limit};
ghost use Rattle.new_slots.specs.Vacant.{marked, Lowest};

use definitions::{SIDE_CAPACITY, SLOT_LIMIT, UNUSED_PLACE};

// How many slots are free, and the lowest of them; 65535 stands in the places after the last. The count stands beside the array, since
// there is no heap, and more slots may be free than the array has places.
#[derive(Drop)]
pub struct Places {
    pub count: usize,
    pub slots: [u16; SIDE_CAPACITY],
}

// Counts the free ones of the first n slots, and lists the lowest, as many as a rule may have target vertices.
pub fn lowest_free(free: &[bool; SLOT_LIMIT], n: usize) -> Places
    requires free_len { length free.now ≡ slot_limit }
    requires n_le_slot_limit { n ≤ slot_limit }
    ensures { Lowest (marked free.now n) result.count result.slots }
{
    let mut slots = [UNUSED_PLACE; SIDE_CAPACITY];
    let mut count = 0;
    for k in 0..n {
        if free[k] {
            if count < SIDE_CAPACITY {
                slots[count] = k as u16;
            }
            count += 1;
        }
    }
    Places { count, slots }
}
