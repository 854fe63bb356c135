// The header of a graph block, written into a part that the caller lends on.
#![tactic(auto)]

ghost use Rattle.std.specs.Prelude.{◌≡◌, length};
ghost use Rattle.definitions.specs.Graph.{header_bytes, output_limit};
ghost use Rattle.new_header.specs.Headers.{header_with};

use definitions::{
    GRAPH_LETTER, GRAPH_VERSION, HEADER_BYTES, OUTPUT_LIMIT, OUTPUTS_END, OUTPUTS_OFFSET,
};
use writing::{clear, put_numbers};

// Writes a graph block's header into its 24 bytes: `outputs` has every output place, of which `count` are used.
pub fn write_header(part: &mut [u8], slots: u16, count: u16, outputs: &[u16; OUTPUT_LIMIT])
    requires part_len { length part.old ≡ header_bytes }
    requires outputs_len { length outputs.now ≡ output_limit }
    ensures { part.new ≡ header_with slots count outputs.now }
{
    part[0] = 76;
    part[1] = 71;
    part[2] = GRAPH_LETTER as u8;
    part[3] = 0;
    let numbers = [GRAPH_VERSION as u16, slots, count];
    put_numbers(&mut part[4..OUTPUTS_OFFSET], &numbers);
    put_numbers(&mut part[OUTPUTS_OFFSET..OUTPUTS_END], outputs);
    clear(&mut part[OUTPUTS_END..HEADER_BYTES]);
}
