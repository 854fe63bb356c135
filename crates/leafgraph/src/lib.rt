// The operations that the app's C++ host calls, over the bytes that it lends; the crate leafgraph_c is their exports
// for C. None has a `requires`: any bytes are answered. The contracts stand in
// answers/specs/Statements, each with what follows from it.
#![tactic(auto)]

ghost use Rattle.answers.specs.Statements.{CheckedGraph, CheckedRule, Searched, Rewrote, Swept, Squeezed, Imported, Asked, Wrote, ReadText};

use reply::pack;

// Checks a graph block: 0, or 20 to 24, all but 20 with a place.
pub fn lg_check_graph(graph: &[u8]) -> u64
    ensures { CheckedGraph graph.now result }
{
    pack(graph_check::check(graph))
}

// Checks a rule block: 0, or 30 to 34, all but 30 and 33 with a place.
pub fn lg_check_rule(rule: &[u8]) -> u64
    ensures { CheckedRule rule.now result }
{
    pack(rule_check::check(rule))
}

// Finds the least match from `start`: 1, what the checks refuse, 4, or 0. Done writes the map; a refusal leaves every byte as it came.
pub fn lg_find_match(graph: &[u8], rule: &[u8], start: usize, map: &mut [u8]) -> u64
    ensures { Searched graph.now rule.now start map.old
        result graph.now map.new }
{
    pack(find_match::find_match(graph, rule, start, map))
}

// Rewrites at the least match from `start`: 1, what the checks refuse, 4 to 7, or 0. Done writes the graph and the map; a refusal leaves every byte as it came.
pub fn lg_rewrite(graph: &mut [u8], rule: &[u8], start: usize, map: &mut [u8]) -> u64
    ensures { Rewrote graph.old rule.now start map.old
        result graph.new map.new }
{
    pack(rewriting::rewrite(graph, rule, start, map))
}

// Empties every vertex from which no graph output is reached, except Variables: what the check refuses, or 0. A refusal leaves every byte
// as it came.
pub fn lg_sweep(graph: &mut [u8]) -> u64
    ensures { Swept graph.old result graph.new }
{
    pack(graph_sweep::sweep(graph))
}

// Moves the vertices to the lowest slots, in their order, and lists where each slot went: what the check refuses, 40, or 0. A refusal
// leaves every byte as it came.
pub fn lg_squeeze(graph: &mut [u8], moves: &mut [u8]) -> u64
    ensures { Squeezed graph.old moves.old result graph.new moves.new }
{
    pack(graph_squeeze::squeeze(graph, moves))
}

// Turns a sound block of version 1 into version 2, with true counts: 20 to 23 by the rules of version 1, or 0. A refusal leaves every byte as
// it came.
pub fn lg_import(graph: &mut [u8]) -> u64
    ensures { Imported graph.old result graph.new }
{
    pack(graph_import::import(graph))
}

// Says of a match whether the image of a source vertex is a graph output, or read by something other than the images of source vertices that
// are no rule inputs: 1, what the checks refuse, 41 where the map is no match, 42 for a rule input and for a number that is no source vertex,
// or 0, with value 1 for yes and 0 for no. Nothing is written.
pub fn lg_is_read_elsewhere(graph: &[u8], rule: &[u8], map: &[u8], vertex: usize) -> u64
    ensures { Asked graph.now rule.now map.now vertex result }
{
    pack(read_elsewhere::is_read_elsewhere(graph, rule, map, vertex))
}

// Writes the listing of a graph into the lent text: what the check refuses, 43 where the text is shorter than the listing, or 0, with the
// listing's length as value; what stands behind the listing stays. A refusal leaves every byte as it came.
pub fn lg_write_listing(graph: &[u8], text: &mut [u8]) -> u64
    ensures { Wrote graph.now text.old result text.new }
{
    pack(listing_write::write_listing(graph, text))
}

// Reads a listing into the lent graph: 44 where the text is no listing, with the place of the first byte at which none can go on, or the text's
// length where it ends early; 45 where its graph is not sound; 46 where the lent graph is not as long as that graph's block; or 0. A refusal leaves
// every byte as it came.
pub fn lg_read_listing(text: &[u8], graph: &mut [u8]) -> u64
    ensures { ReadText text.now graph.old result graph.new }
{
    pack(listing_read::read_listing(text, graph))
}
