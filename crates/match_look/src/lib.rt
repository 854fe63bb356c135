// What is asked of a slot before its inputs are entered: the look at its kind, operator and numbers of inputs and attributes, which turns away
// most slots, and then how often it is named, by the count that it stores.
#![tactic(auto)]

ghost use Rattle.std.specs.Prelude.{◌≡◌, ◌<◌};
ghost use Rattle.definitions.specs.Graph.{slot_count, graph_of, slot_of};
ghost use Rattle.definitions.specs.Rule.{source_count, source_of};
ghost use Rattle.rule_fields.specs.Fixed.{fixed_of};
ghost use Rattle.graph_fields.specs.Layout.{ReadableGraph};
ghost use Rattle.rule_fields.specs.Layout.{ReadableRule};
ghost use Rattle.match_look.specs.Head.{head, head_in, slot_head, pattern_head};
ghost use Rattle.match_look.specs.Candidate.{passes_look, uses_fit, suits};
ghost use Rattle.match_look.specs.Look.{Looked};
ghost use Rattle.match_look.specs.Setting.{LookReady};

use definitions::KIND_EMPTY;
use graph_fields::{attribute_count, input_count, kind_of, operator_of, stored_count};
use rule_fields::{source_attribute_count, source_input_count, source_kind, source_operator};

// Four numbers of a record as one word, the kind in its lowest byte. So a head is compared in one step, and the compiler reads it in one,
// too: the four are neighbouring bytes of a record.
fn packed(kind: usize, operator: usize, inputs: usize, attributes: usize) -> u32
    requires kind_bound { kind < 256 }
    requires operator_bound { operator < 256 }
    requires inputs_bound { inputs < 256 }
    requires attributes_bound { attributes < 256 }
    ensures { head_in result ≡ head kind operator inputs attributes }
{
    (kind + 256 * operator + 65536 * inputs + 16777216 * attributes) as u32
}

// The head of a slot.
pub fn slot_head(graph: &[u8], v: usize) -> u32
    requires readable_graph { ReadableGraph graph.now }
    requires v_bound { v < slot_count graph.now }
    ensures { head_in result ≡ slot_head (slot_of (graph_of graph.now) v) }
{
    let kind = kind_of(graph, v);
    let operator = operator_of(graph, v);
    let inputs = input_count(graph, v);
    let attributes = attribute_count(graph, v);
    packed(kind, operator, inputs, attributes)
}

// The head of a source vertex.
pub fn pattern_head(rule: &[u8], j: usize) -> u32
    requires readable_rule { ReadableRule rule.now }
    requires j_bound { j < source_count rule.now }
    ensures { head_in result ≡ pattern_head (source_of (fixed_of rule.now) j) }
{
    let kind = source_kind(rule, j);
    let operator = source_operator(rule, j);
    let inputs = source_input_count(rule, j);
    let attributes = source_attribute_count(rule, j);
    packed(kind, operator, inputs, attributes)
}

// The kind that a head tells.
fn kind_in(head: u32) -> usize
    ensures { result ≡ (head_in head).kind }
{
    (head % 256) as usize
}

// The look: it takes nothing but the four numbers of each record. A wildcard, of kind 0, takes any slot that is not Empty; another
// pattern takes a slot with the same four numbers. These are compared first, since whether the pattern is a wildcard does not change in a
// pass over the heads: the compiler asks it once.
pub fn head_fits(pattern: u32, slot: u32) -> bool
    ensures { Looked pattern slot result }
{
    if slot == pattern {
        kind_in(pattern) != KIND_EMPTY
    } else {
        kind_in(pattern) == KIND_EMPTY && kind_in(slot) != KIND_EMPTY
    }
}

// Whether slot v passes the look for a source vertex with that head.
pub fn passes_look(graph: &[u8], head: u32, v: usize) -> bool
    requires readable_graph { ReadableGraph graph.now }
    requires v_bound { v < slot_count graph.now }
    ensures { result ≡ passes_look (head_in head) (graph_of graph.now) v }
{
    head_fits(head, slot_head(graph, v))
}

// Whether a slot with so many uses meets a demand: 0 is none, and another is one more than the uses.
fn uses_fit(demand: usize, uses: usize) -> bool
    ensures { result ≡ uses_fit demand uses }
{
    demand == 0 || demand - 1 == uses
}

// Whether slot v can be the image of a source vertex with that head and that demand, by what can be told without entering its inputs.
pub fn suits(graph: &[u8], head: u32, demand: u16, v: usize) -> bool
    requires { LookReady graph.now v }
    ensures { result ≡ suits (head_in head) demand (graph_of graph.now) v }
{
    passes_look(graph, head, v) && uses_fit(usize::from(demand), stored_count(graph, v))
}
