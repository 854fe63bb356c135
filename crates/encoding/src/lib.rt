// Theorems about the block of a graph: it stands for that graph, and it is sound where the graph is. This crate has no code.
#![tactic(auto)]
