// Whether the graph of a listing is sound: theorems, and no code.
#![tactic(auto)]
