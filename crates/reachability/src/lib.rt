// Which vertices have a path to which: theorems that what computes it is what is meant. This crate has no code.
#![tactic(auto)]
