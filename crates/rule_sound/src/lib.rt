// Theorems about sound rules, whatever their side limit, in proofs/. This crate has no code.
#![tactic(auto)]
