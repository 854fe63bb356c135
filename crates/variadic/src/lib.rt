// Theorems about variadic rules (request 8/13) and the fixed rules for which they stand. This crate has no code.
#![tactic(auto)]
