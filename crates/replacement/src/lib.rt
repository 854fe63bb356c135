// Theorems about the new table as a whole: what its places name, which results it keeps, and that each of its slots follows its kind,
// so that it is sound but for a cycle. This crate has no code.
#![tactic(auto)]
