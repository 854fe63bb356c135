// Theorems about the swept and the squeezed table: that they are sound, and which results they keep. This crate has no code.
#![tactic(auto)]
