// Theorems about listings: which texts can go on, where a text stops being a listing, and that a listing says one graph. This crate has no code.
#![tactic(auto)]
