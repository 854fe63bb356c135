// The contracts of the exported operations, and what their replies mean, in specs/: Statements has both. That the meaning follows from
// the contracts alone is proved in proofs/. There is no code here.
#![tactic(auto)]
