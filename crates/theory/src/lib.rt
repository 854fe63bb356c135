// Theorems about the definitions, in proofs/, and the worked examples of document 01, in specs/.
// There is no code here.
#![tactic(auto)]
