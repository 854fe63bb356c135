// Laws about the definitions' lists, fields and blocks, in proofs/: what the proofs of the code
// cite. There is no code here.
#![tactic(auto)]
