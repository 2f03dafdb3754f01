// The rules that proofs by hand share: in proofs/, and no code.
#![tactic(auto)]
