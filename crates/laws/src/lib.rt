// The laws of layer 1, no code: what the definitions of crate meaning do, and that every accepted step leaves a good state. See proofs/.
#![tactic(auto)]
