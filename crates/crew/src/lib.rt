// The crew, no code: what a run of several controllers is, and that each of them always shows exactly what it should. See specs/ and proofs/.
#![tactic(auto)]
