// Layer 1, meaning, no code: document 01's definitions are in specs/, its worked examples in proofs/Table.antt and proofs/Runs.antt.
#![tactic(auto)]
