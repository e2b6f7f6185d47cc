// The crew on bytes, no code: a run of images and messages as the calls leave and write them, and that what read writes is exactly what it should. See specs/ and proofs/.
#![tactic(auto)]
