// Layer 2, the codec, no code: what every byte of an image and a message means, and the nine calls as definitions on bytes. See specs/.
#![tactic(auto)]
