// What a change makes of a chain's sectors and of the image's bytes: definitions in specs/, their laws in proofs/. There is no code here.
#![tactic(auto)]
