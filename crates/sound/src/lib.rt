// What an opening means: sound images and the causes of refusals in specs/, their laws in proofs/. There is no code here.
#![tactic(auto)]
