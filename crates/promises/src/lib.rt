// What the calls that change promise, over the definitions that their contracts cite. There is no code here.
#![tactic(auto)]
