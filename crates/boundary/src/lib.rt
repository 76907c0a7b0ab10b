// The third demand of the specification for a caller in C, who has words where the proved library has a state. There is no code here.
#![tactic(auto)]
