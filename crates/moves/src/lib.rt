// What a change makes of a chain (document 01, "Calls on a chain"): it is extended, cut, resized and written, by the moves of crate hand.
#![tactic(auto)]

pub mod change;
pub mod extend;
