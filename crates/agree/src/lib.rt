// Whether a state and its tables are what an opening of the image gives (document 01, refusal 19), in linear time and with no memory but a lent scratch.
#![tactic(auto)]

pub mod alike;
pub mod listed;
pub mod tables;
pub mod whole;
