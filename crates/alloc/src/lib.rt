// The allocation tables of a compound file: the opening of an image into lent tables (document 01, refusals 1 to 18).
#![tactic(auto)]

pub mod early;
pub mod open;
mod tables;
