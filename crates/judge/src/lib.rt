// What the FAT of an image says of its sectors (document 01, refusals 14 to 18).
#![tactic(auto)]

pub mod entries;
pub mod judged;
pub mod marks;
