// Whether the entries of a FAT point as they must and the marks say where, and whether a free list holds its FREE sectors (document 01, refusals 16 to 19): by counting. The scratch is the caller's.
#![tactic(auto)]

pub mod frees;
pub mod points;
