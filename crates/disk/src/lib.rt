// The FAT set and grown, in the lent tables and in the bytes (document 01, "Calls on a chain").
#![tactic(auto)]

pub mod disk;
