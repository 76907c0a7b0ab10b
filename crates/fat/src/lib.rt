// Where the FAT of an image stands and what it holds: its lists of sectors and its entries, loaded into lent tables (MS-CFB 2.3, 2.5; document 01, refusals 12 and 13).
#![tactic(auto)]

pub mod listed;
pub mod load;
pub mod places;
