// Whether a FAT in memory is that of an image (document 01, refusals 14, 15 and 19). Strict compares it with the image's FAT sectors in place; permissive with a copy of them that is marked and forgiven.
#![tactic(auto)]

pub mod permissive;
pub mod strict;

ghost use Rattle.std.specs.Prelude.{◌≡◌, min};
ghost use Rattle.consts.specs.Consts.{invalid_sector};

// Returns n, or 0xfffffffb if n is larger, in 32 bits: a regular entry is below it exactly if it is below n.
pub fn limit_of(n: usize) -> u32
    ensures { result ≡ min n invalid_sector }
{
    n.min(consts::INVALID_SECTOR as usize) as u32
}
