// Whether a free list holds the FREE sectors, in any order (document 01, refusal 19): by counting them.
ghost use Rattle.std.specs.Prelude.{◌≡◌, ◌≤◌, length};
ghost use Rattle.fat.specs.Lists.{all_below};
ghost use Rattle.judge.specs.Judge.{frees_of};
ghost use Rattle.points.specs.Parts.{ScratchLent, frees_same};

use fat::places::different;
use judge::marks::all_marked;

// How many entries are FREE. The count has 32 bits, as the entries have, so that the vectorized loop widens nothing.
pub fn count_free(fat: &[u32]) -> usize
    requires { length fat.now ≤ 65536 }
    ensures { result ≡ length (frees_of (length fat.now) fat.now) }
{
    let count: u32 = fat
        .iter()
        .map(|e| u32::from(*e == consts::FREE_SECTOR))
        .sum();
    count as usize
}

// Whether every number is below the limit.
pub fn all_below(xs: &[u32], limit: u32) -> bool
    ensures { result ≡ all_below limit xs.now }
{
    xs.iter().fold(true, |below, x| below & (*x < limit))
}

// Whether the list holds the FREE sectors and no other number, each once. A list of FREE sectors, none twice, as many as the FAT has, contains all of them. The scratch may hold anything before; what it holds after is not said.
pub fn same_frees(fat: &[u32], frees: &[u32], scratch: &mut [u32]) -> bool
    requires { ScratchLent (length fat.now) (length scratch.old) }
    ensures { result ≡ frees_same fat.now frees.now }
{
    if frees.len() != count_free(fat) {
        return false;
    }
    let limit = fat.len() as u32;
    if !all_below(frees, limit) {
        return false;
    }
    if !all_marked(fat, frees, consts::FREE_SECTOR) {
        return false;
    }
    different(frees, scratch)
}
