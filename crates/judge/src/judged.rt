// A FAT as the bytes have it, judged (document 01, refusals 14 to 18).
ghost use Rattle.std.specs.Prelude.{◌≡◌, true, not, ◌≤◌, length, replicate};
ghost use Rattle.lists.specs.Lists.{both};
ghost use Rattle.consts.specs.Consts.{max_regular, difat_sector, fat_sector};
ghost use Rattle.consts.specs.Refusals.{ends_with};
ghost use Rattle.fat.specs.Lists.{all_below};
ghost use Rattle.judge.specs.Judge.{all_marked};
ghost use Rattle.judge.specs.Judged.{FatJudged};

use crate::entries::{judge, none_dangles};
use crate::marks::{listed_marked, set_listed};
use consts::refusal::Refusal;

// Whether a listed sector lacks its mark, and that matters.
pub fn unmarked(strict: bool, fat: &[u32], difats: &[u32], fats: &[u32]) -> bool
    requires difats_value { all_below (length fat.now) difats.now ≡ true }
    requires fats_value { all_below (length fat.now) fats.now ≡ true }
    ensures { result ≡ both strict (not (both (all_marked fat.now difats.now difat_sector) (all_marked fat.now fats.now fat_sector))) }
{
    strict && !listed_marked(fat, difats, fats)
}

// Judges a loaded FAT: refused with 14 to 18, or else the FAT is marked and forgiven, and each pointed-to sector marked.
pub fn judge_fat(
    strict: bool,
    fat: &mut [u32],
    difats: &[u32],
    fats: &[u32],
    marks: &mut [u8],
) -> Result<(), Refusal>
    requires difats_value { (all_below (length fat.old) difats.now ≡ true) × (all_below (length fat.old) fats.now ≡ true) }
    requires fat_len_bound { length fat.old ≤ max_regular }
    requires marks_value { marks.old ≡ replicate (length fat.old) 0 }
    ensures { FatJudged strict fat.old difats.now fats.now (ends_with result) fat.new marks.new }
{
    if unmarked(strict, fat, difats, fats) {
        return Err(Refusal::Unmarked);
    }
    set_listed(fat, difats, fats);
    judge(strict, fat, marks)?;
    if !none_dangles(fat, marks) {
        return Err(Refusal::FreePointee);
    }
    Ok(())
}
