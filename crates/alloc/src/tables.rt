// The tables of an image, loaded and judged (document 01, refusals 12 to 18).
ghost use Rattle.std.specs.Prelude.{◌≡◌, ◌≤◌, length, replicate};
ghost use Rattle.fat.specs.Loaded.{Counted};
ghost use Rattle.alloc.specs.Opened.{TablesLoaded};

use consts::refusal::Refusal;
use fat::listed::load_lists;
use fat::load::{load_fat, tail_free};
use header::Header;
use judge::entries::list_free;
use judge::judged::judge_fat;

// Loads the tables of an image with header h and n sectors of s bytes, judges them (12 to 18), and lists the FREE sectors. Returns how
// many these are. The free list is scratch before.
pub(crate) fn load_tables(
    image: &[u8],
    s: usize,
    h: Header,
    strict: bool,
    fat: &mut [u32],
    fats: &mut [u32],
    difats: &mut [u32],
    frees: &mut [u32],
    marks: &mut [u8],
) -> Result<usize, Refusal>
    requires counted { Counted s (length fat.old) (length image.now) (length fats.old) (length difats.old) }
    requires fat_in_bounds { length fat.old ≤ length frees.old }
    requires marks_value { marks.old ≡ replicate (length fat.old) 0 }
    ensures { TablesLoaded strict s image.now h (length fat.old) (length frees.old) result (record { fat = fat.new; fats = fats.new; difats = difats.new; frees = frees.new; marks = marks.new }) }
{
    let n = fat.len();
    if !load_lists(image, s, n, h, fats, difats, frees) {
        return Err(Refusal::FatLists);
    }
    if !tail_free(image, s, n, fats) {
        return Err(Refusal::FatTail);
    }
    load_fat(image, s, n, fats, fat);
    judge_fat(strict, fat, difats, fats, marks)?;
    frees.fill(0);
    Ok(list_free(fat, frees))
}
