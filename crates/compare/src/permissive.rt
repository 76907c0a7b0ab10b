// Whether a FAT in memory is the image's as a permissive opening reads it: marked and forgiven (document 01, refusals 14 and 15).
ghost use Rattle.std.specs.Prelude.{◌≡◌, true, length};
ghost use Rattle.lists.specs.Lists.{same_list};
ghost use Rattle.fat.specs.Lists.{all_below, fat_of};
ghost use Rattle.fat.specs.Loaded.{Covers};
ghost use Rattle.judge.specs.Judge.{forgiven as forgiven_of, forgiven_fat};
ghost use Rattle.compare.specs.Compare.{permissive_same};

use crate::limit_of;
use fat::load::load_fat;
use judge::marks::set_listed;

// An entry as permissive reads it: a regular one at or above the limit becomes END.
pub fn forgiven(limit: u32, entry: u32) -> u32
    ensures { result ≡ forgiven_of limit entry }
{
    if entry > consts::MAX_REGULAR_SECTOR || entry < limit {
        entry
    } else {
        consts::END_OF_CHAIN
    }
}

// Whether `fat` is `raw` with END for each regular entry at or above n, the number of entries.
pub fn is_forgiven(raw: &[u32], fat: &[u32]) -> bool
    requires { length raw.now ≡ length fat.now }
    ensures { result ≡ same_list fat.now (forgiven_fat (length fat.now) raw.now) }
{
    let limit = limit_of(fat.len());
    fat.iter().zip(raw).fold(
        true,
        |same, (entry, own)| same & (*entry == forgiven(limit, *own)),
    )
}

// Whether a FAT is the image's, marked and forgiven. The room, as long as the FAT, is written over.
pub fn same_permissive(
    image: &[u8],
    s: usize,
    difats: &[u32],
    fats: &[u32],
    fat: &[u32],
    room: &mut [u32],
) -> bool
    requires covers { Covers s (length fat.now) (length image.now) fats.now (length fat.now) }
    requires difats_value { all_below (length fat.now) difats.now ≡ true }
    requires room_len { length room.old ≡ length fat.now }
    ensures { result ≡ permissive_same (fat_of s image.now fats.now (length fat.now)) difats.now fats.now fat.now }
{
    load_fat(image, s, fat.len(), fats, room);
    set_listed(room, difats, fats);
    is_forgiven(room, fat)
}
