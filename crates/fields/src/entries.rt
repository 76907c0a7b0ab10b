// The 109 entries of the DIFAT that a header holds (MS-CFB 2.2 and 2.5).
ghost use Rattle.std.specs.Prelude.{◌≡◌, ◌+◌, ◌*◌, ◌≤◌, ◌<◌, length};
ghost use Rattle.lists.specs.Lists.{splice};
ghost use Rattle.words.specs.Words.{digits};
ghost use Rattle.fields.specs.Fields.{entries_at, offset_of, list_of, ids_in, all_free, ids_then_free, list_bytes, unreadable as unreadable_of};

use crate::{ENTRIES, row};

// The 109 entries of a whole header.
pub fn read_list(b: &[u8]) -> [u32; 109]
    requires { 512 ≤ length b.now }
    ensures { result ≡ list_of b.now }
{
    let at = row(ENTRIES).at;
    std::array::from_fn(|i| words::read::<4>(b, at + 4 * i))
}

// Stores the 109 entries.
pub fn put_list(buf: &mut [u8], list: &[u32])
    requires in_bounds { 512 ≤ length buf.old }
    requires list_len { length list.now ≡ 109 }
    ensures { buf.new ≡ splice buf.old (offset_of entries_at) (list_bytes list.now) }
{
    let at = row(ENTRIES).at;
    for (i, entry) in list.iter().enumerate() {
        words::put::<4>(buf, at + 4 * i, *entry);
    }
}

// Stores entry p of the list.
pub fn put_place(buf: &mut [u8], p: usize, v: u32)
    requires in_bounds { 512 ≤ length buf.old }
    requires p_bound { p < 109 }
    ensures { buf.new ≡ splice buf.old (offset_of entries_at + 4 * p) (digits 4 v) }
{
    words::put::<4>(buf, row(ENTRIES).at + 4 * p, v);
}

// How many sector numbers the list begins with.
pub fn leading_ids(list: &[u32]) -> usize
    ensures { result ≡ ids_in list.now }
{
    list.iter()
        .take_while(|id| **id <= consts::MAX_REGULAR_SECTOR)
        .count()
}

// Whether every entry is FREE.
pub fn all_free(list: &[u32]) -> bool
    ensures { result ≡ all_free list.now }
{
    list.iter()
        .fold(true, |free, entry| free & (*entry == consts::FREE_SECTOR))
}

// Whether the list is sector numbers and then FREE to its end: what follows the first FREE is looked at too.
pub fn ids_then_free(list: &[u32]) -> bool
    ensures { result ≡ ids_then_free list.now }
{
    let n = leading_ids(list);
    all_free(&list[n..])
}

// Whether the list is none that a reader could give, or the first DIFAT sector is FREE.
pub fn unreadable(list: &[u32], difat: u32) -> bool
    ensures { result ≡ unreadable_of list.now difat }
{
    !ids_then_free(list) || difat == consts::FREE_SECTOR
}
