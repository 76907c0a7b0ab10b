// What a change needs, known before its first store (document 01, 24), for every length and offset, with no sum that can wrap.
#![tactic(auto)]

ghost use Rattle.std.specs.Prelude.{◌≡◌, ◌*◌, ◌≤◌, ◌<◌, leb};
ghost use Rattle.fat.specs.Lists.{most, ceil as ceil_of};
ghost use Rattle.room.specs.Needed.{resize_more, write_more};
ghost use Rattle.disk.specs.Disk.{one_more, count_after};

use disk::disk::needs_difat;

// How many sectors so many bytes ask for: whole ones, and one more for what is left. Nothing is added to the bytes, so that no sum can wrap.
pub fn sectors_for(s: usize, bytes: u64) -> usize
    requires { (2 ≤ s) × (s ≤ 65536) }
    ensures { result ≡ ceil_of bytes s }
{
    bytes.div_ceil(s as u64) as usize
}

// How many sectors so many bytes ask for more than a chain of count has.
pub fn sectors_over(s: usize, count: usize, bytes: u64) -> usize
    requires { (2 ≤ s) × (s ≤ 65536) }
    ensures { result ≡ resize_more s count bytes }
{
    sectors_for(s, bytes).saturating_sub(count)
}

// How many sectors a write of so many bytes from an offset within a chain of count sectors on asks for more.
pub fn sectors_past(s: usize, count: usize, offset: usize, bytes: usize) -> usize
    requires { (2 ≤ s) × (s ≤ 65536) × (offset ≤ s * count) × (s * count < 18446744073709551616) }
    ensures { result ≡ write_more s count offset bytes }
{
    let rest = s * count - offset;
    sectors_for(s, bytes.saturating_sub(rest) as u64)
}

// How many sectors there are after one more behind n for data, with the FAT and DIFAT sectors that come before it.
fn one_more(s: usize, n: usize) -> usize
    requires { (512 ≤ s) × (s ≤ 65536) × (n ≤ 65536) }
    ensures { result ≡ one_more s n }
{
    let each = s / 4;
    if n % each != 0 {
        return n + 1;
    }
    if needs_difat(s, n / each) {
        return n + 3;
    }
    n + 2
}

// Whether there are no more than room sectors after so many more behind n for data.
pub fn has_room(s: usize, n: usize, more: usize, room: usize) -> bool
    requires { (512 ≤ s) × (s ≤ 65536) × (n ≤ room) × (room ≤ most) }
    ensures { result ≡ leb (count_after s n more) room }
{
    if room - n < more {
        return false;
    }
    let mut count = n;
    for _ in 0..more {
        count = one_more(s, count);
    }
    count <= room
}
