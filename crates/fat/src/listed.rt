// The lists of an image's FAT and DIFAT sectors, loaded and judged (document 01, refusal 12).
ghost use Rattle.std.specs.Prelude.{◌≡◌, ◌+◌, ◌^◌, ◌≤◌, ◌<◌, length};
ghost use Rattle.sectors.specs.Sectors.{Holds};
ghost use Rattle.fat.specs.Lists.{ceil as ceil_of, counts_right, chain_right, fats_right, difats_of, fats_of};
ghost use Rattle.fat.specs.Loaded.{Counted, ListsLoaded, Loads, Places};

use crate::load::{list_difats, list_fats, rest_free};
use crate::places::different;
use header::Header;

// a / b, rounded up.
pub fn ceil(a: usize, b: usize) -> usize
    requires { (1 ≤ b) × (a + b < 2 ^ 63) }
    ensures { result ≡ ceil_of a b }
{
    a.div_ceil(b)
}

// Whether the header counts k FAT sectors and d DIFAT sectors, and its list has the ids of the first.
pub fn counts_right(h: Header, k: usize, d: usize) -> bool
    ensures { result ≡ counts_right h k d }
{
    h.fats as usize == k && h.difats as usize == d && h.ids() == k.min(109)
}

// Loads the sectors of the DIFAT chain, as many as the list has room for, and says whether they are right.
pub fn load_difats(
    image: &[u8],
    s: usize,
    n: usize,
    first: u32,
    difats: &mut [u32],
    scratch: &mut [u32],
) -> bool
    requires holds { Holds s n (length image.now) }
    requires difats_len_bound { (length difats.old ≤ 65536) × (n ≤ length scratch.old) }
    ensures { Loads (chain_right s image.now first n (length difats.old)) (difats_of s image.now first (length difats.old)) result difats.new }
{
    list_difats(image, s, n, first, difats) && different(difats, scratch)
}

// Loads the sectors of the FAT, as many as the list has room for, and says whether they are right and FREE follows them.
pub fn load_fats(
    image: &[u8],
    s: usize,
    n: usize,
    list: &[u32],
    difats: &[u32],
    fats: &mut [u32],
    scratch: &mut [u32],
) -> bool
    requires places { Places s n (length image.now) list.now difats.now (length fats.old) }
    requires fats_len_bound { (length fats.old ≤ 65536) × (n ≤ length scratch.old) }
    ensures { Loads (fats_right s image.now n list.now difats.now (length fats.old)) (fats_of s image.now list.now difats.now (length fats.old)) result fats.new }
{
    list_fats(image, s, n, list, difats, fats)
        && rest_free(image, s, n, list, difats, fats.len())
        && different(fats, scratch)
}

// Loads both lists, and says whether the header and they are right.
pub fn load_lists(
    image: &[u8],
    s: usize,
    n: usize,
    h: Header,
    fats: &mut [u32],
    difats: &mut [u32],
    scratch: &mut [u32],
) -> bool
    requires counted { Counted s n (length image.now) (length fats.old) (length difats.old) }
    requires n_in_bounds { n ≤ length scratch.old }
    ensures { ListsLoaded s image.now h n result fats.new difats.new }
{
    counts_right(h, fats.len(), difats.len())
        && load_difats(image, s, n, h.difat, difats, scratch)
        && load_fats(image, s, n, &h.list, difats, fats, scratch)
}
