// The moves for a caller who lends only what they touch: the list of the FAT's sectors is only read, and none of DIFAT sectors is
// lent.
ghost use Rattle.std.specs.Prelude.{◌≡◌, ℕ, ◌+◌, ◌*◌, ◌/◌, ◌≤◌, ◌<◌, List, length, get_or};
ghost use Rattle.sectors.specs.Sectors.{start_of, per_sector};
ghost use Rattle.fat.specs.Lists.{room_of};
ghost use Rattle.hand.specs.Fits.{FitsFrees, FitsLast};
ghost use Rattle.hand.specs.Hand.{marked, point as pointed, free_run, linked};

use disk::disk::set_fat;

// Sets the mark of sector t, where t is one of n.
fn set_mark(n: usize, marks: &mut [u8], t: u32, v: u8)
    requires { n ≤ length marks.old }
    ensures { marks.new ≡ marked n marks.old t v }
{
    let i = t as usize;
    if i < n {
        marks[i] = v;
    }
}

// Makes entry i point at v: the sector that it pointed at loses its mark, and v has it then, where these are sectors.
pub fn point(
    image: &mut [u8],
    s: usize,
    n: usize,
    fat: &mut [u32],
    fats: &[u32],
    marks: &mut [u8],
    i: usize,
    v: u32,
)
    requires s_value { (s ≡ 4 * per_sector s) × (1 ≤ per_sector s) × (n ≤ length marks.old) }
    requires i_in_bounds { (i < length fat.old) × (i / per_sector s < length fats.now) }
    requires s_in_bounds { start_of s (get_or fats.now (i / per_sector s) 0) + s ≤ length image.old }
    ensures { (difats frees : List ℕ) (free : ℕ) → record { disk = record { image = image.new; fat = fat.new; fats = fats.now; difats = difats; sectors = n }; frees = frees; free = free; marks = marks.new } ≡ pointed s (record { disk = record { image = image.old; fat = fat.old; fats = fats.now; difats = difats; sectors = n }; frees = frees; free = free; marks = marks.old }) i v }
{
    let before = fat[i];
    set_mark(n, marks, before, 0);
    set_mark(n, marks, v, 1);
    set_fat(image, s, fat, fats, i, v);
}

// Frees count sectors of a list, from one on, in the list's order: each joins the free list, and keeps its bytes. What is
// asked has to hold with some list of DIFAT sectors; none is read.
pub fn free_run(
    image: &mut [u8],
    s: usize,
    n: usize,
    free: usize,
    fat: &mut [u32],
    fats: &[u32],
    frees: &mut [u32],
    marks: &mut [u8],
    ids: &[u32],
    from: usize,
    count: usize,
)
    requires { (difats : List ℕ) × FitsFrees s (room_of s (length image.old)) from count ids.now (record { disk = record { image = image.old; fat = fat.old; fats = fats.now; difats = difats; sectors = n }; frees = frees.old; free = free; marks = marks.old }) }
    ensures { (difats : List ℕ) → record { disk = record { image = image.new; fat = fat.new; fats = fats.now; difats = difats; sectors = n }; frees = frees.new; free = (free + count); marks = marks.new } ≡ free_run s (record { disk = record { image = image.old; fat = fat.old; fats = fats.now; difats = difats; sectors = n }; frees = frees.old; free = free; marks = marks.old }) ids.now from count }
{
    for (j, id) in ids[from..from + count].iter().enumerate() {
        point(
            image,
            s,
            n,
            fat,
            fats,
            marks,
            *id as usize,
            consts::FREE_SECTOR,
        );
        frees[free + j] = *id;
    }
}

// Makes id the entry of the last of count ids: a sector that follows it, or END where the chain is cut behind it. A chain of none has
// no such entry.
pub fn link_last(
    image: &mut [u8],
    s: usize,
    n: usize,
    fat: &mut [u32],
    fats: &[u32],
    marks: &mut [u8],
    ids: &[u32],
    count: usize,
    id: u32,
)
    requires { FitsLast s n (length image.old) (length fat.old) fats.now (length marks.old) ids.now count }
    ensures { (difats frees : List ℕ) (free : ℕ) → record { disk = record { image = image.new; fat = fat.new; fats = fats.now; difats = difats; sectors = n }; frees = frees; free = free; marks = marks.new } ≡ linked s (record { disk = record { image = image.old; fat = fat.old; fats = fats.now; difats = difats; sectors = n }; frees = frees; free = free; marks = marks.old }) ids.now count id }
{
    if let Some(last) = ids[..count].last() {
        point(image, s, n, fat, fats, marks, *last as usize, id);
    }
}
