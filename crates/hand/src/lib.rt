// The moves on what is in hand: a sector taken, pointed at, linked, freed.
#![tactic(auto)]

ghost use Rattle.std.specs.Prelude.{◌≡◌, ℕ, ◌+◌, ◌*◌, ◌/◌, ◌≤◌, ◌<◌, List, length, get_or};
ghost use Rattle.sectors.specs.Sectors.{start_of, per_sector};
ghost use Rattle.fat.specs.Lists.{room_of};
ghost use Rattle.disk.specs.Held.{disk_in};
ghost use Rattle.hand.specs.Fits.{FitsStock, FitsFrees, FitsLast};
ghost use Rattle.hand.specs.Hand.{with_difats, point as pointed, taken_id, take_sector, free_run, linked};
ghost use Rattle.hand.specs.Held.{hand_in, HandBecomes};

pub mod parts;

use disk::disk::Hand;

// Makes entry i point at v: the sector that it pointed at loses its mark, and v has it then, where these are sectors.
pub fn point(hand: &mut Hand<'_, '_>, i: usize, v: u32)
    requires s_value { (hand.old.len ≡ 4 * per_sector hand.old.len) × (1 ≤ per_sector hand.old.len) × (hand.old.sectors ≤ length hand.old.tables.now.marks.now) }
    requires i_in_bounds { (i < length hand.old.tables.now.fat.now) × (i / per_sector hand.old.len < length hand.old.tables.now.fats.now) }
    requires s_in_bounds { start_of hand.old.len (get_or hand.old.tables.now.fats.now (i / per_sector hand.old.len) 0) + hand.old.len ≤ length hand.old.image.now }
    ensures { HandBecomes hand.old hand.new (pointed hand.old.len (hand_in hand.old) i v) }
{
    let tables = &mut *hand.tables;
    let fat = &mut *tables.fat;
    let fats = &mut *tables.fats;
    let marks = &mut *tables.marks;
    parts::point(hand.image, hand.len, hand.sectors, fat, fats, marks, i, v);
}

// Takes a sector, and returns its id: the last of the free list, or a new one where the list is empty.
pub fn take_sector_id(hand: &mut Hand<'_, '_>) -> u32
    requires { FitsStock hand.old.len (room_of hand.old.len (length hand.old.image.now)) (disk_in hand.old) hand.old.tables.now.frees.now hand.old.free }
    ensures id { result ≡ taken_id hand.old.len (hand_in hand.old) }
    ensures hand { HandBecomes hand.old hand.new (take_sector hand.old.len (hand_in hand.old)) }
{
    if hand.free == 0 {
        return hand.new_sector();
    }
    hand.free -= 1;
    let id = hand.tables.frees[hand.free];
    hand.tables.frees[hand.free] = 0;
    hand.reuse(id);
    id
}

// Frees count sectors of a list, from one on, in the list's order: each joins the free list, and keeps its bytes. What is
// asked has to hold with some list of DIFAT sectors; the lent one is not read, and may be any.
pub fn free_run(hand: &mut Hand<'_, '_>, ids: &[u32], from: usize, count: usize)
    requires { (difats : List ℕ) × FitsFrees hand.old.len (room_of hand.old.len (length hand.old.image.now)) from count ids.now (with_difats difats (hand_in hand.old)) }
    ensures { HandBecomes hand.old hand.new (free_run hand.old.len (hand_in hand.old) ids.now from count) }
{
    let tables = &mut *hand.tables;
    let fat = &mut *tables.fat;
    let fats = &mut *tables.fats;
    let frees = &mut *tables.frees;
    let marks = &mut *tables.marks;
    parts::free_run(
        hand.image,
        hand.len,
        hand.sectors,
        hand.free,
        fat,
        fats,
        frees,
        marks,
        ids,
        from,
        count,
    );
    hand.free += count;
}

// Makes id the entry of the last of count ids: a sector that follows it, or END where the chain is cut behind it. A chain of none has
// no such entry.
pub fn link_last(hand: &mut Hand<'_, '_>, ids: &[u32], count: usize, id: u32)
    requires { FitsLast hand.old.len hand.old.sectors (length hand.old.image.now) (length hand.old.tables.now.fat.now) hand.old.tables.now.fats.now (length hand.old.tables.now.marks.now) ids.now count }
    ensures { HandBecomes hand.old hand.new (linked hand.old.len (hand_in hand.old) ids.now count id) }
{
    let tables = &mut *hand.tables;
    let fat = &mut *tables.fat;
    let fats = &mut *tables.fats;
    let marks = &mut *tables.marks;
    parts::link_last(
        hand.image,
        hand.len,
        hand.sectors,
        fat,
        fats,
        marks,
        ids,
        count,
        id,
    );
}
