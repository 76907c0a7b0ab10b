// Sectors of an image, each lent as a slice of its own, and the entries in them (MS-CFB 2.3, 2.5).
#![tactic(auto)]

pub mod init;

ghost use Rattle.std.specs.Prelude.{◌≡◌, ◌+◌, ◌*◌, ◌^◌, ◌<◌, ◌≤◌, length};
ghost use Rattle.lists.specs.Lists.{tab};
ghost use Rattle.sectors.specs.Sectors.{entry_in, free_from, start_of, sector_of};

use std::ops::Range;

// Where sector id of an image stands.
pub fn span(s: usize, id: usize) -> Range<usize>
    requires s_bound { 1 ≤ s }
    requires end_fits { start_of s id + s < 2 ^ 64 }
    ensures { (result.start ≡ start_of s id) × (result.end ≡ start_of s id + s) }
{
    let start = (id + 1) * s;
    start..start + s
}

// Sector id of an image: the part of the image that it is.
pub fn sector(image: &[u8], s: usize, id: usize) -> &[u8]
    requires s_bound { 1 ≤ s }
    requires s_in_bounds { start_of s id + s ≤ length image.now }
    ensures value { result.now ≡ sector_of s image.now id }
    ensures len { length result.now ≡ s }
{
    &image[span(s, id)]
}

// Entry j of a sector.
pub fn entry(sector: &[u8], j: usize) -> u32
    requires { 4 * j + 4 ≤ length sector.now }
    ensures { result ≡ entry_in sector.now j }
{
    words::read::<4>(sector, 4 * j)
}

// Entry j of sector id of an image.
pub fn entry_at(image: &[u8], s: usize, id: usize, j: usize) -> u32
    requires s_in_bounds { start_of s id + s ≤ length image.now }
    requires j_bound { 4 * j + 4 ≤ s }
    ensures { result ≡ entry_in (sector_of s image.now id) j }
{
    entry(sector(image, s, id), j)
}

// The first entries of a sector, as many as out has room for.
pub fn load(sector: &[u8], out: &mut [u32])
    requires { 4 * length out.old ≤ length sector.now }
    ensures { out.new ≡ tab (entry_in sector.now) (length out.old) }
{
    for (j, own) in out.iter_mut().enumerate() {
        *own = entry(sector, j);
    }
}

// The first entries of sector id of an image, as many as out has room for.
pub fn load_at(image: &[u8], s: usize, id: usize, out: &mut [u32])
    requires s_in_bounds { start_of s id + s ≤ length image.now }
    requires le_s { (1 ≤ s) × (4 * length out.old ≤ s) }
    ensures { out.new ≡ tab (entry_in (sector_of s image.now id)) (length out.old) }
{
    load(sector(image, s, id), out);
}

// Whether count entries of sector id of an image, from one on, are all FREE.
pub fn free_at(image: &[u8], s: usize, id: usize, from: usize, count: usize) -> bool
    requires s_in_bounds { start_of s id + s ≤ length image.now }
    requires le_s { (1 ≤ s) × (4 * (from + count) ≤ s) }
    ensures { result ≡ free_from (sector_of s image.now id) from count }
{
    free_from(sector(image, s, id), from, count)
}

// Whether the entries of a sector from j on are all FREE. No early way out: so the loop runs on vectors.
pub fn free_from(sector: &[u8], from: usize, count: usize) -> bool
    requires { 4 * (from + count) ≤ length sector.now }
    ensures { result ≡ free_from sector.now from count }
{
    (from..from + count).fold(true, |free, j| {
        free & (entry(sector, j) == consts::FREE_SECTOR)
    })
}
