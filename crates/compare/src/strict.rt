// Whether a FAT in memory is the image's, and strict has nothing to mark or to forgive in it (document 01, refusals 14 and 15).
ghost use Rattle.std.specs.Prelude.{◌≡◌, true, ◌+◌, ◌*◌, ◌≤◌, length};
ghost use Rattle.sectors.specs.Sectors.{entry_in, entry_of, sector_of, start_of};
ghost use Rattle.fat.specs.Lists.{all_below, fat_of};
ghost use Rattle.fat.specs.Loaded.{Covers};
ghost use Rattle.compare.specs.Compare.{entries_kept, entry_kept, strict_same};

use crate::limit_of;
use judge::marks::listed_marked;

// Whether an entry in memory is the image's own, and is below the limit or not regular (refusal 15).
pub fn entry_kept(limit: u32, own: u32, entry: u32) -> bool
    ensures { result ≡ entry_kept limit own entry }
{
    (entry == own) & ((entry < limit) | (entry > consts::MAX_REGULAR_SECTOR))
}

// Whether each entry equals the one at its place in a FAT sector, and is below the limit or not regular. The loop never returns early, so that the compiler can vectorize it.
pub fn entries_kept(limit: u32, sector: &[u8], fat: &[u32]) -> bool
    requires { 4 * length fat.now ≤ length sector.now }
    ensures { result ≡ entries_kept limit (entry_in sector.now) fat.now }
{
    let (owns, _) = sector.as_chunks::<4>();
    fat.iter().zip(owns).fold(
        true,
        |kept, (entry, own)| kept & entry_kept(limit, u32::from_le_bytes(*own), *entry),
    )
}

// The same for sector id of an image.
pub fn sector_kept(limit: u32, image: &[u8], s: usize, id: usize, fat: &[u32]) -> bool
    requires s_in_bounds { start_of s id + s ≤ length image.now }
    requires le_s { (1 ≤ s) × (4 * length fat.now ≤ s) }
    ensures { result ≡ entries_kept limit (entry_in (sector_of s image.now id)) fat.now }
{
    let a = (id + 1) * s;
    let b = a + s;
    entries_kept(limit, &image[a..b], fat)
}

// Whether each entry of a FAT equals the image's, and is below the limit or not regular. Each FAT sector is compared in place with its part of the table.
pub fn fat_kept(limit: u32, image: &[u8], s: usize, fats: &[u32], fat: &[u32]) -> bool
    requires { Covers s (length fat.now) (length image.now) fats.now (length fat.now) }
    ensures { result ≡ entries_kept limit (entry_of s image.now fats.now) fat.now }
{
    fats.iter().zip(fat.chunks(s / 4)).fold(
        true,
        |kept, (id, part)| kept & sector_kept(limit, image, s, *id as usize, part),
    )
}

// Whether a FAT is the image's, its regular entries are below n, and its listed sectors have their marks (refusal 14).
pub fn same_strict(image: &[u8], s: usize, difats: &[u32], fats: &[u32], fat: &[u32]) -> bool
    requires covers { Covers s (length fat.now) (length image.now) fats.now (length fat.now) }
    requires difats_value { all_below (length fat.now) difats.now ≡ true }
    ensures { result ≡ strict_same (fat_of s image.now fats.now (length fat.now)) difats.now fats.now fat.now }
{
    let limit = limit_of(fat.len());
    if !fat_kept(limit, image, s, fats, fat) {
        return false;
    }
    listed_marked(fat, difats, fats)
}
