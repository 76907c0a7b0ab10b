// The lists and the FAT out of an image's bytes (MS-CFB 2.3 and 2.5; document 01, refusals 12 and 13).
ghost use Rattle.std.specs.Prelude.{◌≡◌, ◌+◌, ◌-◌, length};
ghost use Rattle.sectors.specs.Sectors.{Holds};
ghost use Rattle.fat.specs.Lists.{ends as ends_of, place_at, rest_free, fat_of, tail_free};
ghost use Rattle.fat.specs.Loaded.{ChainListed, Covers, Places, PlacesListed};

// Whether a pointer is END or FREE.
pub fn ends(v: u32) -> bool
    ensures { result ≡ ends_of v }
{
    v == consts::END_OF_CHAIN || v == consts::FREE_SECTOR
}

// Lists the DIFAT chain from its first sector, as many sectors as the list has room for. Whether
// each is below n and END or FREE follows.
pub fn list_difats(image: &[u8], s: usize, n: usize, first: u32, difats: &mut [u32]) -> bool
    requires { Holds s n (length image.now) }
    ensures { ChainListed s image.now n first (length difats.old) result difats.new }
{
    let last = s / 4 - 1;
    let mut id = first;
    for place in difats.iter_mut() {
        let at = id as usize;
        if n <= at {
            return false;
        }
        *place = id;
        id = sectors::entry_at(image, s, at, last);
    }
    ends(id)
}

// Place p of the DIFAT: in the header's list, or in a DIFAT sector.
pub fn place_at(image: &[u8], s: usize, n: usize, list: &[u32], difats: &[u32], p: usize) -> u32
    requires { Places s n (length image.now) list.now difats.now (p + 1) }
    ensures { result ≡ place_at s image.now list.now difats.now p }
{
    if p < 109 {
        return list[p];
    }
    let past = p - 109;
    let each = s / 4 - 1;
    sectors::entry_at(image, s, difats[past / each] as usize, past % each)
}

// Lists the sectors of the FAT, as many places of the DIFAT as the list has room for. Whether each
// is below n.
pub fn list_fats(
    image: &[u8],
    s: usize,
    n: usize,
    list: &[u32],
    difats: &[u32],
    fats: &mut [u32],
) -> bool
    requires { Places s n (length image.now) list.now difats.now (length fats.old) }
    ensures { PlacesListed s image.now n list.now difats.now (length fats.old) result fats.new }
{
    for (p, place) in fats.iter_mut().enumerate() {
        let id = place_at(image, s, n, list, difats, p);
        if n <= id as usize {
            return false;
        }
        *place = id;
    }
    true
}

// Whether the DIFAT sectors hold FREE past the k places.
pub fn rest_free(image: &[u8], s: usize, n: usize, list: &[u32], difats: &[u32], k: usize) -> bool
    requires { Places s n (length image.now) list.now difats.now k }
    ensures { result ≡ rest_free s image.now list.now difats.now k (length difats.now) }
{
    let end = 109 + difats.len() * (s / 4 - 1);
    (k.max(109)..end).fold(true, |free, p| {
        free & (place_at(image, s, n, list, difats, p) == consts::FREE_SECTOR)
    })
}

// Loads the FAT from its sectors, a sector at a time.
pub fn load_fat(image: &[u8], s: usize, n: usize, fats: &[u32], fat: &mut [u32])
    requires { Covers s n (length image.now) fats.now (length fat.old) }
    ensures { fat.new ≡ fat_of s image.now fats.now (length fat.old) }
{
    let each = s / 4;
    for (p, id) in fats.iter().enumerate() {
        // kept: the bounds of a run, as no proof knows what is in the runs that chunks_mut lends.
        let a = p * each;
        let b = (a + each).min(fat.len());
        sectors::load_at(image, s, *id as usize, &mut fat[a..b]);
    }
}

// Whether the FAT's entries from n on are FREE: they lie in its last sector.
pub fn tail_free(image: &[u8], s: usize, n: usize, fats: &[u32]) -> bool
    requires { Covers s n (length image.now) fats.now n }
    ensures { result ≡ tail_free s image.now fats.now n }
{
    let Some((id, before)) = fats.split_last() else {
        return true;
    };
    let each = s / 4;
    let done = before.len() * each;
    sectors::free_at(image, s, *id as usize, n - done, done + each - n)
}
