// The numbers of a compound file, the six kinds of a FAT entry, and the short list of a run of entries that `prettify` gives.
#![tactic(auto)]

pub mod refusal;

ghost use Rattle.std.specs.Prelude.{◌≡◌, drop};
ghost use Rattle.std.specs.Iterator.{YieldsFirst, item_count};
ghost use Rattle.consts.specs.Consts.{header_len, dir_entry_len, header_difat, mini_len};
ghost use Rattle.consts.specs.Kinds.{kind_of};
ghost use Rattle.consts.specs.Pretty.{item_at, prettify_of};
ghost use Rattle.consts.specs.Runs.{run_of, end_of, size_of};

// The header's length in bytes.
pub const HEADER_LEN: usize = 512;

// A directory entry's length in bytes.
pub const DIR_ENTRY_LEN: usize = 128;

// How many entries of the DIFAT the header holds.
pub const NUM_DIFAT_ENTRIES_IN_HEADER: usize = 109;

// The signature, the first eight bytes of a file.
pub const MAGIC_NUMBER: [u8; 8] = *b"\xd0\xcf\x11\xe0\xa1\xb1\x1a\xe1";

// The header's minor version.
pub const MINOR_VERSION: u16 = 0x3e;

// The header's mark of little-endian numbers.
pub const BYTE_ORDER_MARK: u16 = 0xfffe;

// The header's mini sector shift.
pub const MINI_SECTOR_SHIFT: u16 = 6;

// A mini sector's length in bytes.
pub const MINI_SECTOR_LEN: usize = 1 << (MINI_SECTOR_SHIFT as usize);

// The length from which on a stream is not in the mini stream.
pub const MINI_STREAM_CUTOFF: u32 = 4096;

// The largest number that an entry names a sector by.
pub const MAX_REGULAR_SECTOR: u32 = 0xffff_fffa;

// The reserved entry, which names no sector and marks none.
pub const INVALID_SECTOR: u32 = 0xffff_fffb;

// The entry of a sector that holds a part of the DIFAT.
pub const DIFAT_SECTOR: u32 = 0xffff_fffc;

// The entry of a sector that holds a part of the FAT.
pub const FAT_SECTOR: u32 = 0xffff_fffd;

// The entry of the last sector of a chain.
pub const END_OF_CHAIN: u32 = 0xffff_fffe;

// The entry of a sector that is in no chain.
pub const FREE_SECTOR: u32 = 0xffff_ffff;

// The header's and a directory entry's length in bytes, how many entries the header lists, a mini sector's length.
#[derive(Clone, Copy)]
pub struct Lengths {
    pub header: usize,
    pub entry: usize,
    pub listed: usize,
    pub mini: usize,
}

// The lengths above, each equal to its definition: the constants themselves have no contract.
pub fn format_lengths() -> Lengths
    ensures { result ≡ record { header = header_len; entry = dir_entry_len; listed = header_difat; mini = mini_len } }
{
    Lengths {
        header: HEADER_LEN,
        entry: DIR_ENTRY_LEN,
        listed: NUM_DIFAT_ENTRIES_IN_HEADER,
        mini: MINI_SECTOR_LEN,
    }
}

// What an entry of the FAT can be.
#[derive(Clone, Copy, Debug, PartialEq, Eq)]
pub enum Kind {
    Regular,
    Reserved,
    Difat,
    Fat,
    End,
    Free,
}

// The kind of an entry: every u32 has one.
#[tactic(auto, unfolding(crate::specs::Kinds::kind_of))]
pub fn kind_of(entry: u32) -> Kind
    ensures { result ≡ kind_of entry }
{
    match entry {
        0..=0xffff_fffa => Kind::Regular,
        0xffff_fffb => Kind::Reserved,
        0xffff_fffc => Kind::Difat,
        0xffff_fffd => Kind::Fat,
        0xffff_fffe => Kind::End,
        0xffff_ffff => Kind::Free,
    }
}

// One item of the short list: so many FREE, FAT or DIFAT entries in a row, one END, or the numbers from the first to the second.
#[derive(Clone, Copy, Debug, PartialEq, Eq)]
pub enum Sector {
    Free(usize),
    End,
    Fat(usize),
    Difat(usize),
    Range(u32, u32),
}

impl Sector {
    // How many entries the item stands for.
    fn size(self) -> usize
        ensures { result ≡ size_of self }
    {
        match self {
            Sector::Free(n) | Sector::Fat(n) | Sector::Difat(n) => n,
            Sector::End => 1,
            Sector::Range(first, last) => (first..last).len() + 1,
        }
    }
}

// An item of the short list, and the index past its entries.
#[derive(Clone, Copy, Debug, PartialEq, Eq)]
pub struct Found {
    pub item: Sector,
    pub past: usize,
}

// How many entries equal `value` before the first that does not.
fn run_of(sectors: &[u32], value: u32) -> usize
    ensures { result ≡ run_of value sectors.now }
{
    sectors.iter().take_while(|x| **x == value).count()
}

// The last of the numbers first, first + 1, .. that the entries go on with; a number above 0xfffffffb never joins.
fn range_end(sectors: &[u32], first: u32) -> u32
    ensures { result ≡ end_of first sectors.now }
{
    let numbered = (first..INVALID_SECTOR).zip(sectors);
    let more = numbered.take_while(|(end, x)| **x == *end + 1).count();
    first + more as u32
}

// The item that begins at `at`, with the index past it; none at the end of the entries and beyond.
pub fn prettify(sectors: &[u32], at: usize) -> Option<Found>
    ensures { result ≡ item_at sectors.now at }
{
    let left = sectors.get(at..)?;
    let (&first, rest) = left.split_first()?;
    let item = match first {
        END_OF_CHAIN => Sector::End,
        FREE_SECTOR => Sector::Free(run_of(left, FREE_SECTOR)),
        DIFAT_SECTOR => Sector::Difat(run_of(left, DIFAT_SECTOR)),
        FAT_SECTOR => Sector::Fat(run_of(left, FAT_SECTOR)),
        _ => Sector::Range(first, range_end(rest, first)),
    };
    let past = at + item.size();
    Some(Found { item, past })
}

// The short list of the entries that it holds, item by item.
#[derive(Clone, Copy)]
pub struct ShortList<'a>(&'a [u32]);

// The short list of a run of entries.
pub fn short_list(sectors: &[u32]) -> ShortList
    ensures { result.0.now ≡ sectors.now }
{
    ShortList(sectors)
}

impl Iterator for ShortList<'_> {
    type Item = Sector;

    ghost next_gives = { YieldsFirst (λ s. prettify_of s.0.now) };

    ghost remaining = { item_count (λ s. prettify_of s.0.now) };

    fn next(&mut self) -> Option<Sector> {
        let Found { item, past } = prettify(self.0, 0)?;
        self.0 = self.0.split_at(past).1;
        Some(item)
    }
}
