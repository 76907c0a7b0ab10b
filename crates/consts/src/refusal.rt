// Why a call refuses, and the number that the specification gives each cause.
ghost use Rattle.std.specs.Prelude.{◌≡◌, Some};
ghost use Rattle.std.specs.Fmt.{WritesOnOk};
ghost use Rattle.consts.specs.Refusals.{number_of, refusal_text, ends_with};

use std::error::Error;
use std::fmt;

// Why a call refuses (document 01, refusals 1 to 26), by the names of the Rust package.
#[derive(Clone, Copy, Debug, PartialEq, Eq)]
pub enum Refusal {
    // 1: fewer than 512 bytes, or more are said to be used than there are.
    TooShort,
    // 2: the first eight bytes are not the signature.
    Signature,
    // 3: the byte order mark is not 0xfffe.
    ByteOrder,
    // 4: the major version is neither 3 nor 4.
    Version,
    // 5: the sector shift is not that of the version, 9 or 12.
    SectorShift,
    // 6: the mini sector shift is not 6.
    MiniSectorShift,
    // 7: version 3 counts directory sectors, in strict mode or in a header to be written.
    DirSectors,
    // 8: the mini stream cutoff is not 4096.
    Cutoff,
    // 9: the header's list of FAT sectors is not ids and then FREE to its end.
    HeaderList,
    // 10: the used bytes are no whole number of sectors, or more than 16,384 besides the header's.
    WholeSectors,
    // 11: a lent table or the id list has fewer elements than the image has room for sectors.
    ShortTable,
    // 12: the counts or lists of FAT and DIFAT sectors are not those that the number of sectors asks for.
    FatLists,
    // 13: a FAT entry past the last sector is not FREE.
    FatTail,
    // 14: a FAT or DIFAT sector is not marked as one in the FAT, in strict mode.
    Unmarked,
    // 15: an entry names a sector that is not there, in strict mode.
    PastEnd,
    // 16: two entries name one sector.
    PointedTwice,
    // 17: an entry is 0xfffffffb, which means nothing.
    InvalidEntry,
    // 18: an entry names a sector that is FREE.
    FreePointee,
    // 19: state and tables are not what an opening of the image gives.
    Disagrees,
    // 20: the start is neither END_OF_CHAIN nor a sector of the image.
    BadStart,
    // 21: the chain meets an entry that is neither END_OF_CHAIN nor a sector of the image.
    BrokenChain,
    // 22: the chain comes back to its start.
    Loop,
    // 23: the offset lies past the chain's end.
    Offset,
    // 24: the change would end with more sectors than there is room for.
    NoRoom,
    // 25: a change was asked for from the middle of a chain.
    MidChain,
    // 26: a change was asked for of an image that was opened permissively.
    PermissiveChange,
}

impl Refusal {
    // The number of the refusal.
    pub fn number(self) -> u32
        ensures { result ≡ number_of self }
    {
        match self {
            Refusal::TooShort => 1,
            Refusal::Signature => 2,
            Refusal::ByteOrder => 3,
            Refusal::Version => 4,
            Refusal::SectorShift => 5,
            Refusal::MiniSectorShift => 6,
            Refusal::DirSectors => 7,
            Refusal::Cutoff => 8,
            Refusal::HeaderList => 9,
            Refusal::WholeSectors => 10,
            Refusal::ShortTable => 11,
            Refusal::FatLists => 12,
            Refusal::FatTail => 13,
            Refusal::Unmarked => 14,
            Refusal::PastEnd => 15,
            Refusal::PointedTwice => 16,
            Refusal::InvalidEntry => 17,
            Refusal::FreePointee => 18,
            Refusal::Disagrees => 19,
            Refusal::BadStart => 20,
            Refusal::BrokenChain => 21,
            Refusal::Loop => 22,
            Refusal::Offset => 23,
            Refusal::NoRoom => 24,
            Refusal::MidChain => 25,
            Refusal::PermissiveChange => 26,
        }
    }
}

// The number that an answer ends with: 0 for an acceptance.
pub fn ends_with<T>(answer: &Result<T, Refusal>) -> u32
    ensures { result ≡ ends_with answer.now }
{
    match answer {
        Ok(_) => 0,
        Err(refusal) => refusal.number(),
    }
}

// The word, a space and the number, as `refusal 1`.
impl fmt::Display for Refusal {
    ghost output = { λ e. Some (refusal_text e) };

    fn fmt<W: fmt::Write>(&self, f: &mut fmt::Formatter<W>) -> fmt::Result
        ensures { WritesOnOk W.write_str_gives f.old result (refusal_text self.now) f.new }
    {
        write!(f, "refusal {}", self.number())
    }
}

impl Error for Refusal {}
