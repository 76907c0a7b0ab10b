// What is judged before any table is touched (document 01, refusals 1 to 11).
ghost use Rattle.std.specs.Prelude.{◌≡◌, ◌≤◌};
ghost use Rattle.header.specs.Versions.{length_of};
ghost use Rattle.fat.specs.Lists.{room_of};
ghost use Rattle.alloc.specs.Early.{EarlySays};

use consts::refusal::Refusal;
use header::{Header, Validation, Version};

// The most sectors that an image may have.
pub const MOST: usize = 16384;

// What is known of an image that nothing stands against before its tables are touched: the sectors' length, how many they are,
// and the header.
#[derive(Clone, Copy)]
pub struct Early {
    pub len: usize,
    pub sectors: usize,
    pub header: Header,
}

// The room R of a lent image of so many bytes, by its sectors' length.
pub(crate) fn room(s: usize, lent: usize) -> usize
    requires { 1 ≤ s }
    ensures { result ≡ room_of s lent }
{
    (lent / s).saturating_sub(1).min(MOST)
}

// The room R of a lent image of so many bytes, by its version.
pub fn room_of(version: Version, lent: usize) -> usize
    ensures { result ≡ room_of (length_of version) lent }
{
    room(version.sector_len(), lent)
}

// Judges an image of which so many bytes are used, by the shortest of the lent tables.
pub fn judge_early(
    image: &[u8],
    used: usize,
    validation: Validation,
    short: usize,
) -> Result<Early, Refusal>
    ensures { EarlySays image.now used validation short result }
{
    if used < consts::HEADER_LEN {
        return Err(Refusal::TooShort);
    }
    if image.len() < used {
        return Err(Refusal::TooShort);
    }
    let header = Header::read_from(image, validation)?;
    let len = header.version.sector_len();
    if used % len != 0 {
        return Err(Refusal::WholeSectors);
    }
    let sectors = used / len - 1;
    if MOST < sectors {
        return Err(Refusal::WholeSectors);
    }
    if short < room(len, image.len()) {
        return Err(Refusal::ShortTable);
    }
    Ok(Early {
        len,
        sectors,
        header,
    })
}
