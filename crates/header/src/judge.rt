// The numbers that a header is judged by, and their verdict (document 01, refusals 3 to 8).
ghost use Rattle.std.specs.Prelude.{◌≡◌, ◌≤◌, length};
ghost use Rattle.lists.specs.Rows.{refusal};
ghost use Rattle.consts.specs.Refusals.{ends_with};
ghost use Rattle.header.specs.Versions.{version_of};
ghost use Rattle.header.specs.Read.{fixed_of, unknown as unknown_of, counts_dirs, fixed_rows};

use crate::{Validation, Version};
use consts::refusal::Refusal;
use reader::read_fields;

// The numbers that a header is judged by.
#[derive(Clone, Copy)]
pub struct Fixed {
    pub order: u32,
    pub major: u32,
    pub shift: u32,
    pub mini: u32,
    pub dirs: u32,
    pub cutoff: u32,
}

// The numbers that a whole header is judged by.
pub(crate) fn judged_by(b: &[u8]) -> Fixed
    requires { 512 ≤ length b.now }
    ensures { result ≡ fixed_of b.now }
{
    let n = read_fields(b);
    Fixed {
        order: n.order,
        major: n.major,
        shift: n.shift,
        mini: n.mini,
        dirs: n.dirs,
        cutoff: n.cutoff,
    }
}

// Whether a major version is neither 3 nor 4.
pub(crate) fn unknown(major: u32) -> bool
    ensures { result ≡ unknown_of major }
{
    if major == 3 {
        return false;
    }
    major != 4
}

// Whether directory sectors are counted where version 3 has none, and that matters.
pub(crate) fn counts_dirs(validation: Validation, major: u32, dirs: u32) -> bool
    ensures { result ≡ counts_dirs validation major dirs }
{
    if !validation.is_strict() {
        return false;
    }
    if major != 3 {
        return false;
    }
    dirs != 0
}

// The version of a header whose major version is 3 or 4.
pub fn version_of(major: u32) -> Version
    ensures { result ≡ version_of major }
{
    if major == 4 { Version::V4 } else { Version::V3 }
}

// The first cause among those numbers, if there is one.
pub(crate) fn judge(f: Fixed, validation: Validation) -> Result<(), Refusal>
    ensures { ends_with result ≡ refusal (fixed_rows validation f) }
{
    if f.order != consts::BYTE_ORDER_MARK as u32 {
        return Err(Refusal::ByteOrder);
    }
    if unknown(f.major) {
        return Err(Refusal::Version);
    }
    if f.shift != version_of(f.major).sector_shift() {
        return Err(Refusal::SectorShift);
    }
    if f.mini != consts::MINI_SECTOR_SHIFT as u32 {
        return Err(Refusal::MiniSectorShift);
    }
    if counts_dirs(validation, f.major, f.dirs) {
        return Err(Refusal::DirSectors);
    }
    if f.cutoff != consts::MINI_STREAM_CUTOFF {
        return Err(Refusal::Cutoff);
    }
    Ok(())
}
