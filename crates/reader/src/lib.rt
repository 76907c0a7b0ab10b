// A reader that holds a lent header and its place in the table of fields (MS-CFB 2.2). What it gives is had by functions
// over a slice and a place, and a caller of `read_fields` sees no reader at all.
#![tactic(auto)]

ghost use Rattle.std.specs.Prelude.{◌≡◌};
ghost use Rattle.fields.specs.Fields.{holds_number};
ghost use Rattle.reader.specs.Serve.{served_at, place_after, stepped, numbers_of};

use fields::{ENTRIES, MINOR, RESERVED, number_at};

// The bytes that are read, and the place in the table of the field that comes next.
#[derive(Clone, Copy)]
pub struct Reader<'a> {
    pub bytes: &'a [u8],
    pub at: usize,
}

// The numbers in a header's fields, from the minor version to the count of DIFAT sectors. Each has one word; the Rust's name
// for it stands beside it.
#[derive(Clone, Copy)]
pub struct Numbers {
    // minor_version
    pub minor: u32,
    // version_number
    pub major: u32,
    // byte_order_mark
    pub order: u32,
    // sector_shift
    pub shift: u32,
    // mini_sector_shift
    pub mini: u32,
    // num_dir_sectors
    pub dirs: u32,
    // num_fat_sectors
    pub fats: u32,
    // first_dir_sector
    pub dir: u32,
    // transaction_signature
    pub transaction: u32,
    // mini_stream_cutoff
    pub cutoff: u32,
    // first_minifat_sector
    pub minifat: u32,
    // num_minifat_sectors
    pub minifats: u32,
    // first_difat_sector
    pub difat: u32,
    // num_difat_sectors
    pub difats: u32,
}

// Whether the table has a number at a place.
fn holds_number(place: usize) -> bool
    ensures { result ≡ holds_number place }
{
    (MINOR..=ENTRIES).contains(&place) && place != RESERVED
}

// The number in the field at a place; 0 where the table has none, and in fewer bytes than a header's.
fn served(b: &[u8], place: usize) -> u32
    ensures { result ≡ served_at b.now place }
{
    if consts::HEADER_LEN <= b.len() && holds_number(place) {
        number_at(b, place)
    } else {
        0
    }
}

// The place behind a field; behind the last one, the same place.
fn place_after(place: usize) -> usize
    ensures { result ≡ place_after place }
{
    if place <= ENTRIES { place + 1 } else { place }
}

impl<'a> Reader<'a> {
    // A reader of lent bytes, at a place in the table.
    pub fn new(bytes: &'a [u8], at: usize) -> Reader<'a>
        ensures { (result.bytes ≡ bytes.entry) × (result.at ≡ at) }
    {
        Reader { bytes, at }
    }

    // The number in the field at its place, or 0 where there is none; the reader then stands at the next place.
    pub fn read_number(&mut self) -> u32
        ensures { (result ≡ served_at self.old.bytes.now self.old.at) × (self.new ≡ stepped self.old) }
    {
        let at = self.at;
        let number = served(self.bytes, at);
        self.at = place_after(at);
        number
    }
}

// The numbers in the fields of lent bytes, read one after another by one reader; zeros where the bytes are fewer than a header's.
pub fn read_fields(b: &[u8]) -> Numbers
    ensures { result ≡ numbers_of b.now }
{
    let mut r = Reader::new(b, MINOR);
    let minor = r.read_number();
    let major = r.read_number();
    let order = r.read_number();
    let shift = r.read_number();
    let mini = r.read_number();
    // The reserved bytes.
    r.read_number();
    let dirs = r.read_number();
    let fats = r.read_number();
    let dir = r.read_number();
    let transaction = r.read_number();
    let cutoff = r.read_number();
    let minifat = r.read_number();
    let minifats = r.read_number();
    let difat = r.read_number();
    let difats = r.read_number();
    Numbers {
        minor,
        major,
        order,
        shift,
        mini,
        dirs,
        fats,
        dir,
        transaction,
        cutoff,
        minifat,
        minifats,
        difat,
        difats,
    }
}
