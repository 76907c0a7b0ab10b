// The openings and the chains on the list that the program `replay` reads: the image that a record describes is made and opened,
// and what came of it, or of a chain of it, compared.
#![tactic(auto)]

ghost use Rattle.std.specs.Prelude.{◌≡◌, true, ◌<◌, length, get_or};
ghost use Rattle.lent.specs.Tables.{tables_of};
ghost use Rattle.cfb.specs.Calls.{told_by};
ghost use Rattle.records.specs.Records.{numbers_in};
ghost use Rattle.openings.specs.Openings.{place_in, entries_in, sector_bytes, tables_in, CountedAs, ToldAs, Says, OpenedAs, ImageAgrees};

use cfb::{Done, State};
use consts::refusal::{Refusal, ends_with};
use lent::{Tables, TablesMut};
use records::{RECORD, length_in, mode_in, number_in, take_numbers};

// What a lent table of numbers is full of before a call; the marks are full of its byte.
const RUBBISH: u32 = 0xaaaa_aaaa;

// The sector of the FAT: the entries of the record, and FREE behind them.
fn entries_of(case: &[u8; RECORD]) -> [u8; 512]
    ensures { result ≡ entries_in case.now }
{
    let mut sector = [0xffu8; 512];
    sector[..96].copy_from_slice(&case[520..616]);
    sector
}

// Puts a header and 24 sectors: the header of the record, its FAT sector in its place, and zeros.
// kept: into a lent image, as 12,800 bytes that are returned are copied twice.
fn put_sectors(case: &[u8; RECORD], place: usize, image: &mut [u8; 12800])
    requires { (place ≡ place_in case.now) × (place < 24) }
    ensures { image.new ≡ sector_bytes case.now }
{
    image.fill(0);
    image[..512].copy_from_slice(&case[8..520]);
    let at = 512 * (place + 1);
    image[at..at + 512].copy_from_slice(&entries_of(case));
}

// Whether a table holds the 24 numbers that stand in 96 bytes.
fn same_table(table: &[u32], held: &[u8]) -> bool
    requires { length held.now ≡ 96 }
    ensures { result ≡ true → table.now ≡ numbers_in held.now 24 }
{
    let mut numbers = [0u32; 24];
    take_numbers(held, &mut numbers);
    table == numbers.as_slice()
}

// Whether the tables are those of the record.
fn same_tables(tables: Tables<'_>, case: &[u8; RECORD]) -> bool
    ensures { result ≡ true → tables_of tables.entry ≡ tables_in case.now }
{
    same_table(tables.fat, &case[616..712])
        && same_table(tables.frees, &case[712..808])
        && same_table(tables.fats, &case[832..928])
        && same_table(tables.difats, &case[928..1024])
        && tables.marks == &case[808..832]
}

// Whether an opening's number and counts are those of the record: the number in byte 4, the FREE sectors in byte 6, all sectors in byte 7.
fn same_counts(number: u32, state: State, case: &[u8; RECORD]) -> bool
    ensures { result ≡ true → CountedAs case.now number state }
{
    number == number_in(case)
        && state.free == usize::from(case[6])
        && state.sectors == usize::from(case[7])
}

// How many ids an answer tells of: none beside a refusal.
fn ids_told(answer: Result<Done, Refusal>) -> usize
    ensures { result ≡ get_or (told_by answer) 1 0 }
{
    match answer {
        Ok(done) => done.ids,
        Err(_) => 0,
    }
}

// Whether an answer and the id list beside it are those of the record: the number in byte 4, the count in byte 6, the list from 620 on.
fn same_told(answer: Result<Done, Refusal>, ids: &[u32], case: &[u8; RECORD]) -> bool
    ensures { result ≡ true → ToldAs case.now (told_by answer) ids.now }
{
    ends_with(&answer) == number_in(case)
        && ids_told(answer) == usize::from(case[6])
        && same_table(ids, &case[620..716])
}

// Whether the record says what opening an image gave, by its kind: an O record has the number, the counts and the tables;
// a C record is of an image that opens, and has what opening the chain from the start at 616 gives. Any other kind says nothing.
fn record_says(
    case: &[u8; RECORD],
    image: &[u8],
    number: u32,
    state: State,
    tables: Tables<'_>,
) -> bool
    ensures { result ≡ true → Says case.now image.now number state (tables_of tables.entry) }
{
    match case[0] {
        b'O' => same_counts(number, state, case) && same_tables(tables, case),
        b'C' if number == 0 => {
            let mut ids = [RUBBISH; 24];
            let start = words::read::<4>(case, 616);
            let called = state.open_chain(image, tables, &mut ids, start);
            same_told(called.answer, &ids, case)
        }
        _ => false,
    }
}

// Whether opening all bytes of an image gives what the record says.
fn opened_as(case: &[u8; RECORD], image: &[u8]) -> bool
    ensures { result ≡ true → OpenedAs case.now image.now }
{
    let mut tables = TablesMut {
        fat: &mut [RUBBISH; 24],
        fats: &mut [RUBBISH; 24],
        difats: &mut [RUBBISH; 24],
        frees: &mut [RUBBISH; 24],
        marks: &mut [0xaau8; 24],
    };
    let opened = State::open(image, image.len(), mode_in(case), &mut tables);
    record_says(case, image, opened.number(), opened.state, tables.as_ref())
}

// Whether the image of an O or a C record gives its answer: the header from 8 on, the entries from 520 on, then what the record says.
pub fn same_image(case: &[u8; RECORD]) -> bool
    ensures { result ≡ true → ImageAgrees case.now }
{
    let n = length_in(case);
    let place = usize::from(case[5]);
    if 24 < n || 23 < place {
        return false;
    }
    let mut image = [0u8; 12800];
    put_sectors(case, place, &mut image);
    opened_as(case, &image[..512 * (n + 1)])
}
