// The readings, the writings and the short lists on the list that the program `replay` reads, each asked of the library again.
#![tactic(auto)]

ghost use Rattle.std.specs.Prelude.{◌≡◌, true, ◌∷◌, ◌++◌, length, IfSome, IsTrue, ◌↔◌, EachIndex, slice_index};
ghost use Rattle.header.specs.Write.{write_no};
ghost use Rattle.answers.specs.Answers.{ReadAgrees, WriteAgrees, ListAgrees, ListedAs, before, after as after_of};

use consts::refusal::ends_with;
use header::{Header, Version};
use records::{RECORD, header_in, length_in, mode_in, number_in, same_header, take_numbers};
use texts::Text;

// Whether the reader gives the number and the words of an R record: the slice from 8 on, the words from 552 on.
pub fn same_read(case: &[u8; RECORD]) -> bool
    ensures { result ≡ true → ReadAgrees case.now }
{
    let len = length_in(case);
    if 544 < len {
        return false;
    }
    let end = 8 + len;
    let read = Header::read_from(&case[8..end], mode_in(case));
    if ends_with(&read) != number_in(case) {
        return false;
    }
    let Ok(version) = Version::try_from(words::read::<4>(case, 552)) else {
        return false;
    };
    let header = read.unwrap_or(Header::none());
    same_header(header, header_in(version, &case[552..1020]))
}

// Puts what a W record's buffer holds before the call: 7 i + 3 at each place i, without what does not fit.
fn put_before(buf: &mut [u8])
    ensures { buf.new ≡ before (length buf.old) }
{
    let mut v: u8 = 3;
    for x in buf.iter_mut() {
        *x = v;
        v = v.wrapping_add(7);
    }
}

// Whether writing a header gives a number and leaves certain bytes.
fn written_as(h: Header, buf: &mut [u8], number: u32, after: &[u8]) -> bool
    ensures { result ≡ true → (write_no h (length buf.old) ≡ number) × (after_of h (length buf.old) ≡ after.now) }
{
    put_before(buf);
    let written = h.write_to(buf);
    ends_with(&written) == number && &*buf == after
}

// Whether the writer gives the number and the bytes of a W record: the words from 8 on, the bytes from 476 on.
pub fn same_write(case: &[u8; RECORD]) -> bool
    ensures { result ≡ true → WriteAgrees case.now }
{
    let len = length_in(case);
    if 540 < len {
        return false;
    }
    let Ok(version) = Version::try_from(words::read::<4>(case, 8)) else {
        return false;
    };
    let header = header_in(version, &case[8..476]);
    let end = 476 + len;
    let mut buf = [0u8; 540];
    written_as(header, &mut buf[..len], number_in(case), &case[476..end])
}

// What stands behind a text and a line feed, if `held` begins with them.
fn after_line<'a>(held: &'a [u8], text: &[u8]) -> Option<&'a [u8]>
    ensures { IfSome result (λ rest. held.now ≡ text.now ++ (10 ∷ rest.now)) }
{
    held.strip_prefix(text)?.strip_prefix(b"\n")
}

// Whether nothing but zeros stands in `held`.
fn only_zeros(held: &[u8]) -> bool
    ensures { IsTrue result ↔ EachIndex held.now (λ k. slice_index held.now k ≡ 0) }
{
    held.iter().all(|x| *x == 0)
}

// Whether the items of the entries are so many, and their lines are all that `held` has but for zeros.
fn same_items(sectors: &[u32], held: &[u8], number: u32) -> bool
    ensures { result ≡ true → ListedAs sectors.now held.now number }
{
    let mut held = held;
    let mut items = 0;
    for item in consts::short_list(sectors) {
        let Text { bytes, len } = texts::text_of(item);
        let Some(rest) = after_line(held, &bytes[..len]) else {
            return false;
        };
        held = rest;
        items += 1;
    }
    items == number as usize && only_zeros(held)
}

// Whether the short list has the items and the text of a P record: the entries from 8 on, the text from 248 on.
pub fn same_list(case: &[u8; RECORD]) -> bool
    ensures { result ≡ true → ListAgrees case.now }
{
    let len = length_in(case);
    if 60 < len {
        return false;
    }
    let mut sectors = [0u32; 60];
    take_numbers(&case[8..248], &mut sectors);
    same_items(&sectors[..len], &case[248..1024], number_in(case))
}
