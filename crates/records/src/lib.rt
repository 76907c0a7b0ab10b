// What a record of the list that the program `replay` reads holds, and the comparison of two headers.
#![tactic(auto)]

ghost use Rattle.std.specs.Prelude.{◌≡◌, true, ◌*◌, ◌≤◌, length};
ghost use Rattle.records.specs.Records.{length_in, number_in, mode_in, numbers_in, header_in};

use header::{Header, Validation, Version};

// The bytes of a record.
pub const RECORD: usize = 1024;

// The length of what a record lends: bytes 2 and 3.
pub fn length_in(case: &[u8; RECORD]) -> usize
    ensures { result ≡ length_in case.now }
{
    words::read::<2>(case, 2) as usize
}

// The answer's number: byte 4.
pub fn number_in(case: &[u8; RECORD]) -> u32
    ensures { result ≡ number_in case.now }
{
    u32::from(case[4])
}

// The mode: byte 1, where 0 is permissive.
pub fn mode_in(case: &[u8; RECORD]) -> Validation
    ensures { result ≡ mode_in case.now }
{
    layout::mode_of(u32::from(case[1]))
}

// Takes as many numbers of four bytes as `numbers` has places.
pub fn take_numbers(held: &[u8], numbers: &mut [u32])
    requires { 4 * length numbers.old ≤ length held.now }
    ensures { numbers.new ≡ numbers_in held.now (length numbers.old) }
{
    for (i, number) in numbers.iter_mut().enumerate() {
        *number = words::read::<4>(held, 4 * i);
    }
}

// The header that 117 words hold beside a version.
pub fn header_in(version: Version, held: &[u8]) -> Header
    requires { length held.now ≡ 468 }
    ensures { result ≡ header_in version held.now }
{
    let mut words = [0; 117];
    take_numbers(held, &mut words);
    layout::header_with(version, words)
}

// Whether two headers are the same.
pub fn same_header(a: Header, b: Header) -> bool
    ensures { result ≡ true → a ≡ b }
{
    a == b
}
