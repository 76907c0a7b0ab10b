// Lists the FAT of a compound file: reads at most 64 KiB from standard input, opens them strictly, and writes how many
// sectors there are and how many are FREE, then the FAT as `prettify` lists it, one item a line; or why it is refused.
#![tactic(auto)]

ghost use Rattle.std.specs.Prelude.{◌≡◌, ◌≤◌, length, take};
ghost use Rattle.std.specs.Io.KnownBytes.{Consumes};
ghost use Rattle.listing.specs.Listing.{listing};

use listing::list_text;
use std::io::Read;

// Reads until buf is full, the input ends or a read fails, and returns how many bytes it put at the start of buf. They are
// the bytes that the input gave, in their order.
fn read_full<R: Read>(input: &mut R, buf: &mut [u8]) -> usize
    ensures in_bounds { result ≤ length buf.new }
    ensures bytes { Consumes (R.remaining input.old) (R.remaining input.new) (take result buf.new) }
{
    let mut done = 0;
    while let Ok(n @ 1..) = input.read(&mut buf[done..]) {
        done += n;
    }
    done
}

// Writes a text, which can only be the listing of the first n bytes of the buffer that was read into. A write that fails
// ends the output.
fn write_listing(rt: &impl Print, input: &[u8; 65537], n: usize, text: &[u8])
    requires { text.now ≡ listing (take n input.now) }
{
    let _ = rt.write_all(text);
}

// Reads one byte more than an image may have, so that a longer input is told from the longest.
fn main(rt: HostRuntime) {
    let mut input = [0u8; 65537];
    let n = read_full(&mut rt.stdin(), &mut input);
    let mut text = [0u8; 4096];
    let len = list_text(&input[..n], &mut text);
    write_listing(&rt, &input, n, &text[..len]);
}
