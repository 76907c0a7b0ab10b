// Stores into a chain's sectors (document 01, Calls on a chain): a write over its bytes, and zeros
// up to the end of a sector. Each run is stored into the part of the image that is lent for it.
#![tactic(auto)]

ghost use Rattle.std.specs.Prelude.{◌≡◌, ◌+◌, ◌-◌, ◌≤◌, ◌<◌, length, replicate};
ghost use Rattle.lists.specs.Lists.{splice};
ghost use Rattle.sectors.specs.Sectors.{start_of};
ghost use Rattle.stores.specs.Stores.{write_bytes, zero_tail, Writable};

// Copies a run of bytes over the bytes of sector id of an image from x on.
fn write_at(image: &mut [u8], s: usize, id: usize, x: usize, run: &[u8])
    requires s_in_bounds { start_of s id + s ≤ length image.old }
    requires s_nonzero { (0 < s) × (x + length run.now ≤ s) }
    ensures { image.new ≡ splice image.old (start_of s id + x) run.now }
{
    let at = (id + 1) * s + x;
    words::copy(run, &mut image[at..at + run.len()]);
}

// Writes buf over the chain's bytes from the offset on, a run within a sector at a time.
pub fn write(image: &mut [u8], s: usize, ids: &[u32], offset: usize, buf: &[u8])
    requires { Writable s (length image.old) ids.now offset (length buf.now) }
    ensures { image.new ≡ write_bytes s image.old ids.now offset buf.now }
{
    let end = (offset + buf.len()).div_ceil(s);
    let mut x = offset % s;
    let mut rest = buf;
    for id in &ids[offset / s..end] {
        let (run, behind) = rest.split_at(rest.len().min(s - x));
        write_at(image, s, *id as usize, x, run);
        x = 0;
        rest = behind;
    }
}

// Zeros the bytes of sector id of an image from x on.
fn zero_at(image: &mut [u8], s: usize, id: usize, x: usize)
    requires s_in_bounds { start_of s id + s ≤ length image.old }
    requires s_nonzero { (0 < s) × (x ≤ s) }
    ensures { image.new ≡ splice image.old (start_of s id + x) (replicate (s - x) 0) }
{
    let at = (id + 1) * s;
    image[at + x..at + s].fill(0);
}

// Zeros the chain's bytes from the offset to the end of its sector; nothing where a sector begins.
pub fn zero_tail(image: &mut [u8], s: usize, ids: &[u32], offset: usize)
    requires { Writable s (length image.old) ids.now offset 0 }
    ensures { image.new ≡ zero_tail s image.old ids.now offset }
{
    let x = offset % s;
    if x != 0 {
        zero_at(image, s, ids[offset / s] as usize, x);
    }
}
