// The bytes of a chain of sectors (document 01, Calls on a chain): the reading of them.
#![tactic(auto)]

ghost use Rattle.std.specs.Prelude.{◌≡◌, ◌+◌, ◌*◌, ◌≤◌, ◌<◌, length};
ghost use Rattle.lists.specs.Lists.{part};
ghost use Rattle.sectors.specs.Sectors.{start_of, sector_of};
ghost use Rattle.chain.specs.Bytes.{Readable, ReadLeft};

// Copies bytes of sector id of an image, from x on, as many as out has room for.
fn read_at(image: &[u8], s: usize, id: usize, x: usize, out: &mut [u8])
    requires s_in_bounds { start_of s id + s ≤ length image.now }
    requires s_nonzero { (0 < s) × (x + length out.old ≤ s) }
    ensures { out.new ≡ part (sector_of s image.now id) x (length out.old) }
{
    let sector = &image[(id + 1) * s..][..s];
    words::copy(&sector[x..][..out.len()], out);
}

// Reads the chain's bytes from the offset on into the front of buf, a run within a sector at a time:
// as many as buf has room for or the chain still has. The rest of buf stays.
pub fn read(image: &[u8], s: usize, ids: &[u32], offset: usize, buf: &mut [u8]) -> usize
    requires { Readable s (length image.now) ids.now offset }
    ensures { ReadLeft s image.now ids.now offset buf.old result buf.new }
{
    let total = buf.len().min(s * ids.len() - offset);
    let end = (offset + total).div_ceil(s);
    let mut x = offset % s;
    let mut done = 0;
    for id in &ids[offset / s..end] {
        let stop = total.min(done + (s - x));
        read_at(image, s, *id as usize, x, &mut buf[done..stop]);
        x = 0;
        done = stop;
    }
    total
}
