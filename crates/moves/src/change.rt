// What a change makes of a listed chain (document 01, Write and Resize). Room is known before, so nothing fails halfway.
ghost use Rattle.std.specs.Prelude.{◌≡◌, ◌+◌, ◌*◌, ◌≤◌, ◌<◌, length, take};
ghost use Rattle.alloc.specs.Opening.{padded};
ghost use Rattle.fat.specs.Lists.{room_of};
ghost use Rattle.stores.specs.Stores.{Writable};
ghost use Rattle.moves.specs.Held.{chain_in, ChainBecomes};
ghost use Rattle.moves.specs.Change.{shrink as shrunk, seek_of, place_of, bytes_of, edit_more, edit_need, stored, edited, FitsShrink, FitsEdit};

use crate::extend::extend_by;
use disk::disk::Hand;
use hand::{free_run, link_last};
use room::{sectors_for, sectors_over, sectors_past};
use stores::{write as write_bytes, zero_tail};

// What is asked of a chain (document 01, Write and Resize): a buffer's bytes from an offset on, or a new length.
#[derive(Clone, Copy, Debug, PartialEq, Eq)]
pub enum Edit {
    Write(u64),
    Resize(u64),
}

// Zeros a list from a place on.
pub fn zero_from(xs: &mut [u32], from: usize)
    ensures { xs.new ≡ padded (take from xs.old) (length xs.old) }
{
    let kept = from.min(xs.len());
    xs[kept..].fill(0);
}

// Ends the chain of count ids behind its first m, if it has as many, and frees the rest in chain order.
fn shrink(hand: &mut Hand<'_, '_>, ids: &mut [u32], count: usize, m: usize)
    requires { FitsShrink hand.old.len (room_of hand.old.len (length hand.old.image.now)) m (chain_in hand.old ids.old count) }
    ensures { ChainBecomes hand.old hand.new ids.new m (shrunk hand.old.len (chain_in hand.old ids.old count) m) }
{
    if count <= m {
        return;
    }
    link_last(hand, ids, m, consts::END_OF_CHAIN);
    free_run(hand, ids, m, count - m);
    zero_from(ids, m);
}

// How many sectors an edit of so many bytes asks for more than a chain of count has.
pub fn more_of(s: usize, count: usize, edit: Edit, bytes: usize) -> usize
    requires { (2 ≤ s) × (s ≤ 65536) × (seek_of edit ≤ s * count) × (s * count < 18446744073709551616) }
    ensures { result ≡ edit_more s count edit bytes }
{
    match edit {
        Edit::Write(offset) => sectors_past(s, count, offset as usize, bytes),
        Edit::Resize(len) => sectors_over(s, count, len),
    }
}

// How many sectors a chain of count has after an edit of so many bytes.
fn need_of(s: usize, count: usize, edit: Edit, bytes: usize) -> usize
    requires { (2 ≤ s) × (s ≤ 65536) × (seek_of edit ≤ s * count) × (s * count < 18446744073709551616) × (count + edit_more s count edit bytes < 18446744073709551616) }
    ensures { result ≡ edit_need s count edit bytes }
{
    match edit {
        Edit::Write(_) => count + more_of(s, count, edit, bytes),
        Edit::Resize(len) => sectors_for(s, len),
    }
}

// Stores what an edit leaves in the bytes of a chain that had so many sectors and has count: those of a write; for a resize to no more sectors, zeros past the new length.
fn store(image: &mut [u8], s: usize, ids: &[u32], had: usize, count: usize, edit: Edit, buf: &[u8])
    requires { (count ≤ length ids.now) × Writable s (length image.old) (take count ids.now) (place_of edit) (bytes_of edit (length buf.now)) }
    ensures { image.new ≡ stored s had count image.old (take count ids.now) edit buf.now }
{
    match edit {
        Edit::Write(offset) => write_bytes(image, s, &ids[..count], offset as usize, buf),
        Edit::Resize(len) => {
            if count <= had {
                zero_tail(image, s, &ids[..count], len as usize);
            }
        }
    }
}

// Makes an edit of the chain of count ids, and returns how many the chain has then: sectors are taken for what it asks for more, or
// the tail that a resize leaves is freed; then its bytes are stored.
pub fn change(
    hand: &mut Hand<'_, '_>,
    ids: &mut [u32],
    count: usize,
    edit: Edit,
    buf: &[u8],
) -> usize
    requires { FitsEdit hand.old.len (room_of hand.old.len (length hand.old.image.now)) edit (length buf.now) (chain_in hand.old ids.old count) }
    ensures { ChainBecomes hand.old hand.new ids.new result (edited hand.old.len (chain_in hand.old ids.old count) edit buf.now) }
{
    let s = hand.len;
    let need = need_of(s, count, edit, buf.len());
    if count < need {
        extend_by(hand, ids, count, need - count);
    } else {
        shrink(hand, ids, count, need);
    }
    store(hand.image, s, ids, count, need, edit, buf);
    need
}
