// A chain extended by the moves on what is in hand.
ghost use Rattle.std.specs.Prelude.{◌+◌, length};
ghost use Rattle.fat.specs.Lists.{room_of};
ghost use Rattle.hand.specs.Fits.{FitsMore};
ghost use Rattle.hand.specs.Hand.{extend_one, extend};
ghost use Rattle.moves.specs.Held.{chain_in, ChainBecomes};

use disk::disk::Hand;
use hand::{link_last, take_sector_id};

// Takes a sector, links it behind the last of count ids, and lists it.
fn extend_one(hand: &mut Hand<'_, '_>, ids: &mut [u32], count: usize)
    requires { FitsMore hand.old.len (room_of hand.old.len (length hand.old.image.now)) 1 (chain_in hand.old ids.old count) }
    ensures { ChainBecomes hand.old hand.new ids.new (count + 1) (extend_one hand.old.len (chain_in hand.old ids.old count)) }
{
    let id = take_sector_id(hand);
    link_last(hand, ids, count, id);
    ids[count] = id;
}

// Takes more sectors at the end of the chain of count ids.
pub fn extend_by(hand: &mut Hand<'_, '_>, ids: &mut [u32], count: usize, more: usize)
    requires { FitsMore hand.old.len (room_of hand.old.len (length hand.old.image.now)) more (chain_in hand.old ids.old count) }
    ensures { ChainBecomes hand.old hand.new ids.new (count + more) (extend hand.old.len (chain_in hand.old ids.old count) more) }
{
    for listed in count..count + more {
        extend_one(hand, ids, listed);
    }
}
