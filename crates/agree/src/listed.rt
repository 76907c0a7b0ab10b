// Whether lent lists are those of an image's DIFAT and FAT sectors, and right (document 01, refusal 12).
ghost use Rattle.std.specs.Prelude.{◌≡◌, length};
ghost use Rattle.lists.specs.Lists.{both, same_list};
ghost use Rattle.fat.specs.Lists.{all_below, chain_right, difat_at, difats_of, ends as ends_of, fats_of, fats_right};
ghost use Rattle.agree.specs.Parts.{ChainLent, ListsLent, PlacesLent, PlacesRoom, ChainRoom, lists_same};

use fat::listed::counts_right;
use fat::load::{list_difats, list_fats, rest_free};
use fat::places::different;
use header::Header;

// Whether the list is the DIFAT chain, below n and ended. The room, as long as the list, is written over.
pub fn is_chain(
    image: &[u8],
    s: usize,
    n: usize,
    first: u32,
    difats: &[u32],
    room: &mut [u32],
) -> bool
    requires { ChainRoom s n (length image.now) (length difats.now) (length room.old) }
    ensures { result ≡ both (both (all_below n (difats_of s image.now first (length difats.now))) (ends_of (difat_at s image.now first (length difats.now)))) (same_list difats.now (difats_of s image.now first (length difats.now))) }
{
    if !list_difats(image, s, n, first, room) {
        return false;
    }
    *difats == *room
}

// Whether the list is the DIFAT chain, and right. The scratch may hold anything before; what it holds after is not said.
pub fn same_difats(
    image: &[u8],
    s: usize,
    n: usize,
    first: u32,
    difats: &[u32],
    scratch: &mut [u32],
) -> bool
    requires { ChainLent s n (length image.now) (length difats.now) (length scratch.old) }
    ensures { result ≡ both (chain_right s image.now first n (length difats.now)) (same_list difats.now (difats_of s image.now first (length difats.now))) }
{
    let d = difats.len();
    if !is_chain(image, s, n, first, difats, &mut scratch[..d]) {
        return false;
    }
    different(difats, scratch)
}

// Whether the list is that of the DIFAT's first places, below n. The room, as long as the list, is written over.
pub fn are_places(
    image: &[u8],
    s: usize,
    n: usize,
    list: &[u32],
    difats: &[u32],
    fats: &[u32],
    room: &mut [u32],
) -> bool
    requires { PlacesRoom s n (length image.now) list.now difats.now (length fats.now) (length room.old) }
    ensures { result ≡ both (all_below n (fats_of s image.now list.now difats.now (length fats.now))) (same_list fats.now (fats_of s image.now list.now difats.now (length fats.now))) }
{
    if !list_fats(image, s, n, list, difats, room) {
        return false;
    }
    *fats == *room
}

// Whether the list is that of the FAT's sectors, and right. The scratch may hold anything before; what it holds after is not said.
pub fn same_fats(
    image: &[u8],
    s: usize,
    n: usize,
    list: &[u32],
    difats: &[u32],
    fats: &[u32],
    scratch: &mut [u32],
) -> bool
    requires { PlacesLent s n (length image.now) list.now difats.now (length fats.now) (length scratch.old) }
    ensures { result ≡ both (fats_right s image.now n list.now difats.now (length fats.now)) (same_list fats.now (fats_of s image.now list.now difats.now (length fats.now))) }
{
    let k = fats.len();
    if !are_places(image, s, n, list, difats, fats, &mut scratch[..k]) {
        return false;
    }
    if !rest_free(image, s, n, list, difats, k) {
        return false;
    }
    different(fats, scratch)
}

// Whether both lists are the image's, and right. The scratch may hold anything before; what it holds after is not said.
pub fn same_lists(
    image: &[u8],
    s: usize,
    n: usize,
    h: Header,
    fats: &[u32],
    difats: &[u32],
    scratch: &mut [u32],
) -> bool
    requires { ListsLent s n (length image.now) (length fats.now) (length difats.now) (length scratch.old) }
    ensures { result ≡ lists_same s image.now h n fats.now difats.now }
{
    if !counts_right(h, fats.len(), difats.len()) {
        return false;
    }
    if !same_difats(image, s, n, h.difat, difats, scratch) {
        return false;
    }
    let list = h.list;
    same_fats(image, s, n, &list, difats, fats, scratch)
}
