// The numbers that stand for a kind of entry and for an item of the short list.
#![tactic(auto)]

ghost use Rattle.std.specs.Prelude.{◌≡◌};
ghost use Rattle.items.specs.Items.{kind_number, sector_number, sector_first, sector_last, item_number, item_numbers, named_range, named_of, named_text};

use consts::{Found, Kind, Sector};
use texts::Text;

// The number of a kind.
// kept: a function and no `From`, which Rust gives to a crate that has the type or the trait; the numbers are this crate's alone.
pub fn number_of_kind(kind: Kind) -> u32
    ensures { result ≡ kind_number kind }
{
    match kind {
        Kind::Regular => 0,
        Kind::Reserved => 1,
        Kind::Difat => 2,
        Kind::Fat => 3,
        Kind::End => 4,
        Kind::Free => 5,
    }
}

// The number of an item's case.
fn number_of_sector(s: Sector) -> u32
    ensures { result ≡ sector_number s }
{
    match s {
        Sector::Free(_) => 1,
        Sector::End => 2,
        Sector::Fat(_) => 3,
        Sector::Difat(_) => 4,
        Sector::Range(_, _) => 5,
    }
}

// An item's count, which is 1 for END, or the first number of its range.
fn first_of_sector(s: Sector) -> u64
    ensures { result ≡ sector_first s }
{
    match s {
        Sector::Free(n) | Sector::Fat(n) | Sector::Difat(n) => n as u64,
        Sector::End => 1,
        Sector::Range(first, _) => first as u64,
    }
}

// The last number of an item's range, or 0 for an item that is none.
fn last_of_sector(s: Sector) -> u64
    ensures { result ≡ sector_last s }
{
    match s {
        Sector::Range(_, last) => last as u64,
        _ => 0,
    }
}

// The number of what was found at a place: 0 where nothing was.
pub fn number_of_item(found: Option<Found>) -> u32
    ensures { result ≡ item_number found }
{
    match found {
        Some(found) => number_of_sector(found.item),
        None => 0,
    }
}

// The two numbers of an item and the place past it, or zeros where nothing was found.
pub fn item_numbers(found: Option<Found>) -> [u64; 3]
    ensures { result ≡ item_numbers found }
{
    match found {
        Some(Found { item, past }) => [first_of_sector(item), last_of_sector(item), past as u64],
        None => [0u64; 3],
    }
}

// A range from a to b, where both are numbers that an entry can have.
#[tactic(auto, unfolding(crate::specs::Items::named_range))]
fn named_range(a: u64, b: u64) -> Option<Sector>
    ensures { result ≡ named_range a b }
{
    let first = u32::try_from(a).ok()?;
    let last = u32::try_from(b).ok()?;
    Some(Sector::Range(first, last))
}

// The item of a case's number, with its count or with the ends of its range, if a caller's numbers name one.
#[tactic(auto, unfolding(crate::specs::Items::named_of))]
pub fn item_named(kind: u32, a: u64, b: u64) -> Option<Sector>
    ensures { result ≡ named_of kind a b }
{
    match kind {
        1 => Some(Sector::Free(a as usize)),
        2 => Some(Sector::End),
        3 => Some(Sector::Fat(a as usize)),
        4 => Some(Sector::Difat(a as usize)),
        5 => named_range(a, b),
        _ => None,
    }
}

// The text of the item that is named, or none.
#[tactic(auto, unfolding(texts::specs::Text::written))]
pub fn named_text(asked: Option<Sector>) -> Text
    ensures { result ≡ named_text asked }
{
    match asked {
        Some(s) => texts::text_of(s),
        None => Text {
            bytes: [0u8; 32],
            len: 0,
        },
    }
}
