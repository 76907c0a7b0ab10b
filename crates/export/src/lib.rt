// What C and Rust call, by the exports of `export_c`: each takes what it is lent apart, calls the proved library, and gives numbers.
// None asks anything of its caller: every number and every slice has an answer.
// kept: tables, words and numbers apart, and the functions twice, here and in `export_c`, as C lends and names them so
#![tactic(auto)]

ghost use Rattle.std.specs.Prelude.{◌≡◌, length, replicate};
ghost use Rattle.consts.specs.Kinds.{kind_of};
ghost use Rattle.consts.specs.Pretty.{item_at};
ghost use Rattle.header.specs.Read.{read_no, header_left};
ghost use Rattle.items.specs.Items.{kind_number, item_number, item_numbers, named_of, named_text};
ghost use Rattle.layout.specs.Layout.{mode_of, words_of, written_no, bytes_left};
ghost use Rattle.lent.specs.Tables.{tables_in, SameTables};
ghost use Rattle.export.specs.Opening.{OpenGives};
ghost use Rattle.export.specs.Chains.{OpenChainGives, ReadChainGives};
ghost use Rattle.export.specs.Changes.{EditChainGives, WriteChainGives, ResizeChainGives};

use cfb::State;
use consts::refusal::{Refusal, ends_with};
use header::{Header, Version};
use items::{item_named, item_numbers, named_text, number_of_item, number_of_kind};
use layout::{header_with, mode_of, words_of};
use lent::{Tables, TablesMut};
use moves::change::Edit;
use states::told::{give, words_of_answer};
use states::{state_of, words_of_state};
use texts::Text;

// Reads a header: 0, or the number of the refusal; `words` then hold the header, or what stands beside the refusal. Mode 0 is permissive.
pub fn rasuvelk_read_header(bytes: &[u8], mode: u32, words: &mut [u32; 117]) -> u32
    ensures value { result ≡ read_no (mode_of mode) bytes.now }
    ensures words_after { words.new ≡ words_of (header_left (mode_of mode) bytes.now) }
{
    match Header::read_from(bytes, mode_of(mode)) {
        Ok(header) => {
            *words = words_of(header);
            0
        }
        Err(refusal) => {
            *words = words_of(Header::none());
            refusal.number()
        }
    }
}

// Writes a header over the first 512 bytes: 0, or the number of the refusal, which leaves every byte. A version that is none is judged first.
pub fn rasuvelk_write_header(words: &[u32; 117], buf: &mut [u8]) -> u32
    ensures value { result ≡ written_no words.now (length buf.old) }
    ensures buf_after { buf.new ≡ bytes_left words.now buf.old }
{
    match Version::try_from(words[0]) {
        Ok(version) => ends_with(&header_with(version, *words).write_to(buf)),
        Err(refusal) => refusal.number(),
    }
}

// Opens an image of which `used` bytes are used: 0, or the number of the refusal; `state` then holds the state's words, and the tables what the opening leaves in them. Mode 0 is permissive.
pub fn rasuvelk_open(
    image: &[u8],
    used: usize,
    mode: u32,
    fat: &mut [u32],
    fats: &mut [u32],
    difats: &mut [u32],
    frees: &mut [u32],
    marks: &mut [u8],
    state: &mut [u64; 121],
) -> u32
    ensures { OpenGives mode image.now used (record { fat = fat.old; fats = fats.old; difats = difats.old; frees = frees.old; marks = marks.old }) result state.new image.now (record { fat = fat.new; fats = fats.new; difats = difats.new; frees = frees.new; marks = marks.new }) }
{
    let mut tables = TablesMut {
        fat,
        fats,
        difats,
        frees,
        marks,
    };
    let opened = State::open(image, used, mode_of(mode), &mut tables);
    *state = words_of_state(opened.state);
    opened.number()
}

// Refuses words that hold no state, by 19: the id list and the answer are zero then.
fn refuse_words(ids: &mut [u32], answer: &mut [u64; 3]) -> u32
    ensures value { result ≡ 19 }
    ensures ids_after { ids.new ≡ replicate (length ids.old) 0 }
    ensures answer_after { answer.new ≡ replicate 3 0 }
{
    ids.fill(0);
    *answer = [0u64; 3];
    Refusal::Disagrees.number()
}

// Opens a chain from `start` on: 0, or the number of the refusal; `answer` then holds how many ids, the start and 0, or zeros, and `ids` what the call leaves in it. Words that hold no state are refused by 19 before anything else, and `ids` are zeros then.
pub fn rasuvelk_open_chain(
    state: &[u64; 121],
    image: &[u8],
    fat: &[u32],
    fats: &[u32],
    difats: &[u32],
    frees: &[u32],
    marks: &[u8],
    ids: &mut [u32],
    start: u32,
    answer: &mut [u64; 3],
) -> u32
    ensures { OpenChainGives state.now image.now (record { fat = fat.now; fats = fats.now; difats = difats.now; frees = frees.now; marks = marks.now }) ids.old start result answer.new state.now image.now (record { fat = fat.now; fats = fats.now; difats = difats.now; frees = frees.now; marks = marks.now }) ids.new }
{
    let Some(held) = state_of(state) else {
        return refuse_words(ids, answer);
    };
    let tables = Tables {
        fat,
        fats,
        difats,
        frees,
        marks,
    };
    let called = held.open_chain(image, tables, ids, start);
    *answer = words_of_answer(called.answer);
    called.number()
}

// Reads a chain from byte `offset` on into the front of `buf`: 0, or the number of the refusal, which leaves `buf`; `answer` then holds how many ids, the start and how many bytes were read, or zeros. Words that hold no state are refused by 19 as above.
pub fn rasuvelk_read_chain(
    state: &[u64; 121],
    image: &[u8],
    fat: &[u32],
    fats: &[u32],
    difats: &[u32],
    frees: &[u32],
    marks: &[u8],
    ids: &mut [u32],
    start: u32,
    offset: u64,
    buf: &mut [u8],
    answer: &mut [u64; 3],
) -> u32
    ensures { ReadChainGives state.now image.now (record { fat = fat.now; fats = fats.now; difats = difats.now; frees = frees.now; marks = marks.now }) ids.old start offset buf.old result answer.new state.now image.now (record { fat = fat.now; fats = fats.now; difats = difats.now; frees = frees.now; marks = marks.now }) ids.new buf.new }
{
    let Some(held) = state_of(state) else {
        return refuse_words(ids, answer);
    };
    let tables = Tables {
        fat,
        fats,
        difats,
        frees,
        marks,
    };
    let called = held.read(image, tables, ids, start, offset, buf);
    *answer = words_of_answer(called.answer);
    called.number()
}

// Makes an edit of a chain: 0, or the number of the refusal, which leaves all but `ids` and `answer`. Words that hold no state are refused by 19 as above.
fn change_chain(
    state: &mut [u64; 121],
    image: &mut [u8],
    tables: &mut TablesMut<'_>,
    ids: &mut [u32],
    start: u32,
    edit: Edit,
    buf: &[u8],
    answer: &mut [u64; 3],
) -> u32
    ensures same { SameTables tables.old tables.new }
    ensures gives { EditChainGives state.old image.old (tables_in tables.old) ids.old start edit buf.now result answer.new state.new image.new (tables_in tables.new) ids.new }
{
    let Some(held) = state_of(state) else {
        return refuse_words(ids, answer);
    };
    let called = held.change(image, tables, ids, start, edit, buf);
    give(called, state, answer)
}

// Writes all of `buf` over a chain's bytes from byte `offset` on: 0, or the number of the refusal, which leaves all but `ids` and `answer`; `state` then holds the words of the state after the write, and `answer` how many ids, the start and how many bytes were written, or zeros. Words that hold no state are refused by 19 as above.
pub fn rasuvelk_write_chain(
    state: &mut [u64; 121],
    image: &mut [u8],
    fat: &mut [u32],
    fats: &mut [u32],
    difats: &mut [u32],
    frees: &mut [u32],
    marks: &mut [u8],
    ids: &mut [u32],
    start: u32,
    offset: u64,
    buf: &[u8],
    answer: &mut [u64; 3],
) -> u32
    ensures { WriteChainGives state.old image.old (record { fat = fat.old; fats = fats.old; difats = difats.old; frees = frees.old; marks = marks.old }) ids.old start offset buf.now result answer.new state.new image.new (record { fat = fat.new; fats = fats.new; difats = difats.new; frees = frees.new; marks = marks.new }) ids.new }
{
    let mut tables = TablesMut {
        fat,
        fats,
        difats,
        frees,
        marks,
    };
    let edit = Edit::Write(offset);
    change_chain(state, image, &mut tables, ids, start, edit, buf, answer)
}

// Resizes a chain to the sectors that `length` bytes ask for: 0, or the number of the refusal, likewise; no bytes are told of.
pub fn rasuvelk_resize_chain(
    state: &mut [u64; 121],
    image: &mut [u8],
    fat: &mut [u32],
    fats: &mut [u32],
    difats: &mut [u32],
    frees: &mut [u32],
    marks: &mut [u8],
    ids: &mut [u32],
    start: u32,
    length: u64,
    answer: &mut [u64; 3],
) -> u32
    ensures { ResizeChainGives state.old image.old (record { fat = fat.old; fats = fats.old; difats = difats.old; frees = frees.old; marks = marks.old }) ids.old start length result answer.new state.new image.new (record { fat = fat.new; fats = fats.new; difats = difats.new; frees = frees.new; marks = marks.new }) ids.new }
{
    let mut tables = TablesMut {
        fat,
        fats,
        difats,
        frees,
        marks,
    };
    let edit = Edit::Resize(length);
    change_chain(state, image, &mut tables, ids, start, edit, &[], answer)
}

// Frees a whole chain: resizes it to 0.
pub fn rasuvelk_free_chain(
    state: &mut [u64; 121],
    image: &mut [u8],
    fat: &mut [u32],
    fats: &mut [u32],
    difats: &mut [u32],
    frees: &mut [u32],
    marks: &mut [u8],
    ids: &mut [u32],
    start: u32,
    answer: &mut [u64; 3],
) -> u32
    ensures { ResizeChainGives state.old image.old (record { fat = fat.old; fats = fats.old; difats = difats.old; frees = frees.old; marks = marks.old }) ids.old start 0 result answer.new state.new image.new (record { fat = fat.new; fats = fats.new; difats = difats.new; frees = frees.new; marks = marks.new }) ids.new }
{
    rasuvelk_resize_chain(
        state, image, fat, fats, difats, frees, marks, ids, start, 0, answer,
    )
}

// The kind of an entry: 0 regular, 1 reserved, 2 DIFAT, 3 FAT, 4 END, 5 FREE.
pub fn rasuvelk_kind_of(entry: u32) -> u32
    ensures { result ≡ kind_number (kind_of entry) }
{
    number_of_kind(consts::kind_of(entry))
}

// The item that begins at `at`: its number, 0 where none does; its two numbers and the place past it are left in `item`.
pub fn rasuvelk_prettify(sectors: &[u32], at: usize, item: &mut [u64; 3]) -> u32
    ensures value { result ≡ item_number (item_at sectors.now at) }
    ensures item_after { item.new ≡ item_numbers (item_at sectors.now at) }
{
    let found = consts::prettify(sectors, at);
    *item = item_numbers(found);
    number_of_item(found)
}

// The length of an item's text; the text is left in `out`, and zeros after it. No item has no text.
pub fn rasuvelk_sector_text(kind: u32, a: u64, b: u64, out: &mut [u8; 32]) -> usize
    ensures value { result ≡ (named_text (named_of kind a b)).len }
    ensures out_after { out.new ≡ (named_text (named_of kind a b)).bytes }
{
    let Text { bytes, len } = named_text(item_named(kind, a, b));
    *out = bytes;
    len
}
