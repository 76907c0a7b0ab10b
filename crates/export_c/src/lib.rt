// The functions of `export` under their C names: each calls the one of that name there and promises what it does. A static library
// is made of this crate, and other crates use `export`.
// kept: the same functions as in `export`, since an exported C name stands only in the crate that makes the static library
#![tactic(auto)]

ghost use Rattle.std.specs.Prelude.{◌≡◌, length};
ghost use Rattle.consts.specs.Kinds.{kind_of};
ghost use Rattle.consts.specs.Pretty.{item_at};
ghost use Rattle.header.specs.Read.{read_no, header_left};
ghost use Rattle.items.specs.Items.{kind_number, item_number, item_numbers, named_of, named_text};
ghost use Rattle.layout.specs.Layout.{mode_of, words_of, written_no, bytes_left};
ghost use Rattle.export.specs.Opening.{OpenGives};
ghost use Rattle.export.specs.Chains.{OpenChainGives, ReadChainGives};
ghost use Rattle.export.specs.Changes.{EditChainGives, WriteChainGives, ResizeChainGives};

// Reads a header: 0, or the number of the refusal; `words` then hold the header, or what stands beside the refusal. Mode 0 is permissive.
#[unsafe(no_mangle)]
pub extern "C" fn rasuvelk_read_header(bytes: &[u8], mode: u32, words: &mut [u32; 117]) -> u32
    ensures value { result ≡ read_no (mode_of mode) bytes.now }
    ensures words_after { words.new ≡ words_of (header_left (mode_of mode) bytes.now) }
{
    export::rasuvelk_read_header(bytes, mode, words)
}

// Writes a header over the first 512 bytes: 0, or the number of the refusal, which leaves every byte. A version that is none is judged first.
#[unsafe(no_mangle)]
pub extern "C" fn rasuvelk_write_header(words: &[u32; 117], buf: &mut [u8]) -> u32
    ensures value { result ≡ written_no words.now (length buf.old) }
    ensures buf_after { buf.new ≡ bytes_left words.now buf.old }
{
    export::rasuvelk_write_header(words, buf)
}

// Opens an image of which `used` bytes are used: 0, or the number of the refusal; `state` then holds the state's words, and the tables what the opening leaves in them. Mode 0 is permissive.
#[unsafe(no_mangle)]
pub extern "C" fn rasuvelk_open(
    image: &[u8],
    used: usize,
    mode: u32,
    fat: &mut [u32],
    fats: &mut [u32],
    difats: &mut [u32],
    frees: &mut [u32],
    marks: &mut [u8],
    state: &mut [u64; 121],
) -> u32
    ensures { OpenGives mode image.now used (record { fat = fat.old; fats = fats.old; difats = difats.old; frees = frees.old; marks = marks.old }) result state.new image.now (record { fat = fat.new; fats = fats.new; difats = difats.new; frees = frees.new; marks = marks.new }) }
{
    export::rasuvelk_open(image, used, mode, fat, fats, difats, frees, marks, state)
}

// Opens a chain from `start` on: 0, or the number of the refusal; `answer` then holds how many ids, the start and 0, or zeros, and `ids` what the call leaves in it. Words that hold no state are refused by 19 before anything else, and `ids` are zeros then.
#[unsafe(no_mangle)]
pub extern "C" fn rasuvelk_open_chain(
    state: &[u64; 121],
    image: &[u8],
    fat: &[u32],
    fats: &[u32],
    difats: &[u32],
    frees: &[u32],
    marks: &[u8],
    ids: &mut [u32],
    start: u32,
    answer: &mut [u64; 3],
) -> u32
    ensures { OpenChainGives state.now image.now (record { fat = fat.now; fats = fats.now; difats = difats.now; frees = frees.now; marks = marks.now }) ids.old start result answer.new state.now image.now (record { fat = fat.now; fats = fats.now; difats = difats.now; frees = frees.now; marks = marks.now }) ids.new }
{
    export::rasuvelk_open_chain(
        state, image, fat, fats, difats, frees, marks, ids, start, answer,
    )
}

// Reads a chain from byte `offset` on into the front of `buf`: 0, or the number of the refusal, which leaves `buf`; `answer` then holds how many ids, the start and how many bytes were read, or zeros. Words that hold no state are refused by 19 as above.
#[unsafe(no_mangle)]
pub extern "C" fn rasuvelk_read_chain(
    state: &[u64; 121],
    image: &[u8],
    fat: &[u32],
    fats: &[u32],
    difats: &[u32],
    frees: &[u32],
    marks: &[u8],
    ids: &mut [u32],
    start: u32,
    offset: u64,
    buf: &mut [u8],
    answer: &mut [u64; 3],
) -> u32
    ensures { ReadChainGives state.now image.now (record { fat = fat.now; fats = fats.now; difats = difats.now; frees = frees.now; marks = marks.now }) ids.old start offset buf.old result answer.new state.now image.now (record { fat = fat.now; fats = fats.now; difats = difats.now; frees = frees.now; marks = marks.now }) ids.new buf.new }
{
    export::rasuvelk_read_chain(
        state, image, fat, fats, difats, frees, marks, ids, start, offset, buf, answer,
    )
}

// Writes all of `buf` over a chain's bytes from byte `offset` on: 0, or the number of the refusal, which leaves all but `ids` and `answer`; `state` then holds the words of the state after the write, and `answer` how many ids, the start and how many bytes were written, or zeros. Words that hold no state are refused by 19 as above.
#[unsafe(no_mangle)]
pub extern "C" fn rasuvelk_write_chain(
    state: &mut [u64; 121],
    image: &mut [u8],
    fat: &mut [u32],
    fats: &mut [u32],
    difats: &mut [u32],
    frees: &mut [u32],
    marks: &mut [u8],
    ids: &mut [u32],
    start: u32,
    offset: u64,
    buf: &[u8],
    answer: &mut [u64; 3],
) -> u32
    ensures { WriteChainGives state.old image.old (record { fat = fat.old; fats = fats.old; difats = difats.old; frees = frees.old; marks = marks.old }) ids.old start offset buf.now result answer.new state.new image.new (record { fat = fat.new; fats = fats.new; difats = difats.new; frees = frees.new; marks = marks.new }) ids.new }
{
    export::rasuvelk_write_chain(
        state, image, fat, fats, difats, frees, marks, ids, start, offset, buf, answer,
    )
}

// Resizes a chain to the sectors that `length` bytes ask for: 0, or the number of the refusal, likewise; no bytes are told of.
#[unsafe(no_mangle)]
pub extern "C" fn rasuvelk_resize_chain(
    state: &mut [u64; 121],
    image: &mut [u8],
    fat: &mut [u32],
    fats: &mut [u32],
    difats: &mut [u32],
    frees: &mut [u32],
    marks: &mut [u8],
    ids: &mut [u32],
    start: u32,
    length: u64,
    answer: &mut [u64; 3],
) -> u32
    ensures { ResizeChainGives state.old image.old (record { fat = fat.old; fats = fats.old; difats = difats.old; frees = frees.old; marks = marks.old }) ids.old start length result answer.new state.new image.new (record { fat = fat.new; fats = fats.new; difats = difats.new; frees = frees.new; marks = marks.new }) ids.new }
{
    export::rasuvelk_resize_chain(
        state, image, fat, fats, difats, frees, marks, ids, start, length, answer,
    )
}

// Frees a whole chain: resizes it to 0.
#[unsafe(no_mangle)]
pub extern "C" fn rasuvelk_free_chain(
    state: &mut [u64; 121],
    image: &mut [u8],
    fat: &mut [u32],
    fats: &mut [u32],
    difats: &mut [u32],
    frees: &mut [u32],
    marks: &mut [u8],
    ids: &mut [u32],
    start: u32,
    answer: &mut [u64; 3],
) -> u32
    ensures { ResizeChainGives state.old image.old (record { fat = fat.old; fats = fats.old; difats = difats.old; frees = frees.old; marks = marks.old }) ids.old start 0 result answer.new state.new image.new (record { fat = fat.new; fats = fats.new; difats = difats.new; frees = frees.new; marks = marks.new }) ids.new }
{
    export::rasuvelk_free_chain(
        state, image, fat, fats, difats, frees, marks, ids, start, answer,
    )
}

// The kind of an entry: 0 regular, 1 reserved, 2 DIFAT, 3 FAT, 4 END, 5 FREE.
#[unsafe(no_mangle)]
pub extern "C" fn rasuvelk_kind_of(entry: u32) -> u32
    ensures { result ≡ kind_number (kind_of entry) }
{
    export::rasuvelk_kind_of(entry)
}

// The item that begins at `at`: its number, 0 where none does; its two numbers and the place past it are left in `item`.
#[unsafe(no_mangle)]
pub extern "C" fn rasuvelk_prettify(sectors: &[u32], at: usize, item: &mut [u64; 3]) -> u32
    ensures value { result ≡ item_number (item_at sectors.now at) }
    ensures item_after { item.new ≡ item_numbers (item_at sectors.now at) }
{
    export::rasuvelk_prettify(sectors, at, item)
}

// The length of an item's text; the text is left in `out`, and zeros after it. No item has no text.
#[unsafe(no_mangle)]
pub extern "C" fn rasuvelk_sector_text(kind: u32, a: u64, b: u64, out: &mut [u8; 32]) -> usize
    ensures value { result ≡ (named_text (named_of kind a b)).len }
    ensures out_after { out.new ≡ (named_text (named_of kind a b)).bytes }
{
    export::rasuvelk_sector_text(kind, a, b, out)
}
