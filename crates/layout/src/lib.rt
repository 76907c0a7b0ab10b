// A header as 117 words: the number of its version, its seven other numbers, and the 109 entries of its list.
#![tactic(auto)]

ghost use Rattle.std.specs.Prelude.{◌≡◌};
ghost use Rattle.layout.specs.Layout.{mode_of, words_of, header_with};

use header::{Header, Validation, Version};

// The mode of a number: 0 is permissive, any other strict.
pub fn mode_of(mode: u32) -> Validation
    ensures { result ≡ mode_of mode }
{
    match mode {
        0 => Validation::Permissive,
        _ => Validation::Strict,
    }
}

// The words of a header.
pub fn words_of(h: Header) -> [u32; 117]
    ensures { result ≡ words_of h }
{
    let numbers = [
        h.version.number(),
        h.dirs,
        h.fats,
        h.dir,
        h.minifat,
        h.minifats,
        h.difat,
        h.difats,
    ];
    let mut words = [0; 117];
    words[..8].copy_from_slice(&numbers);
    words[8..].copy_from_slice(&h.list);
    words
}

// The header that words hold beside a version.
pub fn header_with(version: Version, words: [u32; 117]) -> Header
    ensures { result ≡ header_with version words }
{
    let mut list = [0; 109];
    list.copy_from_slice(&words[8..]);
    Header {
        version,
        dirs: words[1],
        fats: words[2],
        dir: words[3],
        minifat: words[4],
        minifats: words[5],
        difat: words[6],
        difats: words[7],
        list,
    }
}
