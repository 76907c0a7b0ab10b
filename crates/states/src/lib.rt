// A state as 121 words: its mode, used length, counts, and the 117 words of its header; and an answer as three (`told`).
#![tactic(auto)]

pub mod told;

ghost use Rattle.std.specs.Prelude.{◌≤◌, ◌≡◌, ◌++◌, true, false, replicate, drop, MatchOption};
ghost use Rattle.states.specs.States.{mode_number, state_words, fits_in, is_version, holds, held_in};

use cfb::State;
use header::Validation;
use header::judge::version_of;
use layout::{header_with, mode_of, words_of};

// The number of a mode: 0 is permissive, 1 strict.
fn number_of_mode(mode: Validation) -> u64
    ensures { result ≡ mode_number mode }
{
    match mode {
        Validation::Permissive => 0,
        Validation::Strict => 1,
    }
}

// The words that hold a header, with zeros where the other numbers go.
fn state_with(header: [u32; 117]) -> [u64; 121]
    ensures { result ≡ replicate 4 0 ++ header }
{
    let mut words = [0u64; 121];
    for i in 0..117 {
        words[4 + i] = u64::from(header[i]);
    }
    words
}

// The words of a state.
pub fn words_of_state(s: State) -> [u64; 121]
    ensures { result ≡ state_words s }
{
    let mut words = state_with(words_of(s.header));
    words[0] = number_of_mode(s.mode);
    words[1] = s.used as u64;
    words[2] = s.sectors as u64;
    words[3] = s.free as u64;
    words
}

// Whether a word is the number of a version.
fn is_version(word: u64) -> bool
    ensures { result ≡ is_version word }
{
    word == 3 || word == 4
}

// The header's words in a state's, where each has 32 bits.
fn held_words(words: &[u64; 121]) -> Option<[u32; 117]>
    ensures { MatchOption result (fits_in (drop 4 words.now) ≡ false) (λ held. (fits_in (drop 4 words.now) ≡ true) × (held ≡ drop 4 words.now)) }
{
    let mut held = [0u32; 117];
    for i in 0..117 {
        held[i] = u32::try_from(words[4 + i]).ok()?;
    }
    Some(held)
}

// The state that words hold, where they hold one; they are its words.
pub fn state_of(words: &[u64; 121]) -> Option<State>
    ensures { MatchOption result (holds words.now ≡ false) (λ s. (holds words.now ≡ true) × (s ≡ held_in words.now) × (state_words s ≡ words.now)) }
{
    if 1 < words[0] || !is_version(words[4]) {
        return None;
    }
    let held = held_words(words)?;
    let version = version_of(held[0]);
    Some(State {
        mode: mode_of(words[0] as u32),
        used: words[1] as usize,
        sectors: words[2] as usize,
        free: words[3] as usize,
        header: header_with(version, held),
    })
}
