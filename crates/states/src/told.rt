// The answer of a call on a chain as its number and three words, and the state after it as its words.
ghost use Rattle.std.specs.Prelude.{◌≡◌};
ghost use Rattle.consts.specs.Refusals.{ends_with};
ghost use Rattle.states.specs.Answers.{answer_words};
ghost use Rattle.states.specs.States.{state_words};

use crate::words_of_state;
use cfb::{Called, Done};
use consts::refusal::Refusal;

// The three words beside the number of an answer: how many ids, the start, how many bytes; zeros beside a refusal.
pub fn words_of_answer(answer: Result<Done, Refusal>) -> [u64; 3]
    ensures { result ≡ answer_words answer }
{
    match answer {
        Ok(done) => [done.ids as u64, u64::from(done.start), done.bytes as u64],
        Err(_) => [0u64; 3],
    }
}

// Gives a call that changed a chain: the number of its answer, the three words beside it, and the words of the state.
pub fn give(called: Called, state: &mut [u64; 121], answer: &mut [u64; 3]) -> u32
    ensures value { result ≡ ends_with called.answer }
    ensures state_after { state.new ≡ state_words called.state }
    ensures answer_after { answer.new ≡ answer_words called.answer }
{
    *state = words_of_state(called.state);
    *answer = words_of_answer(called.answer);
    called.number()
}
