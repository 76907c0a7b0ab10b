// Replays a list of the Rust's answers with no Rust at hand: reads records of 1,024 bytes, has the library answer each again,
// and says how many answers there are and which differ.
#![tactic(auto)]

ghost use Rattle.std.specs.Prelude.{◌≡◌, true, IsSome};
ghost use Rattle.std.specs.Io.KnownBytes.{Consumes};
ghost use Rattle.replay.specs.Agrees.{Agrees, Replays};

use answers::{same_list, same_read, same_write};
use openings::same_image;
use records::RECORD;
use std::io::Read;

// How many records are replayed at most: nothing says that the input ends.
const MOST: u64 = 100_000;

// How many answers there were, and how many of them differ.
#[derive(Clone, Copy)]
struct Sum {
    answers: u64,
    differ: u64,
}

// Whether the library gives the answer that a record holds. What is of no known kind differs: `same_image` takes O and C
// records apart, and refuses any other.
fn same_answer(case: &[u8; RECORD]) -> bool
    ensures { result ≡ true → Agrees case.now }
{
    match case[0] {
        b'R' => same_read(case),
        b'W' => same_write(case),
        b'P' => same_list(case),
        _ => same_image(case),
    }
}

// Reads the next record into the buffer and replays it there, and says whether the answer is the same; input that ends or
// fails before the record is full ends the list. No contract can say which bytes standard input gives: what is the same is
// said of those that the buffer then holds, and they are the bytes that the input gave.
fn replay_next<R: Read>(input: &mut R, case: &mut [u8; RECORD]) -> Option<bool>
    ensures same { result ≡ Some true → Agrees case.new }
    ensures read { IsSome result → Consumes (R.remaining input.old) (R.remaining input.new) case.new }
{
    input.read_exact(case).ok()?;
    Some(same_answer(case))
}

// Writes the line of an answer that differs, with its place in the list, from 1 on.
fn say_place(rt: &impl Print, place: u64) {
    let _ = println!(rt; "differs {place}");
}

// Replays the list to its end and names each answer that differs.
fn replay_all(rt: &(impl Input + Print)) -> Sum
    ensures { Replays result.answers result.differ }
{
    let mut input = rt.reader();
    let mut case = [0u8; RECORD];
    let mut answers = 0;
    let mut differ = 0;
    for place in 1..=MOST {
        let Some(same) = replay_next(&mut input, &mut case) else {
            break;
        };
        answers = place;
        if !same {
            differ += 1;
            say_place(rt, place);
        }
    }
    Sum { answers, differ }
}

// Writes how many answers there were, and how many differ, which can only be what a replay counts.
fn say_sum(rt: &impl Print, sum: Sum)
    requires { Replays sum.answers sum.differ }
{
    let Sum { answers, differ } = sum;
    let _ = println!(rt; "{answers} answers, {differ} differ");
}

// Replays the list and says what came of it.
fn main(rt: HostRuntime) {
    let sum = replay_all(&rt);
    say_sum(&rt, sum);
}
