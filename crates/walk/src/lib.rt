// The walk of a chain over a table of numbers (document 01, Calls on a chain): the ids that it lists.
#![tactic(auto)]

ghost use Rattle.std.specs.Prelude.{◌≡◌, ◌≤◌};
ghost use Rattle.consts.specs.Consts.{max_regular};
ghost use Rattle.walk.specs.Walk.{leads as leads_on};
ghost use Rattle.walk.specs.Walked.{Walkable, WalkLeft};

use consts::refusal::Refusal;

// Whether a number is END or one of n sectors.
fn leads(n: usize, e: u32) -> bool
    requires { n ≤ max_regular }
    ensures { result ≡ leads_on n e }
{
    e == consts::END_OF_CHAIN || (e as usize) < n
}

// Lists the ids of the chain from start at the front of ids, and the rest stays; or 20, 21 or 22,
// and ids then hold those that were met. No sector is pointed to twice, so the walk ends.
pub fn walk(fat: &[u32], start: u32, ids: &mut [u32]) -> Result<usize, Refusal>
    requires { Walkable fat.now ids.old }
    ensures { WalkLeft fat.now start ids.old result ids.new }
{
    if !leads(fat.len(), start) {
        return Err(Refusal::BadStart);
    }
    let mut id = start;
    let mut count = 0;
    // kept: the chain ends at END, which it meets while the list has room; a `for` over the list would need an answer for a full one
    while id != consts::END_OF_CHAIN {
        ids[count] = id;
        count += 1;
        id = fat[id as usize];
        if !leads(fat.len(), id) {
            return Err(Refusal::BrokenChain);
        }
        if id == start {
            return Err(Refusal::Loop);
        }
    }
    Ok(count)
}
