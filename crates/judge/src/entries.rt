// What the entries of a FAT say of its sectors (document 01, refusals 15 to 18), and the list of the FREE ones.
ghost use Rattle.std.specs.Prelude.{◌≡◌, ◌≤◌, ◌<◌, length, replicate};
ghost use Rattle.consts.specs.Consts.{max_regular};
ghost use Rattle.consts.specs.Refusals.{ends_with};
ghost use Rattle.judge.specs.Judge.{marks_of, none_dangles};
ghost use Rattle.judge.specs.Judged.{Judged, JudgedOne, Listed};

use consts::refusal::Refusal;

// Judges sector i by the marks that the sectors below it made: refused with 15, 16 or 17, or else its entry is forgiven, and the sector that it points at is marked.
pub fn judge_one(strict: bool, i: usize, fat: &mut [u32], marks: &mut [u8]) -> Result<(), Refusal>
    requires i_in_bounds { i < length fat.old }
    requires marks_len { length marks.old ≡ length fat.old }
    ensures { JudgedOne strict i fat.old marks.old (ends_with result) fat.new marks.new }
{
    let e = fat[i];
    if e == consts::INVALID_SECTOR {
        return Err(Refusal::InvalidEntry);
    }
    if e > consts::MAX_REGULAR_SECTOR {
        return Ok(());
    }
    let t = e as usize;
    if t >= fat.len() {
        if strict {
            return Err(Refusal::PastEnd);
        }
        fat[i] = consts::END_OF_CHAIN;
        return Ok(());
    }
    if marks[t] == 1 {
        return Err(Refusal::PointedTwice);
    }
    marks[t] = 1;
    Ok(())
}

// Judges the sectors upward: the refusal of the first bad one, or else the FAT is forgiven and each pointed-to sector marked. After a refusal the tables hold what was judged so far.
pub fn judge(strict: bool, fat: &mut [u32], marks: &mut [u8]) -> Result<(), Refusal>
    requires fat_len_bound { length fat.old ≤ max_regular }
    requires marks_value { marks.old ≡ replicate (length fat.old) 0 }
    ensures { Judged strict fat.old (ends_with result) fat.new marks.new }
{
    for i in 0..fat.len() {
        judge_one(strict, i, fat, marks)?;
    }
    Ok(())
}

// Whether no pointed-to sector is FREE. No branch in the loop: so it runs on vectors.
pub fn none_dangles(fat: &[u32], marks: &[u8]) -> bool
    requires { marks.now ≡ marks_of (length fat.now) fat.now }
    ensures { result ≡ none_dangles (length fat.now) fat.now }
{
    fat.iter().zip(marks).fold(true, |fine, (entry, mark)| {
        fine & ((*entry != consts::FREE_SECTOR) | (*mark != 1))
    })
}

// Stores the FREE sectors, ascending, and says how many they are; what lies past them stays.
pub fn list_free(fat: &[u32], frees: &mut [u32]) -> usize
    requires fat_in_bounds { length fat.now ≤ length frees.old }
    requires fat_len_bound { length fat.now ≤ max_regular }
    ensures { Listed fat.now frees.old result frees.new }
{
    let mut count = 0;
    for (i, entry) in fat.iter().enumerate() {
        if *entry == consts::FREE_SECTOR {
            frees[count] = i as u32;
            count += 1;
        }
    }
    count
}
