// Whether the entries of a FAT point as they must, and the marks say where (document 01, refusals 16 to 18): by counting the entries that point at each sector.
ghost use Rattle.std.specs.Prelude.{◌≡◌, fold, length};
ghost use Rattle.lists.specs.Lists.{Below};
ghost use Rattle.points.specs.Parts.{CountsLent, MarksLent, pointer_counted, pointers_of, points_same, sector_right, sectors_right};

// Adds one to the count of the sector that an entry points at, if it points at a sector.
pub fn count_pointer(entry: u32, counts: &mut [u32])
    requires { Below 65536 counts.old }
    ensures { counts.new ≡ pointer_counted entry counts.old }
{
    let i = entry as usize;
    if i < counts.len() {
        counts[i] += 1;
    }
}

// Counts four entries. All four are read before a count is stored, so that none of these reads waits for the store of one of these counts.
pub fn count_four(four: &[u32; 4], counts: &mut [u32])
    requires { Below 65533 counts.old }
    ensures { counts.new ≡ fold (λ xs e. pointer_counted e xs) counts.old four.now }
{
    let [a, b, c, d] = *four;
    count_pointer(a, counts);
    count_pointer(b, counts);
    count_pointer(c, counts);
    count_pointer(d, counts);
}

// Stores in each count how many entries point at its sector. What the counts held before is written over.
// Not inlined: as part of the consistency check the loop takes a tenth of the check's time more, as where the counts lie is read from
// the stack at each entry.
#[inline(never)]
pub fn count_pointers(fat: &[u32], counts: &mut [u32])
    requires { CountsLent (length fat.now) (length counts.old) }
    ensures { counts.new ≡ pointers_of fat.now }
{
    counts.fill(0);
    let (fours, rest) = fat.as_chunks::<4>();
    for four in fours {
        count_four(four, counts);
    }
    for entry in rest {
        count_pointer(*entry, counts);
    }
}

// Whether the mark is the count and at most 1, the entry is not 0xfffffffb, and it is not FREE if an entry points at the sector (refusals 16 to 19).
pub fn sector_right(entry: u32, count: u32, mark: u8) -> bool
    ensures { result ≡ sector_right entry count mark }
{
    let told = (count == mark as u32) & (count <= 1);
    let sound = (entry != consts::FREE_SECTOR) | (count == 0);
    told & ((entry != consts::INVALID_SECTOR) & sound)
}

// Whether that holds of every sector's entry, count and mark. The loop never returns early, so that the compiler can vectorize it.
pub fn sectors_right(fat: &[u32], counts: &[u32], marks: &[u8]) -> bool
    requires counts_len { length counts.now ≡ length fat.now }
    requires marks_len { length marks.now ≡ length fat.now }
    ensures { result ≡ sectors_right fat.now counts.now marks.now }
{
    // kept: by places, since a zip of three slices does not run on vectors
    (0..fat.len()).fold(
        true,
        |right, i| right & sector_right(fat[i], counts[i], marks[i]),
    )
}

// Whether the entries point as they must, and the marks say where. Leaves in each count how many entries point at its sector.
pub fn points_right(fat: &[u32], marks: &[u8], counts: &mut [u32]) -> bool
    requires counts_lent { CountsLent (length fat.now) (length counts.old) }
    requires marks_len { length marks.now ≡ length fat.now }
    ensures { (result ≡ points_same fat.now marks.now) × (counts.new ≡ pointers_of fat.now) }
{
    count_pointers(fat, counts);
    sectors_right(fat, counts, marks)
}

// Whether the entries point as they must, and the marks say where. The scratch may hold anything before; what it holds after is not said.
pub fn same_points(fat: &[u32], marks: &[u8], scratch: &mut [u32]) -> bool
    requires { MarksLent (length fat.now) (length scratch.old) (length marks.now) }
    ensures { result ≡ points_same fat.now marks.now }
{
    let n = fat.len();
    points_right(fat, marks, &mut scratch[..n])
}
