// What the FAT says of the sectors that a list names (document 01, refusal 14).
ghost use Rattle.std.specs.Prelude.{◌≡◌, true, length};
ghost use Rattle.lists.specs.Lists.{both};
ghost use Rattle.consts.specs.Consts.{difat_sector, fat_sector};
ghost use Rattle.fat.specs.Lists.{all_below};
ghost use Rattle.judge.specs.Judge.{all_marked, set_all, marked_fat};

// Whether the entry of every listed sector is v. No early way out either.
pub fn all_marked(fat: &[u32], ids: &[u32], v: u32) -> bool
    requires { all_below (length fat.now) ids.now ≡ true }
    ensures { result ≡ all_marked fat.now ids.now v }
{
    ids.iter()
        .fold(true, |marked, id| marked & (fat[*id as usize] == v))
}

// Makes the entry of every listed sector v.
pub fn set_all(fat: &mut [u32], ids: &[u32], v: u32)
    requires { all_below (length fat.old) ids.now ≡ true }
    ensures { fat.new ≡ set_all fat.old ids.now v }
{
    for id in ids {
        fat[*id as usize] = v;
    }
}

// Whether the sectors of the DIFAT and of the FAT have their marks.
pub fn listed_marked(fat: &[u32], difats: &[u32], fats: &[u32]) -> bool
    requires difats_value { all_below (length fat.now) difats.now ≡ true }
    requires fats_value { all_below (length fat.now) fats.now ≡ true }
    ensures { result ≡ both (all_marked fat.now difats.now difat_sector) (all_marked fat.now fats.now fat_sector) }
{
    all_marked(fat, difats, consts::DIFAT_SECTOR) && all_marked(fat, fats, consts::FAT_SECTOR)
}

// Gives the sectors of the DIFAT their mark, and then those of the FAT theirs.
pub fn set_listed(fat: &mut [u32], difats: &[u32], fats: &[u32])
    requires difats_value { all_below (length fat.old) difats.now ≡ true }
    requires fats_value { all_below (length fat.old) fats.now ≡ true }
    ensures { fat.new ≡ marked_fat fat.old difats.now fats.now }
{
    set_all(fat, difats, consts::DIFAT_SECTOR);
    set_all(fat, fats, consts::FAT_SECTOR);
}
