// Whether a number stands twice in a list of sectors.
ghost use Rattle.std.specs.Prelude.{◌≡◌, ℕ, ◌≤◌, ◌<◌, true, eqb, length, get_or};
ghost use Rattle.lists.specs.Lists.{every};
ghost use Rattle.fat.specs.Lists.{all_below, different as none_twice};

// Stores at each number of the list a place where the list has that number.
pub fn put_places(list: &[u32], scratch: &mut [u32])
    requires list_value { all_below (length scratch.old) list.now ≡ true }
    requires list_len_bound { length list.now ≤ 65536 }
    ensures { (j : ℕ) → j < length list.now
        → (get_or scratch.new (get_or list.now j 0) 0 < length list.now)
        × (get_or list.now (get_or scratch.new (get_or list.now j 0) 0) 0 ≡ get_or list.now j 0) }
{
    for (j, id) in list.iter().enumerate() {
        scratch[*id as usize] = j as u32;
    }
}

// Whether each number of the list has its own place stored. No early way out: a right list is looked at to its end.
pub fn places_stand(list: &[u32], scratch: &[u32]) -> bool
    requires { all_below (length scratch.now) list.now ≡ true }
    ensures { result ≡ every (length list.now) (λ j. eqb (get_or scratch.now (get_or list.now j 0) 0) j) }
{
    // kept: a flag, as a fold over the places and their numbers is slower (`different` by a quarter).
    let mut stand = true;
    for (j, id) in list.iter().enumerate() {
        if scratch[*id as usize] as usize != j {
            stand = false;
        }
    }
    stand
}

// Whether no number stands twice in the list. The scratch may hold anything before; what it holds after is not said.
pub fn different(list: &[u32], scratch: &mut [u32]) -> bool
    requires list_value { all_below (length scratch.old) list.now ≡ true }
    requires list_len_bound { length list.now ≤ 65536 }
    ensures { result ≡ none_twice list.now }
{
    put_places(list, scratch);
    places_stand(list, scratch)
}
