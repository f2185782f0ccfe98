//! The deaths of warriors.
ghost use Rattle.std.specs.Prelude.{◌≡◌, ◌+◌, ◌<◌, ◌≤◌, length, true, ◌++◌, ◌∷◌, [], if◌then◌else◌};
ghost use Rattle.arrayvec.specs.ArrayVec.{array_vec_len};
ghost use Rattle.mars_core.specs.Limits.{max_warriors};
ghost use Rattle.mars_core.specs.Turn.{with_death};
ghost use Rattle.mars_core.specs.Record.{without_last};

use arrayvec::ArrayVec;

/// The maximum number of warriors in a battle.
pub const MAX_WARRIORS: usize = 16;

/// The death of a warrior, given by its index. `turns` is the number of turns that all warriors had executed by then,
/// including the fatal turn if the warrior died in a turn.
#[derive(Clone, Copy, Debug, PartialEq, Eq, Default)]
pub struct Death {
    pub warrior: u32,
    pub turns: u32,
}

/// Appends the death of `warrior` after `turns` turns if `died`.
#[inline(always)]
pub fn note_death(deaths: &mut ArrayVec<Death, MAX_WARRIORS>, died: bool, warrior: u32, turns: u32)
    requires { died ≡ true → array_vec_len deaths.old < max_warriors }
    ensures { deaths.new.items ≡ with_death died warrior turns deaths.old.items }
{
    if died {
        add_death(deaths, Death { warrior, turns });
    }
}

/// Appends a death. The function is marked as cold, so that the code of turns without a death is contiguous.
#[cold]
#[inline(never)]
pub fn add_death(deaths: &mut ArrayVec<Death, MAX_WARRIORS>, death: Death)
    requires { array_vec_len deaths.old < max_warriors }
    ensures { deaths.new.items ≡ deaths.old.items ++ death ∷ [] }
{
    deaths.push(death);
}

/// Removes the last death if `died`.
pub fn remove_last_death(deaths: &mut ArrayVec<Death, MAX_WARRIORS>, died: bool)
    ensures { deaths.new.items ≡ (if died then without_last 1 deaths.old.items else deaths.old.items) }
{
    if died {
        let _ = deaths.pop();
    }
}

/// Returns a copy of the deaths.
pub fn copy_deaths(deaths: &[Death]) -> ArrayVec<Death, MAX_WARRIORS>
    requires { length deaths.now ≤ max_warriors }
    ensures { result.items ≡ deaths.now }
{
    let mut copies = ArrayVec::new();
    let _ = copies.try_extend_from_slice(deaths);
    copies
}
