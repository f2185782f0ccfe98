//! Deaths as words, two for each death.
ghost use Rattle.std.specs.Prelude.{◌≡◌, ◌*◌, ◌<◌, ◌≤◌, IfNone, IfSome, length, take};
ghost use Rattle.mars_core.specs.Limits.{max_warriors};
ghost use Rattle.mars_core.specs.Block.{death_words as spec_death_words};

use crate::deaths::{Death, MAX_WARRIORS};
use arrayvec::ArrayVec;

/// Returns the words of the deaths.
pub fn death_words(deaths: &[Death]) -> ArrayVec<u32, 32>
    requires { length deaths.now ≤ max_warriors }
    ensures { result.items ≡ spec_death_words deaths.now }
{
    let mut words = ArrayVec::new();
    for death in deaths {
        words.push(death.warrior);
        words.push(death.turns);
    }
    words
}

/// Reads `count` deaths from `words`, or returns `None` if `count` exceeds the maximum number of warriors.
pub fn read_deaths(words: &[u32], count: u32) -> Option<ArrayVec<Death, MAX_WARRIORS>>
    requires { length words.now ≡ 32 }
    ensures count { IfSome result (λ deaths. length deaths.items ≡ count) }
    ensures words { IfSome result (λ deaths. spec_death_words deaths.items ≡ take (2 * count) words.now) }
    ensures none { IfNone result (max_warriors < count) }
{
    if count as usize > MAX_WARRIORS {
        return None;
    }
    let mut deaths = ArrayVec::new();
    for i in 0..count as usize {
        deaths.push(Death {
            warrior: words[2 * i],
            turns: words[2 * i + 1],
        });
    }
    Some(deaths)
}
