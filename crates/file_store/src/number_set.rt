ghost use Rattle.std.specs.Prelude.{◌≡◌, ◌<◌, Bool, true, false, length, replicate, position, slice_set};
ghost use Rattle.wf_core.specs.Limits.{open_max};

use std::marker::Model;

/// A set of numbers below `OPEN_MAX`, seen as the list that says of each whether it is in.
#[derive(Drop)]
pub(crate) struct NumberSet {
    words: [u64; 16],
}

impl Model for NumberSet {
    ghost use Rattle.std.specs.Prelude.{Bool, List};
    ghost use Rattle.file_store.specs.NumberSets.{members};

    ghost Value = { List Bool };

    ghost view = { λ s. members s.words };
}

impl NumberSet {
    /// The set of all these numbers.
    pub(crate) fn full() -> NumberSet
        ensures { result ≡ replicate open_max true }
    {
        NumberSet {
            words: [u64::MAX; 16],
        }
    }

    /// The least number of the set. It looks at 16 words at most.
    pub(crate) fn first(&self) -> Option<u32>
        ensures { result ≡ position (λ b. b) self.now }
    {
        for (i, word) in self.words.iter().enumerate() {
            if *word != 0 {
                return Some(64 * i as u32 + word.trailing_zeros());
            }
        }
        None
    }

    pub(crate) fn insert(&mut self, number: usize)
        requires { number < open_max }
        ensures { self.new ≡ slice_set self.old number true }
    {
        self.words[number / 64] |= 1 << (number % 64);
    }

    pub(crate) fn remove(&mut self, number: usize)
        requires { number < open_max }
        ensures { self.new ≡ slice_set self.old number false }
    {
        self.words[number / 64] &= !(1 << (number % 64));
    }
}
