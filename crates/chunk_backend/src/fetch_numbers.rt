ghost use Rattle.std.specs.Prelude.{◌≡◌, ◌==◌};
ghost use Rattle.std.specs.List.{list_any};

use std::marker::Model;
use std::snapshot::Snapshot;

/// Numbers of fetches, in order for a binary search. A contract sees them as they were given.
#[derive(Drop)]
pub(crate) struct FetchNumbers {
    sorted: Vec<u64>,
    given: Snapshot<Vec<u64>>,
}

impl Model for FetchNumbers {
    ghost use Rattle.std.specs.Prelude.{ℕ, List};
    ghost use Rattle.std.specs.List.Sorted.{IsPermutation, IsSorted};
    ghost use Rattle.std.specs.Ordering.{nat_cmp};

    ghost Value = { List ℕ };

    ghost view = { λ n. n.given.value.items };

    ghost invariant = { λ n. IsPermutation n.given.value.items n.sorted.items
        × IsSorted nat_cmp n.sorted.items };
}

impl FetchNumbers {
    pub(crate) fn new(numbers: Vec<u64>) -> FetchNumbers
        ensures { result ≡ numbers.items }
    {
        let given = Snapshot::of(&numbers);
        let mut sorted = numbers;
        sorted.sort_unstable();
        FetchNumbers { sorted, given }
    }

    /// Whether that number is one of them.
    pub(crate) fn has(&self, number: u64) -> bool
        ensures { result ≡ list_any (λ other. other == number) self.now }
    {
        self.sorted.binary_search(&number).is_ok()
    }
}
