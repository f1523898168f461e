//! A list that belongs to one place or one sender.

ghost use Rattle.std.specs.Prelude.{◌≡◌, ◌<◌, ◌++◌, ◌∷◌, [], length, slice_set, OnOk, OnErr};
ghost use Rattle.proxy_laws.specs.Lists.{with_fate};

use proxy_laws::{FateMark, Job};
use std::alloc::AllocError;
use std::marker::Model;

/// A row of a world's table, as the list of its items.
#[derive(Drop)]
pub struct Row<T> {
    items: Vec<T>,
}

impl<T> Model for Row<T> {
    ghost use Rattle.std.specs.Prelude.{List};

    ghost Value = { List T };

    ghost view = { λ row. row.items.items };
}

impl<T: Drop> Row<T> {
    /// The row of these items.
    pub fn of(items: Vec<T>) -> Self
        ensures { result ≡ items.items }
    {
        Row { items }
    }

    pub fn as_slice(&self) -> &[T]
        ensures { result.now ≡ self.now }
    {
        &self.items
    }

    pub fn push(&mut self, item: T) -> Result<(), AllocError>
        ensures ok { OnOk result (self.new ≡ self.old ++ item ∷ []) }
        ensures err { OnErr result (self.new ≡ self.old) }
    {
        self.items.push(item)?;
        Ok(())
    }
}

impl Row<u64> {
    pub fn set(&mut self, index: u32, count: u64)
        requires { index < length self.old }
        ensures { self.new ≡ slice_set self.old index count }
    {
        self.items[index as usize] = count;
    }
}

impl Row<Job> {
    /// Settles job number `n`, if it was taken.
    pub fn settle(&mut self, n: u64, fate: FateMark)
        ensures { self.new ≡ with_fate self.old n fate }
    {
        if n < self.items.len() as u64 {
            self.items[n as usize].fate = Some(fate);
        }
    }
}
