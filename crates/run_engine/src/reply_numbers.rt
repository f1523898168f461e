ghost use Rattle.std.specs.Prelude.{◌≡◌, [], map, IfOk, OnOk};
ghost use Rattle.trace_text.specs.SoloText.{numbers_of, with_number};

use std::alloc::{AllocError, Global};
use std::marker::Model;
use wf_core::Text;

/// For each thread the numbers in the replies to its calls so far, `NO_NUMBER` for a reply without one.
#[derive(Drop)]
pub(crate) struct ReplyNumbers {
    threads: Vec<Vec<u32>>,
}

impl Model for ReplyNumbers {
    ghost use Rattle.std.specs.Prelude.{ℕ, List, map};

    ghost Value = { List (List ℕ) };

    ghost view = { λ n. map (λ numbers. numbers.items) n.threads.items };
}

impl ReplyNumbers {
    /// None yet.
    pub(crate) fn new(alloc: Global, threads: &[Text]) -> Result<ReplyNumbers, AllocError>
        ensures { IfOk result (λ numbers. numbers ≡ map (λ name. []) threads.now) }
    {
        let mut numbers = Vec::with_capacity(alloc, threads.len())?;
        for _ in threads {
            numbers.push(Vec::new(alloc))?;
        }
        Ok(ReplyNumbers { threads: numbers })
    }

    /// Those of one thread.
    pub(crate) fn of(&self, thread: u32) -> &[u32]
        ensures { result.now ≡ numbers_of self.now thread }
    {
        match self.threads.get(thread as usize) {
            Some(numbers) => numbers.as_slice(),
            None => &[],
        }
    }

    pub(crate) fn push(&mut self, thread: u32, number: u32) -> Result<(), AllocError>
        ensures { OnOk result (self.new ≡ with_number self.old thread number) }
    {
        let Some(numbers) = self.threads.get_mut(thread as usize) else {
            return Ok(());
        };
        numbers.push(number)?;
        Ok(())
    }
}
