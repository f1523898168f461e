ghost use Rattle.std.specs.Prelude.{◌≡◌, ◌<◌, false, length, IfOk, IfSome};
ghost use Rattle.file_store.specs.DescriptorMap.{current_dir, opening, slot_at, is_free, is_description_open, lowest_free, place_outcome, fill_outcome, look_answer, copy_outcome, copyto_outcome_over, copyto_outcome, take_outcome, dstep, is_number_of, with_slot, IsForm};
ghost use Rattle.std.specs.List.{list_any};
ghost use Rattle.wf_core.specs.Limits.{open_max};
ghost use Rattle.file_store.specs.declared.descriptor_operation.FdAnswer.{FdAnswer};

use crate::descriptor_operation::{CurrentDir, FdAnswer, FdOp, Slot};
use crate::number_set::NumberSet;
use std::alloc::{AllocError, Global};
use std::marker::Model;
use wf_core::{BackendId, DescriptionId, DirId, Errno, OPEN_MAX};

/// The descriptors, seen as what each number below `OPEN_MAX` is, and the current directory.
#[derive(Drop)]
pub struct Descriptors {
    slots: Vec<Slot>,
    /// The free numbers, so that the lowest is found without a look at each slot.
    free: NumberSet,
    /// All numbers from this one on are free.
    end: usize,
    current: CurrentDir,
}

impl Model for Descriptors {
    ghost use Rattle.std.specs.Prelude.{◌≡◌, ◌≤◌, true, drop, map, length};
    ghost use Rattle.std.specs.List.{list_all};
    ghost use Rattle.wf_core.specs.Limits.{open_max};
    ghost use Rattle.file_store.specs.DescriptorMap.{Map, is_free};

    ghost Value = { Map };

    ghost view = { λ d. record { slots = d.slots.items; current = d.current } };

    ghost invariant = { λ d. (length d.slots.items ≡ open_max)
        × (d.free ≡ map is_free d.slots.items) × (d.end ≤ open_max)
        × (list_all is_free (drop d.end d.slots.items) ≡ true) };
}

impl Descriptors {
    /// `OPEN_MAX` free numbers, and the root as the current directory. It takes all the memory that they will ever need.
    pub fn new(alloc: Global) -> Result<Descriptors, AllocError>
        ensures { IfOk result (λ map. map ≡ opening) }
    {
        Ok(Descriptors {
            slots: vec![in alloc; Slot::Free; OPEN_MAX]?,
            free: NumberSet::full(),
            end: 0,
            current: CurrentDir {
                backend: BackendId::new(0),
                dir: DirId::new(0),
            },
        })
    }

    /// Takes one step, which is the definition's. It takes no memory.
    #[tactic(auto, using(crate::proofs::DescriptorMapLemmas::is_form))]
    pub fn apply(&mut self, op: &FdOp) -> FdAnswer
        ensures step { dstep self.old op.now ≡ record { map = self.new; answer = result } }
        ensures form { IsForm op.now result }
        ensures numbers { length self.new.slots ≡ open_max }
    {
        match *op {
            FdOp::Reserve => self.place(Slot::Reserved),
            FdOp::FillFile {
                number,
                backend,
                description,
            } => self.fill(
                number,
                Slot::File {
                    backend,
                    description,
                },
            ),
            FdOp::FillDir {
                number,
                backend,
                dir,
            } => self.fill(number, Slot::Dir { backend, dir }),
            FdOp::Drop(number) => self.fill(number, Slot::Free),
            FdOp::Look(number) => self.look(number),
            FdOp::Copy(number) => self.copy(number),
            FdOp::Copyto { number, target } => self.copy_to(number, target),
            FdOp::Take(number) => self.take(number),
            FdOp::Cwd => self.current_directory(),
            FdOp::Setcwd { backend, dir } => self.set_current(backend, dir),
        }
    }

    fn slot(&self, number: u32) -> Slot
        ensures value { result ≡ slot_at self.now number }
        ensures within { is_free result ≡ false → number < length self.now.slots }
        ensures numbers { length self.now.slots ≡ open_max }
    {
        self.slots
            .get(number as usize)
            .copied()
            .unwrap_or(Slot::Free)
    }

    fn lowest_free(&self) -> Option<u32>
        ensures value { result ≡ lowest_free self.now }
        ensures within { IfSome result (λ number. number < length self.now.slots) }
        ensures numbers { length self.now.slots ≡ open_max }
    {
        self.free.first()
    }

    /// Whether some number names that description.
    fn is_open(&self, backend: BackendId, description: DescriptionId) -> bool
        ensures { result ≡ is_description_open backend description self.now }
    {
        is_named_in(&self.slots[..self.end], backend, description)
    }

    fn set(&mut self, number: u32, slot: Slot)
        requires { number < length self.old.slots }
        ensures value { self.new ≡ with_slot self.old number slot }
        ensures numbers { length self.new.slots ≡ open_max }
    {
        let number = number as usize;
        let free = slot.is_free();
        self.slots[number] = slot;
        if free {
            self.free.insert(number);
        } else {
            self.free.remove(number);
            self.end = self.end.max(number + 1);
        }
    }

    /// Has the lowest free number be what is asked.
    fn place(&mut self, slot: Slot) -> FdAnswer
        ensures step { place_outcome self.old slot (lowest_free self.old)
            ≡ record { map = self.new; answer = result } }
        ensures numbers { length self.new.slots ≡ open_max }
    {
        let Some(number) = self.lowest_free() else {
            return FdAnswer::Fault(Errno::Emfile);
        };
        self.set(number, slot);
        FdAnswer::Fd(number)
    }

    /// Has a reserved number be what is asked. Another stays as it is.
    fn fill(&mut self, number: u32, slot: Slot) -> FdAnswer
        ensures step { fill_outcome self.old number slot (slot_at self.old number)
            ≡ record { map = self.new; answer = result } }
        ensures numbers { length self.new.slots ≡ open_max }
    {
        let old = self.slot(number);
        if !old.is_reserved() {
            return FdAnswer::Done;
        }
        self.set(number, slot);
        FdAnswer::Done
    }

    fn look(&self, number: u32) -> FdAnswer
        ensures step { result ≡ look_answer (slot_at self.now number) }
        ensures numbers { length self.now.slots ≡ open_max }
    {
        match self.slot(number) {
            Slot::File {
                backend,
                description,
            } => FdAnswer::File {
                backend,
                description,
            },
            Slot::Dir { backend, dir } => FdAnswer::Dir { backend, dir },
            Slot::Free | Slot::Reserved => FdAnswer::Fault(Errno::Ebadf),
        }
    }

    fn copy(&mut self, number: u32) -> FdAnswer
        ensures step { copy_outcome self.old (slot_at self.old number)
            ≡ record { map = self.new; answer = result } }
        ensures numbers { length self.new.slots ≡ open_max }
    {
        let slot = self.slot(number);
        if !slot.is_named() {
            return FdAnswer::Fault(Errno::Ebadf);
        }
        self.place(slot)
    }

    fn copy_to(&mut self, number: u32, target: u32) -> FdAnswer
        ensures step { copyto_outcome self.old (slot_at self.old number) target
            ≡ record { map = self.new; answer = result } }
        ensures numbers { length self.new.slots ≡ open_max }
    {
        let slot = self.slot(number);
        if !slot.is_named() || target as usize >= self.slots.len() {
            return FdAnswer::Fault(Errno::Ebadf);
        }
        self.copy_over(target, slot)
    }

    /// Has a number name what is asked, whatever it named before.
    fn copy_over(&mut self, number: u32, slot: Slot) -> FdAnswer
        requires { number < length self.old.slots }
        ensures step { copyto_outcome_over self.old number slot (slot_at self.old number)
            ≡ record { map = self.new; answer = result } }
        ensures numbers { length self.new.slots ≡ open_max }
    {
        match self.slot(number) {
            Slot::Reserved => FdAnswer::Fault(Errno::Ebusy),
            Slot::File {
                backend,
                description,
            } => {
                self.set(number, slot);
                if self.is_open(backend, description) {
                    return FdAnswer::Fd(number);
                }
                FdAnswer::FdLast {
                    number,
                    backend,
                    description,
                }
            }
            Slot::Free | Slot::Dir { .. } => {
                self.set(number, slot);
                FdAnswer::Fd(number)
            }
        }
    }

    fn current_directory(&self) -> FdAnswer
        ensures step { result ≡ FdAnswer.Dir self.now.current.backend self.now.current.dir }
        ensures numbers { length self.now.slots ≡ open_max }
    {
        FdAnswer::Dir {
            backend: self.current.backend,
            dir: self.current.dir,
        }
    }

    fn set_current(&mut self, backend: BackendId, dir: DirId) -> FdAnswer
        ensures step { (result ≡ FdAnswer.Done)
            × (self.new ≡ record self.old { current = current_dir backend dir }) }
        ensures numbers { length self.new.slots ≡ open_max }
    {
        self.current = CurrentDir { backend, dir };
        FdAnswer::Done
    }

    fn take(&mut self, number: u32) -> FdAnswer
        ensures step { take_outcome self.old number (slot_at self.old number)
            ≡ record { map = self.new; answer = result } }
        ensures numbers { length self.new.slots ≡ open_max }
    {
        match self.slot(number) {
            Slot::Free | Slot::Reserved => FdAnswer::Fault(Errno::Ebadf),
            Slot::File {
                backend,
                description,
            } => {
                self.set(number, Slot::Free);
                if self.is_open(backend, description) {
                    return FdAnswer::Done;
                }
                FdAnswer::Last {
                    backend,
                    description,
                }
            }
            Slot::Dir { .. } => {
                self.set(number, Slot::Free);
                FdAnswer::Done
            }
        }
    }
}

/// Whether one of some slots names that description.
fn is_named_in(slots: &[Slot], backend: BackendId, description: DescriptionId) -> bool
    ensures { result ≡ list_any (is_number_of backend description) slots.now }
{
    slots
        .iter()
        .any(|slot| slot.is_number_of(backend, description))
}
