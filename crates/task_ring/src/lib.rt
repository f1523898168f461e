//! The growing ring of Emscripten's em_task_queue.c: a first-in first-out queue in a circular buffer.
#![tactic(auto)]

ghost use Rattle.std.specs.Prelude.{◌≡◌, ◌+◌, ◌-◌, ◌*◌, ◌<◌, ◌≤◌, ◌↔◌, [], ◌∷◌, ◌++◌, length, slice_get, drop, IsOk, IsNone, OnOk, OnErr, OnSome};
ghost use Rattle.task_ring.specs.Ring.{first_max, spare};
ghost use Rattle.task_ring.specs.Cells.{around, items_in};

use std::alloc::{AllocError, Global};
use std::marker::Model;
use std::mem;

/// A queue in a circular buffer of cells, which starts without cells and doubles when no cell is spare.
///
/// It holds one item fewer than it has cells. It only moves its items, so `T` may be a type that cannot be dropped or cloned.
/// The ring itself cannot be dropped either: it ends by `close`.
pub struct Ring<T> {
    cells: Vec<Option<T>>,
    /// The cell of the first item.
    head: usize,
    /// The cell after the last item, which is the head exactly where the ring is empty.
    tail: usize,
    /// How many cells the first `reserve` makes.
    first: usize,
}

impl<T> Model for Ring<T> {
    ghost use Rattle.std.specs.Prelude.{length};
    ghost use Rattle.task_ring.specs.Ring.{RingView, ring_code};

    ghost Value = { RingView T };

    ghost coded = { ring_code T.code };

    ghost use Rattle.task_ring.specs.Cells.{from_head, items_in, IsSound};

    ghost view = { λ r. record {
      items = items_in (from_head r.head r.cells.items);
      cells = length r.cells.items;
      first = r.first;
    } };

    ghost invariant = { λ r. IsSound r.cells.items r.head r.tail r.first };
}

impl<T> Ring<T> {
    /// An empty ring, which takes no memory until its first `reserve` makes `first` cells, 2 to 65,536. Emscripten's
    /// EM_TASK_QUEUE_INITIAL_CAPACITY is 128.
    pub fn new(alloc: Global, first: usize) -> Ring<T>
        requires least { 2 ≤ first }
        requires most { first ≤ first_max }
        ensures { result ≡ record { items = []; cells = 0; first = first } }
    {
        Ring {
            cells: Vec::new(alloc),
            head: 0,
            tail: 0,
            first,
        }
    }

    /// How many items can be pushed before the ring has to grow.
    pub fn spare(&self) -> usize
        ensures value { result ≡ spare self.now }
        ensures one_empty { length self.now.items ≤ self.now.cells - 1 }
    {
        let held = if self.head <= self.tail {
            self.tail - self.head
        } else {
            self.cells.len() - (self.head - self.tail)
        };
        self.cells.len().saturating_sub(1) - held
    }

    /// Makes sure that an item can be pushed, or answers that memory is wanting.
    pub fn reserve(&mut self) -> Result<(), AllocError>
        ensures room { OnOk result (1 ≤ spare self.new) }

        // A ring without cells gets `first` of them, and a full one twice as many.
        ensures begun { self.old.cells ≡ 0 → OnOk result (self.new ≡ record self.old { cells = self.old.first }) }
        ensures doubled { 0 < self.old.cells → spare self.old ≡ 0
            → OnOk result (self.new ≡ record self.old { cells = 2 * self.old.cells }) }

        // Where an item can be pushed already, it succeeds and changes nothing.
        ensures succeeds { 1 ≤ spare self.old → IsOk result }
        ensures kept { 1 ≤ spare self.old → self.new ≡ self.old }

        ensures err { OnErr result (self.new ≡ self.old) }
    {
        if self.spare() > 0 {
            return Ok(());
        }
        let count = if self.cells.is_empty() {
            self.first
        } else {
            2 * self.cells.len()
        };
        self.grow(count)
    }

    /// Moves the items to a row of `count` cells, the first item to its start, as em_task_queue_grow does.
    fn grow(&mut self, count: usize) -> Result<(), AllocError>
        requires { length self.old.items < count }
        ensures ok { OnOk result (self.new ≡ record self.old { cells = count }) }
        ensures err { OnErr result (self.new ≡ self.old) }
    {
        let mut cells = Vec::with_capacity(*self.cells.allocator(), count)?;
        while let Some(item) = self.pop() {
            cells.push_reserved(Some(item));
        }
        let tail = cells.len();
        for _ in tail..count {
            cells.push_reserved(None);
        }
        free_empty(mem::replace(&mut self.cells, cells));
        self.head = 0;
        self.tail = tail;
        Ok(())
    }

    /// Puts an item at the end of the queue, as em_task_queue_enqueue does. It takes no memory.
    pub fn push(&mut self, item: T)
        requires { 1 ≤ spare self.old }
        ensures { self.new ≡ record self.old { items = self.old.items ++ item ∷ [] } }
    {
        match self.cells[self.tail].replace(item) {
            None => {}
            Some(_) => unreachable!(),
        }
        self.tail = after(self.tail, self.cells.len());
    }

    /// Takes the first item of the queue, if there is one, as em_task_queue_dequeue does.
    pub fn pop(&mut self) -> Option<T>
        ensures taken { result ≡ slice_get self.old.items 0 }
        ensures rest { self.new ≡ record self.old { items = drop 1 self.old.items } }
        ensures empty { IsNone result ↔ (self.old.items ≡ []) }
        ensures freed { OnSome result (spare self.new ≡ spare self.old + 1) }
    {
        if self.head == self.tail {
            return None;
        }
        let item = self.cells[self.head].take();
        self.head = after(self.head, self.cells.len());
        item
    }

    /// Gives the memory of an empty ring back.
    pub fn close(self)
        requires { self.items ≡ [] }
    {
        let Ring {
            cells,
            head: _,
            tail: _,
            first: _,
        } = self;
        free_empty(cells);
    }
}

/// The cell after this one, around the end.
fn after(index: usize, count: usize) -> usize
    requires { index < count }
    ensures { result ≡ around count (index + 1) }
{
    if index + 1 == count { 0 } else { index + 1 }
}

/// Frees cells that hold no item.
fn free_empty<T>(mut cells: Vec<Option<T>>)
    requires { items_in cells.items ≡ [] }
{
    while let Some(cell) = cells.pop() {
        match cell {
            None => {}
            Some(_) => unreachable!(),
        }
    }
    cells.destroy_empty();
}
