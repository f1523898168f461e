use std::ops::Range;
use std::process::Abort;
use task_ring::Ring;

/// Makes room for each number, and pushes it.
fn push_all(rt: &impl Abort, ring: &mut Ring<u32>, numbers: Range<u32>) {
    for number in numbers {
        ring.reserve().expect(rt, "memory for the cells");
        ring.push(number);
    }
}

fn pop_all(rt: &impl Abort, ring: &mut Ring<u32>, numbers: Range<u32>) {
    for number in numbers {
        assert_eq!(rt; ring.pop(), Some(number));
    }
}

fn close_empty<T>(rt: &impl Abort, mut ring: Ring<T>) {
    match ring.pop() {
        None => ring.close(),
        Some(_) => panic!(rt; "an item too many"),
    }
}

#[test]
fn doubles_while_wrapped(rt: HostRuntime) {
    let mut ring = Ring::new(rt.alloc(), 128);
    assert_eq!(rt; ring.spare(), 0);
    push_all(&rt, &mut ring, 0..100);
    pop_all(&rt, &mut ring, 0..100);
    push_all(&rt, &mut ring, 100..227);
    // 127 items in 128 cells, over their end.
    assert_eq!(rt; ring.spare(), 0);

    ring.reserve().expect(&rt, "memory for the cells");
    // 256 cells, of which one stays empty.
    assert_eq!(rt; ring.spare(), 128);
    pop_all(&rt, &mut ring, 100..227);
    close_empty(&rt, ring);
}

/// A type that cannot be dropped or cloned.
struct Ticket(u32);

impl Ticket {
    fn tear(self) -> u32 {
        let Ticket(number) = self;
        number
    }
}

#[test]
fn moves_what_cannot_be_dropped(rt: HostRuntime) {
    let mut ring = Ring::new(rt.alloc(), 2);
    for number in 0..5 {
        ring.reserve().expect(&rt, "memory for the cells");
        ring.push(Ticket(number));
    }
    // 8 cells.
    assert_eq!(rt; ring.spare(), 2);
    for number in 0..5 {
        match ring.pop() {
            Some(ticket) => assert_eq!(rt; ticket.tear(), number),
            None => panic!(rt; "an item too few"),
        }
    }
    close_empty(&rt, ring);
}
