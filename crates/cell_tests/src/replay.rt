//! The records of counters, replayed by a plain loop.

use crate::counter::CounterRecord;
use std::process::Abort;

/// Adds the amounts of a record one after another: each answer is the sum so far, and the state is the sum of all. The
/// stamps rise, and none of them was marked before.
fn replay(rt: &impl Abort, record: &CounterRecord, marked: &mut Vec<bool>) {
    let mut count: u64 = 0;
    let mut next: u64 = 0;
    for entry in record.entries.iter() {
        count = count.wrapping_add(entry.op);
        assert_eq!(rt; entry.answer, count);
        assert!(rt; entry.stamp >= next, "stamps that do not rise");
        next = entry.stamp.wrapping_add(1);
        let stamp = entry.stamp as usize;
        assert!(rt; stamp < marked.len(), "a stamp that no step has");
        assert!(rt; !marked[stamp], "a stamp that two steps have");
        marked[stamp] = true;
    }
    assert_eq!(rt; record.state.count, count);
}

/// Replays all records: each stamp below the number of steps is there once, and no other.
pub fn replay_all(rt: &(impl Abort + AllocGlobal), records: &Vec<CounterRecord>, steps: usize) {
    let mut marked = vec![in rt.alloc(); false; steps].expect(rt, "memory for the stamps");
    for record in records.iter() {
        replay(rt, record, &mut marked);
    }
    for mark in marked.iter() {
        assert!(rt; *mark, "a gap in the stamps");
    }
}

/// How many entries the runner has in all records. Its calls rise along each.
pub fn entries_of(rt: &impl Abort, records: &Vec<CounterRecord>, runner: u32) -> u64 {
    let mut entries: u64 = 0;
    for record in records.iter() {
        let mut next: u32 = 0;
        for entry in record.entries.iter() {
            if entry.runner == runner {
                assert_eq!(rt; entry.caller.thread, runner);
                assert!(rt; entry.caller.call >= next, "calls that do not rise");
                next = entry.caller.call.wrapping_add(1);
                entries = entries.wrapping_add(1);
            }
        }
    }
    entries
}
