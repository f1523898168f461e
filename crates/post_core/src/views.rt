//! What the seats of a table know. No value of these types is ever made: they are for contracts and proofs alone.

use proxy_laws::{FateMark, Look, Mark, OwnerState, Phase, Serving, Started};
use std::collections::LinkedList;

/// A job that was put: its mark and its meaning.
pub struct Entry<M> {
    pub mark: Mark,
    pub meaning: M,
}

/// A job that a pass put at a place, with its number there.
pub struct Kept<M> {
    pub nth: u64,
    pub mark: Mark,
    pub meaning: M,
}

/// A job that the owner took at a place.
pub struct Held<M> {
    pub mark: Mark,
    pub meaning: M,
    pub started: Started,
    pub fate: Option<FateMark>,
}

/// What a seat has seen, which stays so.
pub enum Fact<M> {
    NoReferences,
    /// The job of this number at the place has this mark, this meaning and this fate.
    Settled(u32, u64, Mark, M, FateMark),
    /// At least so many jobs were put at the place.
    Reached(u32, u64),
}

/// That `create` found a place not free, and how often the pass had by then created it and set it free.
pub struct Finding {
    pub place: u32,
    pub created: u64,
    pub freed: u64,
}

/// An exchange that failed: of which word, which value it expected, and which it found.
pub struct Exchange {
    pub word: u32,
    pub expected: u64,
    pub value: u64,
}

/// What a pass knows of its sender. Lists without a remark have one member for each place.
pub struct PassView<M> {
    pub number: u32,
    pub phase: Phase,
    pub look: Look,
    pub uses: LinkedList<u64>,
    /// How many clones of uses it made, of whatever place.
    pub clones: u64,
    pub own: LinkedList<LinkedList<Kept<M>>>,
    /// While it has the turn of a place: what that place's ring holds.
    pub ring: LinkedList<Entry<M>>,
    pub created: LinkedList<u64>,
    pub freed: LinkedList<u64>,
    pub tried: LinkedList<u64>,
    /// Each finding, of any place.
    pub full: LinkedList<Finding>,
    /// The last exchange that failed where it was tried once.
    pub last_failed: Option<Exchange>,
}

/// What the owner's seat knows. Lists without a remark have one member for each place.
pub struct OwnerView<M> {
    pub state: OwnerState,
    pub serving: LinkedList<Serving>,
    pub got: u64,
    /// The place whose turn it has.
    pub turn: Option<u32>,
    /// While it has the turn of a place: what that place's ring holds.
    pub ring: LinkedList<Entry<M>>,
    pub jobs: LinkedList<LinkedList<Held<M>>>,
    pub empties: LinkedList<u64>,
    /// By word of the mailbox: how often it found the word 0.
    pub empty_mail: LinkedList<u64>,
    pub last_count: u64,
    /// By word of the mailbox: it has found the word 0 once it was closed.
    pub clear: LinkedList<bool>,
    /// A place whose notice it found in the mailbox, and has not taken.
    pub noticed: Option<u32>,
}

/// What a seat knows: of the senders whose passes it has, of the owner where it is the owner's, and what it has seen.
/// A pass has one sender. The seat that all are joined into at the end has them all, and a note has none.
pub struct View<M> {
    pub passes: LinkedList<PassView<M>>,
    pub owner: Option<OwnerView<M>>,
    pub seen: LinkedList<Fact<M>>,
}
