//! Why a step is refused.

/// The first condition of an event that fails.
#[derive(Clone, Copy, Debug, PartialEq, Eq)]
pub struct Why {
    /// Its number, counted from 1; 0 where the world has no such sender or place.
    pub part: u32,
    /// What `refs`, `turn`, `life` or `taken` holds, where the condition compares that one with a
    /// number or with `put`; else 0.
    pub value: u64,
}

/// Why a step is refused.
#[derive(Clone, Copy, Debug, PartialEq, Eq)]
pub enum StepRefusal {
    /// A condition of the event fails.
    NotEnabled(Why),
    /// The event is enabled, but a counter that it raises stands at 2^64 - 1.
    AtLast,
    /// Want of memory.
    NoMemory,
}
