use crate::trace_call::TraceCall;
use crate::version::Version;
use wf_core::Text;

/// Which lines a trace may have.
#[derive(Clone, Copy, Debug, PartialEq, Eq)]
pub enum Mode {
    /// Declarations and file calls.
    Plain,
    /// The same, but for the backends with a worker.
    Full,
}

/// A trace that was read, with its declarations and its calls in their order.
#[derive(Debug, Drop)]
pub struct Trace {
    /// That of line 1.
    pub version: Version,
    /// The names of the threads.
    pub threads: Vec<Text>,
    /// The backends besides the root's, which is number 0: the first of these is number 1.
    pub backends: Vec<BackendLine>,
    pub calls: Vec<CallLine>,
}

/// A backend of a trace, mounted in the root directory under its name.
#[derive(Debug, Drop)]
pub struct BackendLine {
    pub name: Text,
    /// Whether a worker is to take its steps.
    pub proxied: bool,
}

/// A call of a trace.
#[derive(Debug, Drop)]
pub struct CallLine {
    /// The thread that makes it, counted from 0.
    pub thread: u32,
    /// Its number among the calls of that thread, counted from 1.
    pub number: u32,
    pub call: TraceCall,
}
