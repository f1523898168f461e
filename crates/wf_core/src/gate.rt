/// Where a run waits before and after each call of a trace, so that a test can choose the order of threads.
pub trait Gate {
    /// Passes a point, and changes nothing. Point `65536 * t + 2 * n` stands before call n of thread t,
    /// and that number plus 1 after its reply.
    fn pass(&self, point: u32);
}

/// The gate that lets every point pass at once.
#[derive(Clone, Copy, Debug)]
pub struct OpenGate;

impl Gate for OpenGate {
    fn pass(&self, _point: u32) {}
}
