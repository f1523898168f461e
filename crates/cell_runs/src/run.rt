use turn_cell::Known;

/// What the scripts of threads leave: replies of type `R`, and cells of type `S` on which operations of type `O` have answers
/// of type `A`.
#[derive(Drop)]
pub struct ThreadRun<R, S, O, A> {
    /// The replies by thread, and of each thread in the order of its calls.
    pub replies: Vec<Vec<R>>,
    /// The steps of all calls in the order of their stamps.
    pub steps: Vec<Known<O, A>>,
    /// The cells after the last step, in the order of their numbers.
    pub cells: Vec<S>,
}
