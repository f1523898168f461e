//! What holds of the cells of a store. These functions do nothing: what is proved stands in their contracts.

ghost use Rattle.memory_backend.specs.Laws.{NumbersAreOwn, OpeningIsEmpty, StepsAreTheStores};

/// A step on a cell is the store's step, and leaves the cells of the store that is left.
pub fn steps_are_the_stores()
    ensures { StepsAreTheStores }
{}

/// Each cell has a number of its own.
pub fn numbers_are_own()
    ensures { NumbersAreOwn }
{}

/// The opening cells are those of a store in which the backends are mounted and empty.
pub fn opening_is_empty()
    ensures { OpeningIsEmpty }
{}
