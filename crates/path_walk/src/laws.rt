//! What a user may conclude from the definitions. The functions do nothing: each clause is a law.

ghost use Rattle.path_walk.specs.Laws.{CallsEnd, CallsStayAmong, StepsAreTheCall};

/// The steps of a call, taken one after another by nobody else, are the call at once.
pub fn steps_are_the_call()
    ensures { StepsAreTheCall }
{}

/// A call takes at most `CALL_STEPS_MAX` steps.
pub fn calls_end()
    ensures { CallsEnd }
{}

/// Each step of a call is on a backend that is there.
pub fn calls_stay_among()
    ensures { CallsStayAmong }
{}
