//! The functions do nothing: each clause is a law.

ghost use Rattle.trace_laws.specs.Laws.{EqualTextsAreOneTrace, PrintedTracesAreRead};

/// What is printed of a trace that was read in a mode is read in that mode as that trace.
pub fn printed_traces_are_read()
    ensures { PrintedTracesAreRead }
{}

/// Two traces that were read, in any modes, and are printed as the same text are one.
pub fn equal_texts_are_one_trace()
    ensures { EqualTextsAreOneTrace }
{}
