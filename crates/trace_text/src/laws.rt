//! What a user may conclude from the definitions. The functions do nothing: each clause is a law.

ghost use Rattle.trace_text.specs.Laws.{FaultsComeFirst, FieldsAreTexts, ReadsOrRefuses};

/// Bytes are one trace, or have a first faulty line and are none.
pub fn reads_or_refuses()
    ensures { ReadsOrRefuses }
{}

/// Where a line after line 1 is the first that is faulty, those before it are a trace, and with it they are none.
pub fn faults_come_first()
    ensures { FaultsComeFirst }
{}

/// A text field is read as what it spells, and a printed one as what was printed.
pub fn fields_are_texts()
    ensures { FieldsAreTexts }
{}
