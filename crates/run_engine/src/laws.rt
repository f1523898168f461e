//! What a user may conclude from the definitions. The functions do nothing: each clause is a law.

ghost use Rattle.run_engine.specs.Laws.{CountsSumUp, ErrorsStandInOrder, FirstDraws, SummariesCountTheSoloText};

/// The first draws of two numbers.
pub fn first_draws()
    ensures { FirstDraws }
{}

/// The error words of a summary stand in byte order, and none is left out.
pub fn errors_stand_in_order()
    ensures { ErrorsStandInOrder }
{}

/// Each reply counts once.
pub fn counts_sum_up()
    ensures { CountsSumUp }
{}

/// A summary counts the replies and the lines of the tree that the solo text of the same trace has.
pub fn summaries_count_the_solo_text()
    ensures { SummariesCountTheSoloText }
{}
