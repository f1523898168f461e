//! What a call leaves behind, whatever others do between its steps. The functions do nothing: each clause is a law.

ghost use Rattle.call_laws.specs.DebtLaws.{DebtsArePaid, DebtsAreSmall};

/// A call that has ended has reserved no number, left no description without a number, and no file without an entry of
/// which its group does not know, where each of its steps was taken and answered.
pub fn debts_are_paid()
    ensures { DebtsArePaid }
{}

/// Whatever its steps are told, also where one finds no memory, a call owes at most one number, one description and one
/// file at any time.
pub fn debts_are_small()
    ensures { DebtsAreSmall }
{}
