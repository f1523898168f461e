//! Each step of a messenger and of the owner on a target's table is an event of the world that the table shows. These
//! functions do nothing: what is proved stands in their contracts.

ghost use Rattle.std.specs.Prelude.{ℕ};
ghost use Rattle.post_core.specs.EndLaws.{ClosedHasNoSender, EmptiedHasNothing};
ghost use Rattle.post_core.specs.OwnerLaws.{AddsMail, BeginsDirect, DropsOwn, FinishesPlace, LooksClosed, LooksMail, LooksPlace, OwnerGivesPlace, OwnerTakesPlace, ReceivesNote, ResetsPlace, SettlesCancelled, SettlesFinished, TakesJob, TakesNotice};

use crate::meant::Meant;

/// A messenger's fetch or of its place's bit into the mailbox is AddMail.
pub fn add_mail_is_its_event<J: Meant>()
    ensures { (target : ℕ) → AddsMail J.meaning (J.suits target) }
{}

/// A load of a word of the mailbox is LookMail.
pub fn look_mail_is_its_event<J: Meant>()
    ensures { (target : ℕ) → LooksMail J.meaning (J.suits target) }
{}

/// A fetch and that clears the bit of a notice found before is TakeNotice.
pub fn take_notice_is_its_event<J: Meant>()
    ensures { (target : ℕ) → TakesNotice J.meaning (J.suits target) }
{}

/// A store of received in the note of a place that was got is Receive.
pub fn receive_is_its_event<J: Meant>()
    ensures { (target : ℕ) → ReceivesNote J.meaning (J.suits target) }
{}

/// A load of a note by an owner that is at no place is Direct.
pub fn direct_is_its_event<J: Meant>()
    ensures { (target : ℕ) → BeginsDirect J.meaning (J.suits target) }
{}

/// The owner's exchange of a free turn is TakePlace.
pub fn owner_take_place_is_its_event<J: Meant>()
    ensures { (target : ℕ) → OwnerTakesPlace J.meaning (J.suits target) }
{}

/// A fetch add of the jobs taken is TakeJob.
pub fn take_job_is_its_event<J: Meant>()
    ensures { (target : ℕ) → TakesJob J.meaning (J.suits target) }
{}

/// A load of the jobs put at a place whose ring is empty is LookPlace.
pub fn look_place_is_its_event<J: Meant>()
    ensures { (target : ℕ) → LooksPlace J.meaning (J.suits target) }
{}

/// The owner's store of a free turn is GivePlace.
pub fn owner_give_place_is_its_event<J: Meant>()
    ensures { (target : ℕ) → OwnerGivesPlace J.meaning (J.suits target) }
{}

/// An exchange of received for none in a note, whether it wins or not, is Finish.
pub fn finish_is_its_event<J: Meant>()
    ensures { (target : ℕ) → FinishesPlace J.meaning (J.suits target) }
{}

/// A fetch add of the jobs settled, by an open owner, is SettleFinished.
pub fn settle_finished_is_its_event<J: Meant>()
    ensures { (target : ℕ) → SettlesFinished J.meaning (J.suits target) }
{}

/// A fetch add of the jobs settled, by a closed owner, is SettleCancelled.
pub fn settle_cancelled_is_its_event<J: Meant>()
    ensures { (target : ℕ) → SettlesCancelled J.meaning (J.suits target) }
{}

/// A fetch sub of the owner's reference is DropOwn.
pub fn drop_own_is_its_event<J: Meant>()
    ensures { (target : ℕ) → DropsOwn J.meaning (J.suits target) }
{}

/// A load of the references by a closing owner is LookClosed.
pub fn look_closed_is_its_event<J: Meant>()
    ensures { (target : ℕ) → LooksClosed J.meaning (J.suits target) }
{}

/// A closed owner's store of none in a note is ResetPlace.
pub fn reset_place_is_its_event<J: Meant>()
    ensures { (target : ℕ) → ResetsPlace J.meaning (J.suits target) }
{}

/// Once the owner is closed no sender has or gets a reference, puts, swaps a note or adds a notice, whatever comes.
pub fn closed_has_no_sender<J: Meant>()
    ensures { (target : ℕ) → ClosedHasNoSender J.meaning (J.suits target) }
{}

/// Where a closed owner is at no place and has found each word of the mailbox 0 since, no job waits at any place.
pub fn emptied_has_nothing<J: Meant>()
    ensures { (target : ℕ) → EmptiedHasNothing J.meaning (J.suits target) }
{}
