//! Each step on a target's table is an event of the world that the table shows. These functions do nothing: what is proved
//! stands in their contracts.

ghost use Rattle.std.specs.Prelude.{ℕ};
ghost use Rattle.post_core.specs.LifeLaws.{ClaimsPlace, ClonesUse, CreatesPlace, LooksNote, MarksLife, ReleasesUse};
ghost use Rattle.post_core.specs.SendLaws.{AddsRef, DropsRef, GivesPlace, LoadsRefs, PutsJob, SwapsNote, TakesPlace};
ghost use Rattle.post_core.specs.TableLaws.{IsAlwaysSound, ShowsOneWorld};
ghost use Rattle.post_core.specs.TryLaws.{MissesRef, MissesTurn};

use crate::meant::Meant;

/// A table shows one world.
pub fn table_shows_one_world<J: Meant>()
    ensures { (target : ℕ) → ShowsOneWorld J.meaning (J.suits target) }
{}

/// The world that a table shows is sound at every moment, and well formed.
pub fn table_is_always_sound<J: Meant>()
    ensures { (target : ℕ) → IsAlwaysSound J.meaning (J.suits target) }
{}

/// A load of the references is LoadRefs.
pub fn load_refs_is_its_event<J: Meant>()
    ensures { (target : ℕ) → LoadsRefs J.meaning (J.suits target) }
{}

/// An exchange of the references that failed where it was tried once is LoadRefs.
pub fn missed_ref_is_a_load<J: Meant>()
    ensures { (target : ℕ) → MissesRef J.meaning (J.suits target) }
{}

/// An exchange of a turn that failed where it was tried once leaves the world.
pub fn missed_turn_is_no_event<J: Meant>()
    ensures { (target : ℕ) → MissesTurn J.meaning (J.suits target) }
{}

/// An exchange of the references for one more is AddRef.
pub fn add_ref_is_its_event<J: Meant>()
    ensures { (target : ℕ) → AddsRef J.meaning (J.suits target) }
{}

/// A fetch sub of a reference is DropRef.
pub fn drop_ref_is_its_event<J: Meant>()
    ensures { (target : ℕ) → DropsRef J.meaning (J.suits target) }
{}

/// A sender's exchange of a free turn is TakePlace.
pub fn sender_take_place_is_its_event<J: Meant>()
    ensures { (target : ℕ) → TakesPlace J.meaning (J.suits target) }
{}

/// A fetch add of the jobs put is Put.
pub fn put_is_its_event<J: Meant>()
    ensures { (target : ℕ) → PutsJob J.meaning (J.suits target) }
{}

/// A sender's store of a free turn is GivePlace.
pub fn sender_give_place_is_its_event<J: Meant>()
    ensures { (target : ℕ) → GivesPlace J.meaning (J.suits target) }
{}

/// A swap of the note is SwapNote.
pub fn swap_note_is_its_event<J: Meant>()
    ensures { (target : ℕ) → SwapsNote J.meaning (J.suits target) }
{}

/// An exchange of a life of 0 is Create.
pub fn create_is_its_event<J: Meant>()
    ensures { (target : ℕ) → CreatesPlace J.meaning (J.suits target) }
{}

/// A fetch add of a life is CloneUse.
pub fn clone_use_is_its_event<J: Meant>()
    ensures { (target : ℕ) → ClonesUse J.meaning (J.suits target) }
{}

/// A fetch sub of a life is ReleaseUse.
pub fn release_use_is_its_event<J: Meant>()
    ensures { (target : ℕ) → ReleasesUse J.meaning (J.suits target) }
{}

/// An exchange of a zombie's life is Claim.
pub fn claim_is_its_event<J: Meant>()
    ensures { (target : ℕ) → ClaimsPlace J.meaning (J.suits target) }
{}

/// A load of the note of a place that a pass looks at is LookNote.
pub fn look_note_is_its_event<J: Meant>()
    ensures { (target : ℕ) → LooksNote J.meaning (J.suits target) }
{}

/// A store of a life is MarkLife.
pub fn mark_life_is_its_event<J: Meant>()
    ensures { (target : ℕ) → MarksLife J.meaning (J.suits target) }
{}
