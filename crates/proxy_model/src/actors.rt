//! Tests on what senders and the owner are doing, and what they do next.

ghost use Rattle.std.specs.Prelude.{◌≡◌, ℕ, ◌↔◌, IsTrue, Some};
ghost use Rattle.proxy_laws.specs.Lists.{start_under};
ghost use Rattle.proxy_laws.specs.Phases.{has_turn_at, is_executing, is_messenger_at, is_under, is_working, life_after_mark, look_after_release, looks_at, names, note_after_exchange, owes_note_at, phase_after_give, phase_after_swap, saw_none_at, serving_after_look, serving_after_receive};
ghost use Rattle.proxy_laws.specs.Starts.{is_notice, MayFollow};

use proxy_laws::{Look, Note, OwnerState, Phase, Serving, Started};

/// Whether the sender is at the place.
pub(crate) fn names(place: u32, phase: Phase) -> bool
    ensures { result ≡ names place phase }
{
    match phase {
        Phase::Idle | Phase::Referenced => false,
        Phase::Holding(at) | Phase::Put(at) | Phase::Owing(at) | Phase::Messenger(at) => {
            at == place
        }
    }
}

/// Whether the sender is holding or put at the place, so that it has the turn.
pub(crate) fn has_turn_at(place: u32, phase: Phase) -> bool
    ensures { result ≡ has_turn_at place phase }
{
    match phase {
        Phase::Holding(at) | Phase::Put(at) => at == place,
        _ => false,
    }
}

/// Whether the sender has put a job at the place, and owes a notification.
pub(crate) fn owes_note_at(place: u32, phase: Phase) -> bool
    ensures { result ≡ owes_note_at place phase }
{
    match phase {
        Phase::Put(at) | Phase::Owing(at) => at == place,
        _ => false,
    }
}

/// Whether the sender has to bring a notice of the place to the mailbox.
pub(crate) fn is_messenger_at(place: u32, phase: Phase) -> bool
    ensures { result ≡ is_messenger_at place phase }
{
    match phase {
        Phase::Messenger(at) => at == place,
        _ => false,
    }
}

/// Where a sender with the turn of the place is once it gives the turn back.
pub(crate) fn phase_after_give(place: u32, phase: Phase) -> Phase
    ensures { result ≡ phase_after_give place phase }
{
    match phase {
        Phase::Holding(at) if at == place => Phase::Referenced,
        Phase::Put(at) if at == place => Phase::Owing(at),
        other => other,
    }
}

/// Where a sender is that owed a notification at the place, and found this note there.
pub(crate) fn phase_after_swap(place: u32, note: Note) -> Phase
    ensures { result ≡ phase_after_swap place note }
{
    match note {
        Note::Pending => Phase::Referenced,
        _ => Phase::Messenger(place),
    }
}

/// The note after an exchange of received for none.
pub(crate) fn note_after_exchange(note: Note) -> Note
    ensures { result ≡ note_after_exchange note }
{
    match note {
        Note::Received => Note::None,
        other => other,
    }
}

/// Whether the owner executes the place, under a notice or directly.
pub(crate) fn is_executing(serving: Serving) -> bool
    ensures { result ≡ is_executing serving }
{
    matches!(serving, Serving::Executing(_) | Serving::Direct)
}

/// Whether the owner may take jobs of the place: it executes it, or it is closed and empties it.
pub(crate) fn is_working(owner: OwnerState, serving: Serving) -> bool
    ensures { result ≡ is_working owner serving }
{
    match (owner, serving) {
        (OwnerState::Closed, Serving::Got(_)) => true,
        _ => is_executing(serving),
    }
}

/// Whether the owner is at the place under the notice.
pub(crate) fn is_under(notice: u64, serving: Serving) -> bool
    ensures { result ≡ is_under notice serving }
{
    match serving {
        Serving::Got(number) | Serving::Executing(number) => number == notice,
        _ => false,
    }
}

/// The notice under which the owner is at the place, if it is under one.
pub(crate) fn notice_of(serving: Serving) -> Option<u64>
    ensures { (m : ℕ) → IsTrue (is_under m serving) ↔ (result ≡ Some m) }
{
    match serving {
        Serving::Got(notice) | Serving::Executing(notice) => Some(notice),
        _ => None,
    }
}

/// What the owner does at a place that it had got, once it has received its note.
pub(crate) fn serving_after_receive(serving: Serving) -> Serving
    ensures { result ≡ serving_after_receive serving }
{
    match serving {
        Serving::Got(notice) => Serving::Executing(notice),
        other => other,
    }
}

/// What the owner does at a place that it executed, once it has found no job there.
pub(crate) fn serving_after_look(serving: Serving) -> Serving
    ensures { result ≡ serving_after_look serving }
{
    match serving {
        Serving::Direct => Serving::Away,
        _ => Serving::SeenEmpty,
    }
}

/// What starts a job that the owner takes: a closed owner takes it to cancel it.
pub(crate) fn start_under(owner: OwnerState, serving: Serving) -> Started
    ensures { result ≡ start_under owner serving }
{
    match (owner, serving) {
        (OwnerState::Closed, _) => Started::Closing,
        (_, Serving::Executing(notice)) => Started::Notice(notice),
        _ => Started::Direct,
    }
}

/// Whether the job started under the notice.
pub(crate) fn is_notice(notice: u64, started: Started) -> bool
    ensures { result ≡ is_notice notice started }
{
    match started {
        Started::Notice(number) => number == notice,
        _ => false,
    }
}

/// Whether a job that started so may come after one that started as the earlier did.
pub(crate) fn may_follow(earlier: Started, later: Started) -> bool
    ensures { IsTrue result ↔ MayFollow earlier later }
{
    match (earlier, later) {
        (Started::Notice(before), Started::Notice(notice)) => before <= notice,
        (Started::Closing, Started::Closing) => true,
        (Started::Closing, _) => false,
        _ => true,
    }
}

/// Whether the sender is looking at the place.
pub(crate) fn looks_at(place: u32, look: Look) -> bool
    ensures { result ≡ looks_at place look }
{
    match look {
        Look::Nowhere => false,
        Look::At(at) | Look::Saw(at, _) => at == place,
    }
}

/// Whether the sender is looking at the place, and has seen there that the note was none.
pub(crate) fn saw_none_at(place: u32, look: Look) -> bool
    ensures { result ≡ saw_none_at place look }
{
    match look {
        Look::Saw(at, Note::None) => at == place,
        _ => false,
    }
}

/// Where the sender looks once a release has left this life at the place.
pub(crate) fn look_after_release(life: u64, place: u32, before: Look) -> Look
    ensures { result ≡ look_after_release life place before }
{
    if life == 2 { Look::At(place) } else { before }
}

/// The life of a place that its looker leaves: free where the note seen was none, else a zombie.
pub(crate) fn life_after_mark(look: Look) -> u64
    ensures { result ≡ life_after_mark look }
{
    match look {
        Look::Saw(_, Note::None) => 0,
        _ => 1,
    }
}
