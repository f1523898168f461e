//! The steps on the mailbox: a messenger adds its notice, the owner looks for notices and takes them.

ghost use Rattle.std.specs.Prelude.{◌≡◌, ◌≢◌, ℕ, ◌^◌, ◌<◌, IfSome, IsNone, Some};
ghost use Rattle.proxy_laws.specs.declared.actors.OwnerState.TheVariants.{Closing};
ghost use Rattle.proxy_laws.specs.declared.actors.Phase.TheVariants.{Messenger, Referenced};
ghost use Rattle.proxy_laws.specs.declared.actors.Serving.TheVariants.{Away};
ghost use Rattle.post_core.specs.MailSteps.{IsFirstNotice, added_mail, looked_mail, lowest_in, notice_found, notice_taken, took_notice, word_empty, words_empty};
ghost use Rattle.post_core.specs.ServingSteps.{serving_at};
ghost use Rattle.post_core.specs.Steps.{IsOneTable};
ghost use Rattle.post_core.specs.Views.{IsOwnerView, IsPassView, at_phase, owner_of, pass_of};

use crate::meant::Meant;
use crate::rule::{Law, Sizes};
use crate::slots::Item;
use crate::views::View;
use atomic_table::{Play, Seat, Shared};
use task_ring::Ring;

/// A messenger adds its notice.
pub struct AddMail;

impl<J: Meant> Play<Ring<Item<J>>, View<J::Meaning>> for AddMail {
    ghost then = { added_mail };
}

/// The owner looks into a word of the mailbox.
pub struct LookMail;

impl<J: Meant> Play<Ring<Item<J>>, View<J::Meaning>> for LookMail {
    ghost then = { looked_mail };
}

/// The owner takes a notice.
pub struct TakeNotice;

impl<J: Meant> Play<Ring<Item<J>>, View<J::Meaning>> for TakeNotice {
    ghost then = { took_notice };
}

/// Adds the notice of a place to the mailbox, and answers what its word held.
pub(crate) fn add_mail<J: Meant>(
    shared: &Shared<Ring<Item<J>>, View<J::Meaning>, Sizes, Law<J>>,
    seat: &mut Seat<Ring<Item<J>>, View<J::Meaning>>,
    place: u32,
) -> u64
    requires table { IsOneTable seat.old.table_id shared.now.table_id shared.now.key.places }
    requires near { place < shared.now.key.places }
    requires brings { IsPassView seat.old.me.0 × ((pass_of seat.old.me.0).phase ≡ Messenger place) }
    ensures seat { (seat.new.table_id ≡ seat.old.table_id) × (seat.new.id ≡ seat.old.id) }
    ensures added { seat.new.me ≡ (at_phase Referenced seat.old.me.0, seat.old.me.1) }
{
    shared.fetch_or::<AddMail>(seat, 257 + place as usize / 64, 1 << (place % 64))
}

/// Looks into a word of the mailbox.
pub(crate) fn look_mail<J: Meant>(
    shared: &Shared<Ring<Item<J>>, View<J::Meaning>, Sizes, Law<J>>,
    seat: &mut Seat<Ring<Item<J>>, View<J::Meaning>>,
    word: u32,
) -> u64
    requires table { IsOneTable seat.old.table_id shared.now.table_id shared.now.key.places }
    requires near { word < 4 }
    requires owner { IsOwnerView seat.old.me.0 × ((owner_of seat.old.me.0).state ≢ Closing) }
    requires away { (p : ℕ) → serving_at p seat.old.me.0 ≡ Away }
    ensures seat { (seat.new.table_id ≡ seat.old.table_id) × (seat.new.id ≡ seat.old.id) }
    ensures empty { result ≡ 0 → seat.new.me ≡ (word_empty word seat.old.me.0, seat.old.me.1) }
    ensures found { result ≢ 0
        → seat.new.me ≡ (notice_found (lowest_in word result) seat.old.me.0, seat.old.me.1) }
{
    shared.load::<LookMail>(seat, 257 + word as usize)
}

/// Takes the notice of a place out of the mailbox, where it was found before.
pub(crate) fn take_notice<J: Meant>(
    shared: &Shared<Ring<Item<J>>, View<J::Meaning>, Sizes, Law<J>>,
    seat: &mut Seat<Ring<Item<J>>, View<J::Meaning>>,
    place: u32,
)
    requires table { IsOneTable seat.old.table_id shared.now.table_id shared.now.key.places }
    requires near { place < 256 }
    requires owner { IsOwnerView seat.old.me.0 × ((owner_of seat.old.me.0).state ≢ Closing) }
    requires away { (p : ℕ) → serving_at p seat.old.me.0 ≡ Away }
    requires found { (owner_of seat.old.me.0).noticed ≡ Some place }
    ensures seat { (seat.new.table_id ≡ seat.old.table_id) × (seat.new.id ≡ seat.old.id) }
    ensures taken { seat.new.me ≡ (notice_taken place seat.old.me.0, seat.old.me.1) }
    ensures there { place < seat.old.table_id.slots }
    ensures few { (owner_of seat.old.me.0).got < 2 ^ 63 }
{
    shared.fetch_and::<TakeNotice>(seat, 257 + place as usize / 64, !(1 << (place % 64)));
}

/// Looks into the words of the mailbox in turn, up to the first that is not 0, and takes the notice of its lowest place.
pub(crate) fn first_notice<J: Meant>(
    shared: &Shared<Ring<Item<J>>, View<J::Meaning>, Sizes, Law<J>>,
    seat: &mut Seat<Ring<Item<J>>, View<J::Meaning>>,
) -> Option<u32>
    requires table { IsOneTable seat.old.table_id shared.now.table_id shared.now.key.places }
    requires owner { IsOwnerView seat.old.me.0 × ((owner_of seat.old.me.0).state ≢ Closing) }
    requires away { (p : ℕ) → serving_at p seat.old.me.0 ≡ Away }
    ensures seat { (seat.new.table_id ≡ seat.old.table_id) × (seat.new.id ≡ seat.old.id)
        × (seat.new.me.1 ≡ seat.old.me.1) }
    ensures some { IfSome result (λ place. IsFirstNotice place seat.old.me.0 seat.new.me.0) }
    ensures there { IfSome result (λ place. place < seat.old.table_id.slots) }
    ensures few { IfSome result (λ place. (owner_of seat.old.me.0).got < 2 ^ 63) }
    ensures none { IsNone result → seat.new.me.0 ≡ words_empty 4 seat.old.me.0 }
{
    for word in 0..4 {
        let found = look_mail(shared, seat, word);
        if found != 0 {
            let place = 64 * word + found.trailing_zeros();
            take_notice(shared, seat, place);
            return Some(place);
        }
    }
    None
}
