//! How many senders, uses, marks and notices there are.

ghost use Rattle.std.specs.Prelude.{◌≡◌, ◌<◌, not, length};
ghost use Rattle.proxy_laws.specs.Mailbox.{notices};
ghost use Rattle.proxy_laws.specs.Maps.{count_below, sum_below};
ghost use Rattle.proxy_laws.specs.Phases.{is_idle, is_messenger_at, is_notifying, looks_at, owes_note_at};
ghost use Rattle.proxy_model.specs.Shown.{world_of};

use crate::actors::{is_messenger_at, looks_at, owes_note_at};
use crate::worlds::World;
use proxy_laws::Phase;

impl World {
    /// How many notices are in the mailbox.
    pub(crate) fn notice_count(&self) -> usize
        ensures { result ≡ notices self.now.places (world_of self.now).mail }
    {
        self.mail.iter().filter(|mailed| **mailed).count()
    }

    /// How many senders are not idle.
    pub(crate) fn not_idle_count(&self) -> usize
        ensures { result
            ≡ count_below self.now.senders (λ s. not (is_idle ((world_of self.now).phase s))) }
    {
        self.phases
            .iter()
            .filter(|phase| !matches!(**phase, Phase::Idle))
            .count()
    }

    /// How many senders are put or owing at the place.
    pub(crate) fn put_or_owing_count(&self, place: u32) -> usize
        ensures { result
            ≡ count_below self.now.senders (λ s. owes_note_at place ((world_of self.now).phase s)) }
    {
        self.phases
            .iter()
            .filter(|phase| owes_note_at(place, **phase))
            .count()
    }

    /// How many senders are messengers of the place.
    pub(crate) fn messenger_count(&self, place: u32) -> usize
        ensures { result
            ≡ count_below self.now.senders
            (λ s. is_messenger_at place ((world_of self.now).phase s)) }
    {
        self.phases
            .iter()
            .filter(|phase| is_messenger_at(place, **phase))
            .count()
    }

    /// How many senders have put a job whose notice is not yet in the mailbox.
    pub(crate) fn notifying_count(&self) -> usize
        ensures { result
            ≡ count_below self.now.senders (λ s. is_notifying ((world_of self.now).phase s)) }
    {
        self.phases
            .iter()
            .filter(|phase| {
                matches!(
                    **phase,
                    Phase::Put(_) | Phase::Owing(_) | Phase::Messenger(_)
                )
            })
            .count()
    }

    /// How many senders are looking at the place.
    pub(crate) fn looker_count(&self, place: u32) -> usize
        ensures { result
            ≡ count_below self.now.senders (λ s. looks_at place ((world_of self.now).look s)) }
    {
        self.looks
            .iter()
            .filter(|look| looks_at(place, **look))
            .count()
    }

    /// How many uses of the place there are.
    pub(crate) fn use_sum(&self, place: u32) -> u128
        requires { place < self.now.places }
        ensures { result ≡ sum_below self.now.senders (λ s. (world_of self.now).uses s place) }
    {
        let mut sum = 0;
        for sender in 0..self.senders {
            sum += u128::from(self.use_count(sender, place));
        }
        sum
    }

    /// How many jobs were put at all places.
    pub(crate) fn put_sum(&self) -> u128
        ensures { result ≡ sum_below self.now.places (λ p. length ((world_of self.now).sent p)) }
    {
        let mut sum = 0;
        for place in 0..self.places {
            sum += u128::from(self.put_count(place));
        }
        sum
    }
}
