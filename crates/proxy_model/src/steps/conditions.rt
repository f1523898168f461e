//! Where an event is enabled: its conditions, in their order.

ghost use Rattle.std.specs.Prelude.{◌≡◌, ◌<◌, ◌↔◌, IsTrue, OnOk, IfErr, IfSome, Ok, Err, if◌then◌else◌};
ghost use Rattle.proxy_laws.specs.Events.{AllHold, Enabled, IsThere, MayLookMail, MayTakePlace, WorksAt, conditions, sender_of};
ghost use Rattle.proxy_laws.specs.Worlds.{HasUse, IsAwayEverywhere, IsEmptied};
ghost use Rattle.proxy_model.specs.Refusals.{FailsAt, IsNotEnabled, is_at_last};
ghost use Rattle.proxy_model.specs.Shown.{world_of};

use crate::actors::{is_working, looks_at, names};
use crate::events::{event_place, event_sender};
use crate::refusals::Why;
use crate::worlds::World;
use proxy_laws::{Actor, Event, Look, OwnerState, Phase, Serving};

/// How many words of 64 bits the mailbox has.
const MAIL_WORDS: u32 = 4;

/// The condition of this number that compares a word which holds the value.
fn compare(part: u32, holds: bool, value: u64) -> Result<(), Why>
    ensures { result ≡ (if holds then Ok tt else Err (record { part = part; value = value })) }
{
    if holds {
        Ok(())
    } else {
        Err(Why { part, value })
    }
}

/// The condition of this number that compares no word.
fn expect(part: u32, holds: bool) -> Result<(), Why>
    ensures { result ≡ (if holds then Ok tt else Err (record { part = part; value = 0 })) }
{
    compare(part, holds, 0)
}

/// Whether the number, if there is one, is below the bound.
fn is_below(number: Option<u32>, bound: u32) -> bool
    ensures { IsTrue result ↔ IfSome number (λ n. n < bound) }
{
    match number {
        None => true,
        Some(number) => number < bound,
    }
}

impl World {
    /// Whether the world has the sender and the place that the event names.
    fn has(&self, event: &Event) -> bool
        ensures { IsTrue result ↔ IsThere (world_of self.now) event.now }
    {
        is_below(event_sender(event), self.senders) && is_below(event_place(event), self.places)
    }

    /// Whether the sender has a use of the place that its phase does not engage.
    fn has_use(&self, sender: u32, place: u32) -> bool
        requires there { sender < self.now.senders }
        requires place_there { place < self.now.places }
        ensures { IsTrue result ↔ HasUse (world_of self.now) sender place }
    {
        u64::from(names(place, self.phase(sender))) < self.use_count(sender, place)
    }

    fn may_take_place(&self, who: Actor, place: u32) -> bool
        requires there { IfSome (sender_of who) (λ s. s < self.now.senders) }
        requires place_there { place < self.now.places }
        ensures { IsTrue result ↔ MayTakePlace (world_of self.now) who place }
    {
        match who {
            Actor::Sender(sender) => {
                self.phase(sender) == Phase::Referenced && self.has_use(sender, place)
            }
            Actor::Owner => is_working(self.owner, self.serving(place)),
        }
    }

    /// Whether the owner works at the place with the turn.
    fn works_at(&self, place: u32) -> bool
        requires { place < self.now.places }
        ensures { IsTrue result ↔ WorksAt (world_of self.now) place }
    {
        is_working(self.owner, self.serving(place)) && self.turn(place) == Some(Actor::Owner)
    }

    /// Whether the owner is at no place.
    fn is_away_everywhere(&self) -> bool
        ensures { IsTrue result ↔ IsAwayEverywhere (world_of self.now) }
    {
        self.serving.iter().all(|serving| *serving == Serving::Away)
    }

    fn may_look_mail(&self) -> bool
        ensures { IsTrue result ↔ MayLookMail (world_of self.now) }
    {
        self.is_away_everywhere() && self.owner != OwnerState::Closing
    }

    /// Whether the owner is closed and not away at the place, and nothing waits there.
    fn is_emptied(&self, place: u32) -> bool
        requires { place < self.now.places }
        ensures { IsTrue result ↔ IsEmptied (world_of self.now) place }
    {
        self.owner == OwnerState::Closed
            && self.serving(place) != Serving::Away
            && self.put_count(place) <= self.taken_count(place)
    }

    /// The conditions of the event, each with its number. The first that fails is the answer.
    fn check_conditions(&self, event: &Event) -> Result<(), Why>
        requires { IsThere (world_of self.now) event.now }
        ensures ok { OnOk result (AllHold (conditions (world_of self.now) event.now)) }
        ensures err { IfErr result
            (λ why. FailsAt (conditions (world_of self.now) event.now) why.part why.value) }
    {
        match *event {
            Event::LoadRefs(s) | Event::Join(s) => expect(1, self.phase(s) == Phase::Idle),
            Event::AddRef(s) => {
                expect(1, self.phase(s) == Phase::Idle)?;
                compare(2, 1 <= self.refs, self.refs)
            }
            Event::DropRef(s) => expect(1, self.phase(s) == Phase::Referenced),
            Event::TakePlace(who, p) => {
                expect(1, self.may_take_place(who, p))?;
                compare(2, self.turn(p).is_none(), u64::from(self.turn(p).is_some()))
            }
            Event::Put(s, p, _) => expect(1, self.phase(s) == Phase::Holding(p)),
            Event::GivePlace(who, p) => expect(1, self.turn(p) == Some(who)),
            Event::SwapNote(s, p) => expect(1, self.phase(s) == Phase::Owing(p)),
            Event::AddMail(s) => expect(1, matches!(self.phase(s), Phase::Messenger(_))),
            Event::LookMail(word) => {
                expect(1, self.may_look_mail())?;
                expect(2, word < MAIL_WORDS)
            }
            Event::TakeNotice(p) => {
                expect(1, self.may_look_mail())?;
                expect(2, self.is_mailed(p))
            }
            Event::Receive(p) => expect(1, matches!(self.serving(p), Serving::Got(_))),
            Event::Direct(_) => expect(1, self.is_away_everywhere()),
            Event::TakeJob(p) => {
                expect(1, self.works_at(p))?;
                compare(
                    2,
                    self.taken_count(p) < self.put_count(p),
                    self.taken_count(p),
                )
            }
            Event::LookPlace(p) => {
                expect(1, self.works_at(p))?;
                compare(
                    2,
                    self.taken_count(p) == self.put_count(p),
                    self.taken_count(p),
                )
            }
            Event::Finish(p) => expect(
                1,
                self.serving(p) == Serving::SeenEmpty && self.turn(p) != Some(Actor::Owner),
            ),
            Event::SettleFinished(p, n) => {
                expect(1, self.is_active(p, n))?;
                expect(2, self.owner == OwnerState::Open)
            }
            Event::SettleCancelled(p, n) => {
                expect(1, self.is_active(p, n))?;
                expect(2, self.owner == OwnerState::Closed)
            }
            Event::DropOwn => expect(1, self.owner == OwnerState::Open),
            Event::LookClosed => expect(1, self.owner == OwnerState::Closing),
            Event::ResetPlace(p) => {
                expect(1, self.owner == OwnerState::Closed)?;
                expect(2, self.is_emptied(p))
            }
            Event::Create(_, p) => compare(1, self.life(p) == 0, self.life(p)),
            Event::CloneUse(s, p) => expect(1, self.has_use(s, p)),
            Event::ReleaseUse(s, p) => {
                expect(1, self.look(s) == Look::Nowhere)?;
                expect(2, self.has_use(s, p))?;
                expect(3, p != 0)
            }
            Event::Claim(s, p) => {
                expect(1, self.look(s) == Look::Nowhere)?;
                compare(2, self.life(p) == 1, self.life(p))
            }
            Event::LookNote(s, p) => expect(1, looks_at(p, self.look(s))),
            Event::MarkLife(s, p) => {
                expect(1, looks_at(p, self.look(s)))?;
                expect(2, matches!(self.look(s), Look::Saw(_, _)))
            }
            Event::Split(_) => Ok(()),
        }
    }

    /// Whether the event is enabled, and if not, why.
    pub(crate) fn check_enabled(&self, event: &Event) -> Result<(), Why>
        ensures ok { OnOk result (Enabled (world_of self.now) event.now) }
        ensures err { IfErr result
            (λ why. IsNotEnabled (world_of self.now) event.now why.part why.value) }
    {
        if !self.has(event) {
            return Err(Why { part: 0, value: 0 });
        }
        self.check_conditions(event)
    }

    /// Whether a counter that the event raises stands at its end.
    pub(crate) fn is_at_last(&self, event: &Event) -> bool
        requires { IsThere (world_of self.now) event.now }
        ensures { result ≡ is_at_last (world_of self.now) event.now }
    {
        match *event {
            Event::AddRef(_) => self.refs == u64::MAX,
            Event::Put(s, p, _) => {
                self.put_count(p) == u64::MAX || self.mark_count(s, p) == u64::MAX
            }
            Event::TakeNotice(_) => self.got == u64::MAX,
            Event::TakeJob(p) => self.taken_count(p) == u64::MAX,
            Event::Create(s, p) => self.use_count(s, p) == u64::MAX,
            Event::CloneUse(s, p) => {
                self.life(p) == u64::MAX || self.use_count(s, p) == u64::MAX
            }
            _ => false,
        }
    }
}
