//! The calls of a pass on places: it creates them, and clones and releases uses of them.

ghost use Rattle.std.specs.Prelude.{◌≡◌, ◌≢◌, ◌-◌, ◌<◌, Option, IfSome, MatchBool, None, slice_index};
ghost use Rattle.proxy_laws.specs.declared.actors.Look.TheVariants.{At, Nowhere};
ghost use Rattle.proxy_laws.specs.declared.actors.Note.{Note};
ghost use Rattle.proxy_laws.specs.declared.actors.Note.TheVariants.{None as NoNote};
ghost use Rattle.proxy_laws.specs.declared.actors.Phase.TheVariants.{Idle};
ghost use Rattle.post_core.specs.LifeParts.{IfFull, IfMade, IsAllFound, IsCreated, IsNewUse, IsReleased};
ghost use Rattle.post_core.specs.LifeSteps.{IsCulled, all_found, look_ended, place_culled, use_cloned};
ghost use Rattle.post_core.specs.Rule.{clones_max};
ghost use Rattle.post_core.specs.SendParts.{HasPlace, IsPassOf, IsUseOf, pass_sender, pass_view, post_places, use_place, use_target};
ghost use Rattle.post_core.specs.Steps.{IsOneTable};
ghost use Rattle.post_core.specs.Views.{IsPassView, pass_of, place_created};

use crate::lives::{add_use, drop_use, look_note, mark_life, try_claim, try_create};
use crate::meant::Meant;
use crate::post::{PlaceUse, Post, SendPass};
use crate::rule::{Law, Sizes};
use crate::slots::Item;
use crate::views::View;
use atomic_table::{Seat, Shared};
use std::marker::PhantomData;
use task_ring::Ring;

/// The life of a free place.
const FREE: u64 = 0;

/// The life of a zombie: a place without a use whose note was not none when it was looked at.
const ZOMBIE: u64 = 1;

/// The life of a place with one use.
const ONE_USE: u64 = 3;

/// The word of a note that is none.
const NO_NOTE: u64 = 0;

/// What a release of a use comes to.
#[derive(Clone, Copy, Debug, PartialEq, Eq)]
pub enum Released {
    /// Another use of the place is left.
    Kept,
    /// It was the last use, and the place is free.
    Freed,
    /// It was the last use, and the place's note was not none. Jobs that wait there are still served, and a later
    /// `create` sets the place free.
    Zombie,
}

/// What `create` answers.
pub enum CreateAnswer<J: Meant> {
    /// A place was free, and this is its first use.
    Made {
        pass: SendPass<J>,
        place_use: PlaceUse<J>,
    },
    /// No place was free.
    Full(SendPass<J>),
}

// Marks the life of a place that the pass looks at by its note, and answers whether that set it free.
fn end_look<J: Meant>(
    shared: &Shared<Ring<Item<J>>, View<J::Meaning>, Sizes, Law<J>>,
    seat: &mut Seat<Ring<Item<J>>, View<J::Meaning>>,
    place: u32,
) -> bool
    requires table { IsOneTable seat.old.table_id shared.now.table_id shared.now.key.places }
    requires near { place < shared.now.key.places }
    requires looks { IsPassView seat.old.me.0 × ((pass_of seat.old.me.0).look ≡ At place) }
    ensures seat { (seat.new.table_id ≡ seat.old.table_id) × (seat.new.id ≡ seat.old.id) }
    ensures ended { (note : Note) × MatchBool result (note ≡ NoNote) (note ≢ NoNote)
        × (seat.new.me ≡ (look_ended place note seat.old.me.0, seat.old.me.1)) }
{
    if look_note(shared, seat, place) == NO_NOTE {
        mark_life(shared, seat, place, FREE);
        return true;
    }
    mark_life(shared, seat, place, ZOMBIE);
    false
}

// Gives a use of a place back, and looks at the place where it was the last.
fn release_use<J: Meant>(
    shared: &Shared<Ring<Item<J>>, View<J::Meaning>, Sizes, Law<J>>,
    seat: &mut Seat<Ring<Item<J>>, View<J::Meaning>>,
    place: u32,
) -> Released
    requires table { IsOneTable seat.old.table_id shared.now.table_id shared.now.key.places }
    requires near { place < shared.now.key.places }
    requires idle { IsPassView seat.old.me.0 × ((pass_of seat.old.me.0).phase ≡ Idle) }
    requires used { 0 < slice_index (pass_of seat.old.me.0).uses place }
    requires nowhere { (pass_of seat.old.me.0).look ≡ Nowhere }
    requires other { place ≢ 0 }
    ensures seat { (seat.new.table_id ≡ seat.old.table_id) × (seat.new.id ≡ seat.old.id)
        × (seat.new.me.1 ≡ seat.old.me.1) }
    ensures released { IsReleased place seat.old.me.0 result seat.new.me.0 }
{
    if drop_use(shared, seat, place) != ONE_USE {
        return Released::Kept;
    }
    if end_look(shared, seat, place) {
        return Released::Freed;
    }
    Released::Zombie
}

// Sets a place free where it is a zombie whose note is none.
fn cull<J: Meant>(
    shared: &Shared<Ring<Item<J>>, View<J::Meaning>, Sizes, Law<J>>,
    seat: &mut Seat<Ring<Item<J>>, View<J::Meaning>>,
    place: u32,
)
    requires table { IsOneTable seat.old.table_id shared.now.table_id shared.now.key.places }
    requires near { place < shared.now.key.places }
    requires nowhere { IsPassView seat.old.me.0 × ((pass_of seat.old.me.0).look ≡ Nowhere) }
    ensures seat { (seat.new.table_id ≡ seat.old.table_id) × (seat.new.id ≡ seat.old.id) }
    ensures culled { (seen : Option Note)
        × (seat.new.me ≡ (place_culled place seen seat.old.me.0, seat.old.me.1)) }
{
    if try_claim(shared, seat, place) == ZOMBIE {
        end_look(shared, seat, place);
    }
}

// Culls the zombies of a target, from place 1 up.
fn cull_all<J: Meant>(
    shared: &Shared<Ring<Item<J>>, View<J::Meaning>, Sizes, Law<J>>,
    seat: &mut Seat<Ring<Item<J>>, View<J::Meaning>>,
    places: u32,
)
    requires table { IsOneTable seat.old.table_id shared.now.table_id shared.now.key.places }
    requires places { places ≡ shared.now.key.places }
    requires nowhere { IsPassView seat.old.me.0 × ((pass_of seat.old.me.0).look ≡ Nowhere) }
    ensures seat { (seat.new.table_id ≡ seat.old.table_id) × (seat.new.id ≡ seat.old.id)
        × (seat.new.me.1 ≡ seat.old.me.1) }
    ensures culled { IsCulled (places - 1) seat.old.me.0 seat.new.me.0 }
{
    for place in 1..places {
        cull(shared, seat, place);
    }
}

// Creates the first free place from place 1 up, if there is one.
fn create_first<J: Meant>(
    shared: &Shared<Ring<Item<J>>, View<J::Meaning>, Sizes, Law<J>>,
    seat: &mut Seat<Ring<Item<J>>, View<J::Meaning>>,
    places: u32,
) -> Option<u32>
    requires table { IsOneTable seat.old.table_id shared.now.table_id shared.now.key.places }
    requires places { places ≡ shared.now.key.places }
    requires idle { IsPassView seat.old.me.0 }
    ensures seat { (seat.new.table_id ≡ seat.old.table_id) × (seat.new.id ≡ seat.old.id) }
    ensures created { IfSome result (λ place. (place ≢ 0) × (place < places)
        × (slice_index (pass_of seat.new.me.0).uses place ≡ 1)
        × (seat.new.me
        ≡ (place_created place (all_found (place - 1) seat.old.me.0), seat.old.me.1))) }
    ensures full { result ≡ None
        → seat.new.me ≡ (all_found (places - 1) seat.old.me.0, seat.old.me.1) }
{
    for place in 1..places {
        if try_create(shared, seat, place) == FREE {
            return Some(place);
        }
    }
    None
}

impl<J: Meant> Post<J> {
    /// Creates a place other than 0, with one use. It first sets each zombie free whose note is none.
    pub fn create(&self, pass: SendPass<J>) -> CreateAnswer<J>
        requires table { IsPassOf self.now pass }

        // The pass tried to claim each place from 1 up. After that it found those below this one not free, and then this
        // one free.
        ensures made { IfMade result (λ back place_use. IsPassOf self.now back
            × (pass_sender back ≡ pass_sender pass) × IsNewUse self.now (pass_view back) place_use
            × IsCreated (post_places self.now) (use_place place_use)
            (pass_view pass) (pass_view back)) }

        // The pass tried to claim each place from 1 up. After that it found each of them not free.
        ensures full { IfFull result (λ back. IsPassOf self.now back
            × (pass_sender back ≡ pass_sender pass)
            × IsAllFound (post_places self.now) (pass_view pass) (pass_view back)) }
    {
        let SendPass { mut hold } = pass;
        cull_all(&self.table.shared, &mut hold.seat, self.places);
        match create_first(&self.table.shared, &mut hold.seat, self.places) {
            Some(place) => CreateAnswer::Made {
                place_use: PlaceUse {
                    target: self.target,
                    place,
                    sender: hold.sender,
                    marker: PhantomData,
                },
                pass: SendPass { hold },
            },
            None => CreateAnswer::Full(SendPass { hold }),
        }
    }

    /// Clones a use. A pass makes at most 2^32 clones.
    pub fn clone_use(
        &self,
        pass: SendPass<J>,
        place_use: &PlaceUse<J>,
    ) -> (SendPass<J>, PlaceUse<J>)
        requires table { IsPassOf self.now pass }
        requires near { HasPlace self.now (use_place place_use.now) }
        requires used { IsUseOf self.now (pass_view pass) place_use.now }
        requires few { (pass_of (pass_view pass)).clones < clones_max }
        ensures { IsPassOf self.now result.0 × (result.1 ≡ place_use.now)
            × (pass_view result.0 ≡ use_cloned (use_place place_use.now) (pass_view pass)) }
    {
        let SendPass { mut hold } = pass;
        let place = place_use.place;
        add_use(&self.table.shared, &mut hold.seat, place);
        (
            SendPass { hold },
            PlaceUse {
                target: place_use.target,
                place,
                sender: place_use.sender,
                marker: PhantomData,
            },
        )
    }

    /// Releases a use of a place other than 0. The last one sets the place free, or leaves a zombie.
    pub fn release(&self, pass: SendPass<J>, place_use: PlaceUse<J>) -> (SendPass<J>, Released)
        requires table { IsPassOf self.now pass }
        requires near { HasPlace self.now (use_place place_use) }
        requires used { IsUseOf self.now (pass_view pass) place_use }
        requires other { use_place place_use ≢ 0 }
        ensures { IsPassOf self.now result.0
            × IsReleased (use_place place_use) (pass_view pass) result.1 (pass_view result.0) }
    {
        let SendPass { mut hold } = pass;
        let PlaceUse {
            target: _,
            place,
            sender: _,
            marker: _,
        } = place_use;
        let released = release_use(&self.table.shared, &mut hold.seat, place);
        (SendPass { hold }, released)
    }
}

impl<J> PlaceUse<J> {
    /// The number of the place in its target.
    pub fn place(&self) -> u32
        ensures { result ≡ use_place self.now }
    {
        self.place
    }

    /// The target of the place.
    pub fn target(&self) -> u32
        ensures { result ≡ use_target self.now }
    {
        self.target
    }
}
