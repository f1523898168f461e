//! The world of a target as it is made.

ghost use Rattle.std.specs.Prelude.{◌≡◌, ◌+◌, ◌≤◌, [], IfOk, replicate, slice_set};
ghost use Rattle.proxy_laws.specs.Limits.{places_max, senders_max};
ghost use Rattle.proxy_laws.specs.Sound.{Sound};
ghost use Rattle.proxy_laws.specs.Worlds.{opening_world};
ghost use Rattle.proxy_model.specs.Shown.{world_of};

use crate::worlds::{Row, World};
use proxy_laws::{Look, Note, OwnerState, Phase, Serving};
use std::alloc::{AllocError, Global};

/// The value, so many times.
fn filled<T: Copy>(alloc: Global, value: T, count: u32) -> Result<Vec<T>, AllocError>
    ensures { IfOk result (λ v. v.items ≡ replicate count value) }
{
    let mut items = Vec::with_capacity(alloc, count as usize)?;
    for index in 0..count {
        items.push(value)?;
    }
    Ok(items)
}

/// So many rows, all empty.
fn empty_rows<T: Drop>(alloc: Global, count: u32) -> Result<Vec<Row<T>>, AllocError>
    ensures { IfOk result (λ v. v.items ≡ replicate count []) }
{
    let mut rows = Vec::with_capacity(alloc, count as usize)?;
    for index in 0..count {
        rows.push(Row::of(Vec::new(alloc)))?;
    }
    Ok(rows)
}

/// The number for place 0, and 0 for each other place.
fn first_only(alloc: Global, number: u64, places: u32) -> Result<Vec<u64>, AllocError>
    requires { 1 ≤ places }
    ensures { IfOk result (λ v. v.items ≡ slice_set (replicate places 0) 0 number) }
{
    let mut numbers = filled(alloc, 0, places)?;
    numbers[0] = number;
    Ok(numbers)
}

/// The uses of each sender: one of place 0.
fn system_uses(alloc: Global, senders: u32, places: u32) -> Result<Vec<Row<u64>>, AllocError>
    requires { 1 ≤ places }
    ensures { IfOk result (λ v. v.items ≡ replicate senders (slice_set (replicate places 0) 0 1)) }
{
    let mut rows = Vec::with_capacity(alloc, senders as usize)?;
    for sender in 0..senders {
        rows.push(Row::of(first_only(alloc, 1, places)?))?;
    }
    Ok(rows)
}

impl World {
    /// The world of a new target: one reference, no jobs, all notes none. Place 0 is live with one
    /// use for each sender, and all other places are free. `senders` is 1 to 64, `places` 1 to 256.
    /// The one error is want of memory.
    pub fn opening(alloc: Global, senders: u32, places: u32) -> Result<World, AllocError>
        requires some_senders { 1 ≤ senders }
        requires few_senders { senders ≤ senders_max }
        requires some_places { 1 ≤ places }
        requires few_places { places ≤ places_max }
        ensures opened { IfOk result (λ w. world_of w ≡ opening_world senders places) }
        ensures sound { IfOk result (λ w. Sound (world_of w)) }
    {
        let sent = empty_rows(alloc, places)?;
        let jobs = empty_rows(alloc, places)?;
        let notes = filled(alloc, Note::None, places)?;
        let lives = first_only(alloc, u64::from(senders) + 2, places)?;
        let turns = filled(alloc, None, places)?;
        let serving = filled(alloc, Serving::Away, places)?;
        let mail = filled(alloc, false, places)?;
        let phases = filled(alloc, Phase::Idle, senders)?;
        let uses = system_uses(alloc, senders, places)?;
        let looks = filled(alloc, Look::Nowhere, senders)?;
        Ok(World {
            senders,
            places,
            refs: 1,
            owner: OwnerState::Open,
            sent,
            jobs,
            notes,
            lives,
            turns,
            serving,
            mail,
            mail_note: Note::None,
            got: 0,
            phases,
            uses,
            looks,
        })
    }
}
