//! One table for each target of the proxying layer: what senders, the owner and places share.
#![tactic(auto)]

mod cancelling;
mod closing;
mod closing_owner;
mod closing_steps;
mod ending;
mod first_job;
mod gathering;
mod job_steps;
mod joining;
mod laws;
mod lives;
mod mailing;
mod making;
mod meant;
mod noticing;
mod owner;
mod owner_laws;
mod post;
mod put_jobs;
mod records;
mod rule;
mod seen_notes;
mod send_answers;
mod send_steps;
mod sends;
mod serving;
mod settle_steps;
mod settling;
mod slots;
mod taking;
mod tries;
mod try_jobs;
mod try_steps;
mod turns;
mod uses;
mod views;

pub use closing_owner::{CancelNext, Closed, Closing, ClosingLook};
pub use ending::{CloseBack, close, discard, unmake};
pub use laws::{
    add_ref_is_its_event, claim_is_its_event, clone_use_is_its_event, create_is_its_event,
    drop_ref_is_its_event, load_refs_is_its_event, look_note_is_its_event, mark_life_is_its_event,
    missed_ref_is_a_load, missed_turn_is_no_event, put_is_its_event, release_use_is_its_event,
    sender_give_place_is_its_event, sender_take_place_is_its_event, swap_note_is_its_event,
    table_is_always_sound, table_shows_one_world,
};
pub use making::{Made, make};
pub use meant::Meant;
pub use owner::{Emptied, Exec, Got, Noticed, Owner, SeenEmpty, Taken};
pub use owner_laws::{
    add_mail_is_its_event, closed_has_no_sender, direct_is_its_event, drop_own_is_its_event,
    emptied_has_nothing, finish_is_its_event, look_closed_is_its_event, look_mail_is_its_event,
    look_place_is_its_event, owner_give_place_is_its_event, owner_take_place_is_its_event,
    receive_is_its_event, reset_place_is_its_event, settle_cancelled_is_its_event,
    settle_finished_is_its_event, take_job_is_its_event, take_notice_is_its_event,
};
pub use post::{Notice, Owing, PlaceUse, Post, RefPass, SeenNote, SendPass};
pub use send_answers::{Notified, PutAnswer, RefAnswer, TryPutAnswer, TryRefAnswer};
pub use uses::{CreateAnswer, Released};
