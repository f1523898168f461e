//! Changes of a world at one place or one sender.

ghost use Rattle.std.specs.Prelude.{◌≡◌, ℕ, ◌<◌, ◌++◌, ◌∷◌, [], IsTrue, OnOk, OnErr};
ghost use Rattle.proxy_laws.specs.declared.actors.Actor.TheVariants as actor;
ghost use Rattle.proxy_laws.specs.Lists.{with_fate};
ghost use Rattle.proxy_laws.specs.Mailbox.{mail_after_add, mail_note_after_take};
ghost use Rattle.proxy_laws.specs.Maps.{upd};
ghost use Rattle.proxy_laws.specs.Phases.{names, looks_at};
ghost use Rattle.proxy_model.specs.Shown.{world_of};

use crate::worlds::World;
use proxy_laws::{Actor, FateMark, Job, Look, Mark, Note, Phase, Serving};
use std::alloc::AllocError;

impl World {
    pub(crate) fn set_note(&mut self, place: u32, note: Note)
        requires { place < self.old.places }
        ensures { world_of self.new
            ≡ record (world_of self.old) { note = upd (world_of self.old).note place note } }
    {
        self.notes[place as usize] = note;
    }

    pub(crate) fn set_life(&mut self, place: u32, life: u64)
        requires { place < self.old.places }
        ensures { world_of self.new
            ≡ record (world_of self.old) { life = upd (world_of self.old).life place life } }
    {
        self.lives[place as usize] = life;
    }

    pub(crate) fn set_turn(&mut self, place: u32, turn: Option<Actor>)
        requires there { place < self.old.places }
        requires in_range { (s : ℕ) → turn ≡ Some (actor.Sender s) → s < self.old.senders }
        ensures { world_of self.new
            ≡ record (world_of self.old) { turn = upd (world_of self.old).turn place turn } }
    {
        self.turns[place as usize] = turn;
    }

    pub(crate) fn set_serving(&mut self, place: u32, serving: Serving)
        requires { place < self.old.places }
        ensures { world_of self.new
            ≡ record (world_of self.old) {
              serving = upd (world_of self.old).serving place serving;
            } }
    {
        self.serving[place as usize] = serving;
    }

    /// Puts a notice of the place into the mailbox, or takes it out.
    pub(crate) fn set_mailed(&mut self, place: u32, mailed: bool)
        requires { place < self.old.places }
        ensures { world_of self.new
            ≡ record (world_of self.old) { mail = upd (world_of self.old).mail place mailed } }
    {
        self.mail[place as usize] = mailed;
    }

    /// Brings the notice of a messenger in this phase to the mailbox.
    pub(crate) fn add_notice(&mut self, phase: Phase)
        requires { (p : ℕ) → IsTrue (names p phase) → p < self.old.places }
        ensures { world_of self.new
            ≡ record (world_of self.old) { mail = mail_after_add phase (world_of self.old).mail } }
    {
        match phase {
            Phase::Messenger(place) => self.set_mailed(place, true),
            _ => {}
        }
    }

    /// Sets the mailbox's note to none, where the mailbox is empty.
    pub(crate) fn clear_mail_note(&mut self)
        ensures { world_of self.new
            ≡ record (world_of self.old) {
              mail_note = mail_note_after_take (world_of self.old).places
                  (world_of self.old).mail (world_of self.old).mail_note;
            } }
    {
        if self.notice_count() == 0 {
            self.mail_note = Note::None;
        }
    }

    pub(crate) fn set_phase(&mut self, sender: u32, phase: Phase)
        requires there { sender < self.old.senders }
        requires in_range { (p : ℕ) → IsTrue (names p phase) → p < self.old.places }
        ensures { world_of self.new
            ≡ record (world_of self.old) { phase = upd (world_of self.old).phase sender phase } }
    {
        self.phases[sender as usize] = phase;
    }

    pub(crate) fn set_look(&mut self, sender: u32, look: Look)
        requires there { sender < self.old.senders }
        requires in_range { (p : ℕ) → IsTrue (looks_at p look) → p < self.old.places }
        ensures { world_of self.new
            ≡ record (world_of self.old) { look = upd (world_of self.old).look sender look } }
    {
        self.looks[sender as usize] = look;
    }

    pub(crate) fn set_use_count(&mut self, sender: u32, place: u32, count: u64)
        requires there { sender < self.old.senders }
        requires place_there { place < self.old.places }
        ensures { world_of self.new
            ≡ record (world_of self.old) {
              uses = upd (world_of self.old).uses sender
                  (upd ((world_of self.old).uses sender) place count);
            } }
    {
        self.uses[sender as usize].set(place, count);
    }

    pub(crate) fn push_mark(&mut self, place: u32, mark: Mark) -> Result<(), AllocError>
        requires there { mark.sender < self.old.senders }
        requires place_there { place < self.old.places }
        ensures ok { OnOk result (world_of self.new
            ≡ record (world_of self.old) {
              sent = upd (world_of self.old).sent place
                  ((world_of self.old).sent place ++ mark ∷ []);
            }) }
        ensures err { OnErr result (world_of self.new ≡ world_of self.old) }
    {
        self.sent[place as usize].push(mark)
    }

    pub(crate) fn push_job(&mut self, place: u32, job: Job) -> Result<(), AllocError>
        requires { place < self.old.places }
        ensures ok { OnOk result (world_of self.new
            ≡ record (world_of self.old) {
              jobs = upd (world_of self.old).jobs place
                  ((world_of self.old).jobs place ++ job ∷ []);
            }) }
        ensures err { OnErr result (world_of self.new ≡ world_of self.old) }
    {
        self.jobs[place as usize].push(job)
    }

    pub(crate) fn settle(&mut self, place: u32, n: u64, fate: FateMark)
        requires { place < self.old.places }
        ensures { world_of self.new
            ≡ record (world_of self.old) {
              jobs = upd (world_of self.old).jobs place
                  (with_fate ((world_of self.old).jobs place) n fate);
            } }
    {
        self.jobs[place as usize].settle(n, fate);
    }
}
