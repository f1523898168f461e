ghost use Rattle.std.specs.Prelude.{◌≡◌, ◌++◌, ◌<◌, ◌%◌, true, codes, IfOk};
ghost use Rattle.wf_core.specs.Names.{has_no_nul};
ghost use Rattle.run_engine.specs.Generated.{call_of, draw_at, entry_name, first_path, link_text, next_state, prefix_of, second_path, thread_of};

use file_store::Access;
use path_walk::{DataCall, OpenFlags};
use std::alloc::{AllocError, Global};
use trace_text::{Descriptor, TraceCall};
use wf_core::{PathRefusal, PathText, Text};

/// Draws numbers of 31 bits, by a linear congruential generator of 64 bits.
#[derive(Drop)]
pub(crate) struct Generator {
    state: u64,
}

/// The draws of one call, in their order.
#[derive(Clone, Copy)]
pub(crate) struct Draws {
    pub a: u32,
    pub b: u32,
    pub c: u32,
}

impl Generator {
    pub(crate) fn new(seed: u64) -> Generator
        ensures { result.state ≡ seed }
    {
        Generator { state: seed }
    }

    fn draw(&mut self) -> u32
        ensures state { self.new.state ≡ next_state self.old.state }
        ensures value { result ≡ draw_at (next_state self.old.state) }
    {
        self.state = self
            .state
            .wrapping_mul(6_364_136_223_846_793_005)
            .wrapping_add(1_442_695_040_888_963_407);
        (self.state >> 33) as u32
    }

    /// The draws of the next call.
    pub(crate) fn draws(&mut self) -> Draws
        ensures state { self.new.state ≡ next_state (next_state (next_state self.old.state)) }
        ensures a { result.a ≡ draw_at (next_state self.old.state) }
        ensures b { result.b ≡ draw_at (next_state (next_state self.old.state)) }
        ensures c { result.c ≡ draw_at (next_state (next_state (next_state self.old.state))) }
    {
        let a = self.draw();
        let b = self.draw();
        let c = self.draw();
        Draws { a, b, c }
    }
}

/// `rw,creat`.
const FLAGS: OpenFlags = OpenFlags {
    access: Access::ReadWrite,
    creat: true,
    excl: false,
    trunc: false,
    append: false,
    directory: false,
    nofollow: false,
};

fn prefix_of(number: u32) -> &'static str
    ensures { result.now ≡ prefix_of number }
{
    match number {
        0 => "/",
        1 => "/m/",
        _ => "/p/",
    }
}

/// The path of an entry behind a prefix.
fn path(alloc: Global, prefix: u32, entry: u32) -> Result<PathText, AllocError>
    ensures { IfOk result (λ path. path ≡ prefix_of prefix ++ entry_name entry) }
{
    let prefix = prefix_of(prefix);
    plain_path(alloc, &format!(in alloc; "{prefix}n{entry}")?)
}

fn plain_path(alloc: Global, text: &str) -> Result<PathText, AllocError>
    requires { has_no_nul text.now ≡ true }
    ensures { IfOk result (λ path. path ≡ text.now) }
{
    match PathText::read(alloc, text.as_bytes()) {
        Ok(path) => Ok(path),
        Err(PathRefusal::NoMemory) => Err(AllocError),
        Err(PathRefusal::HasNul) => unreachable!(),
    }
}

impl Draws {
    /// The number of the thread that makes the call.
    pub(crate) fn thread(self) -> u32
        ensures value { result ≡ thread_of self }
        ensures within { result < 4 }
    {
        self.a % 4
    }

    /// The call itself.
    pub(crate) fn call(self, alloc: Global) -> Result<TraceCall, AllocError>
        ensures { IfOk result (λ call. call ≡ call_of self) }
    {
        match self.a / 4 % 8 {
            0 => Ok(TraceCall::Mkdir(self.first_path(alloc)?)),
            1 => Ok(TraceCall::Rmdir(self.first_path(alloc)?)),
            2 => Ok(TraceCall::Unlink(self.first_path(alloc)?)),
            3 => self.rename(alloc),
            4 => self.symlink(alloc),
            5 => Ok(TraceCall::Open(self.first_path(alloc)?, FLAGS)),
            6 => self.write(alloc),
            _ => Ok(TraceCall::Stat(self.first_path(alloc)?)),
        }
    }

    fn first_path(self, alloc: Global) -> Result<PathText, AllocError>
        ensures { IfOk result (λ path. path ≡ first_path self) }
    {
        path(alloc, self.b % 3, self.c % 16)
    }

    fn second_path(self, alloc: Global) -> Result<PathText, AllocError>
        ensures { IfOk result (λ path. path ≡ second_path self) }
    {
        path(alloc, self.b / 3 % 3, self.c / 16 % 16)
    }

    fn rename(self, alloc: Global) -> Result<TraceCall, AllocError>
        ensures { IfOk result (λ call. call ≡ TraceCall.Rename (first_path self) (second_path self)) }
    {
        let from = self.first_path(alloc)?;
        let to = self.second_path(alloc)?;
        Ok(TraceCall::Rename(from, to))
    }

    fn symlink(self, alloc: Global) -> Result<TraceCall, AllocError>
        ensures { IfOk result (λ call. call ≡ TraceCall.Symlink (link_text self) (first_path self)) }
    {
        let entry = self.c / 16 % 16;
        let text = plain_path(alloc, &format!(in alloc; "n{entry}")?)?;
        let path = self.first_path(alloc)?;
        Ok(TraceCall::Symlink(text, path))
    }

    fn write(self, alloc: Global) -> Result<TraceCall, AllocError>
        ensures { IfOk result (λ call. call
            ≡ TraceCall.Data (Descriptor.Number (self.c % 8)) (DataCall.Write (codes "xyz"))) }
    {
        let bytes = Text::read(alloc, b"xyz")?;
        let descriptor = Descriptor::Number(self.c % 8);
        Ok(TraceCall::Data(descriptor, DataCall::Write(bytes)))
    }
}
