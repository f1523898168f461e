ghost use Rattle.std.specs.Prelude.{◌≡◌, IfOk, OnOk};
ghost use Rattle.trace_text.specs.SoloText.{after_call_line, opening_of_run, outcome_of_line};
ghost use Rattle.trace_text.specs.Traces.{traced};
ghost use Rattle.run_engine.specs.RunStores.{AreMountable};

use crate::reply_numbers::ReplyNumbers;
use crate::run_store::RunStore;
use path_walk::{Reply, perform};
use std::alloc::{AllocError, Global};
use std::marker::Model;
use trace_text::{CallLine, Trace, Version, number_in_reply};

/// A run of a trace between two of its calls.
#[derive(Drop)]
pub(crate) struct Run {
    version: Version,
    store: RunStore,
    numbers: ReplyNumbers,
}

impl Model for Run {
    ghost use Rattle.trace_text.specs.SoloText.{Between};

    ghost Value = { Between };

    ghost view = { λ r. record { version = r.version; store = r.store; numbers = r.numbers } };
}

impl Run {
    /// Before the first call.
    pub(crate) fn new(alloc: Global, trace: &Trace) -> Result<Run, AllocError>
        requires { AreMountable trace.now.backends.items }
        ensures { IfOk result (λ run. run ≡ opening_of_run (traced trace.now)) }
    {
        let store = RunStore::new(alloc, trace.backends.as_slice())?;
        let numbers = ReplyNumbers::new(alloc, trace.threads.as_slice())?;
        Ok(Run {
            version: trace.version,
            store,
            numbers,
        })
    }

    /// Takes the call of a line, and gives its reply.
    pub(crate) fn take(&mut self, alloc: Global, line: CallLine) -> Result<Reply, AllocError>
        ensures reply { IfOk result (λ reply. reply ≡ (outcome_of_line self.old line).reply) }
        ensures after { OnOk result (self.new ≡ after_call_line self.old line) }
    {
        let CallLine { thread, call, .. } = line;
        let call = call.into_call(self.numbers.of(thread));
        let reply = perform(alloc, call, &mut self.store, self.version.number())?;
        self.numbers.push(thread, number_in_reply(&reply))?;
        Ok(reply)
    }

    pub(crate) fn store(&self) -> &RunStore
        ensures { result.now ≡ self.now.store }
    {
        &self.store
    }
}
