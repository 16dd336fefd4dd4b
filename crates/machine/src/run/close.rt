// A close: the innermost element's row becomes zero.
#![tactic(auto, unfolding(stored::specs::Run::row_size, stored::specs::Run::run_size))]

ghost use Rattle.std.specs.Prelude.{◌≡◌, ◌≤◌, ◌<◌, true};
ghost use Rattle.text.specs.Answers.{refusal_in};
ghost use Rattle.text.specs.Names.{name_form};
ghost use Rattle.model.specs.Limits.{max_depth};
ghost use Rattle.stored.specs.RunContracts.{Closes};
ghost use Rattle.stored.specs.RunCalls.{depth_of, close_run};

use crate::run::layout::{ACTIVE_IN, DEPTH_AT, ROW_SIZE, SEEN_IN};
use crate::run::rows::{Run, RunMut};
use crate::run::session::Session;
use crate::run::{lent, refusals, row, rows};
use stored::counters::Counters;
use text::names::name_form;
use text::refusals::Refusal;

// A close that is accepted: for callers that know the depth of the run, and that an element is open. The row is cleared in parts and not in
// their order: joined, they are a call, which takes more instructions.
fn close_on(run: &mut RunMut)
    requires { (0 < depth_of run.old.bytes.now) × (depth_of run.old.bytes.now ≤ max_depth) }
    ensures { run.new.bytes ≡ record run.old.bytes { now = close_run run.old.bytes.now } }
{
    let run = &mut *run.bytes;
    let d = Run { bytes: run }.depth();
    let at = rows::row_at(d);
    run[at + SEEN_IN..at + ROW_SIZE].fill(0);
    run[at..at + ACTIVE_IN].fill(0);
    row::put_word(run, DEPTH_AT, d - 1);
    run[at + ACTIVE_IN..at + SEEN_IN].fill(0);
}

impl<'a> Session<'a> {
    ghost use Rattle.machine.specs.Session.{Kept};

    // The close of a name of name form.
    pub fn close(&mut self, e: &[u8]) -> Result<(), Refusal>
        requires { name_form e.now ≡ true }
        ensures closes { Closes self.old.a.now self.old.run.now self.old.counters.now e.now (refusal_in result) self.new.run.now self.new.counters.now }
        ensures kept { Kept self.old self.new }
    {
        let run = &mut *self.run;
        let counters = &mut *self.counters;
        refusals::close_others(self.a, run, e)?;
        close_on(&mut RunMut { bytes: run });
        counters.count_close();
        Ok(())
    }
}

// The close.
pub fn close(a: &[u8], run: &mut [u8], counters: &mut Counters, e: &[u8]) -> Result<(), Refusal>
    ensures { Closes a.now run.old counters.old e.now (refusal_in result) run.new counters.new }
{
    lent::refusal(a, run, *counters)?;
    if !name_form(e) {
        return Err(Refusal::SyntaxError);
    }
    Session { a, run, counters }.close(e)
}
