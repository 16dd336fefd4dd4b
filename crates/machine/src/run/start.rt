// A start: a fresh run, whatever the run held.
#![tactic(auto, unfolding(text::specs::Order::given, text::specs::Order::first, stored::specs::Automaton::automaton_size, stored::specs::Run::run_size, stored::specs::RunCalls::start_refusal))]

ghost use Rattle.std.specs.Prelude.{◌≡◌, ◌≤◌, length};
ghost use Rattle.text.specs.Answers.{refusal_in};
ghost use Rattle.stored.specs.Run.{run_size};
ghost use Rattle.stored.specs.RunCalls.{start_run, start_refusal};
ghost use Rattle.stored.specs.RunContracts.{Starts};

use crate::layout::START_AT;
use crate::run::layout::{ROWS_AT, RUN_SIZE, STATE_IN};
use crate::run::lent::too_short;
use crate::run::row::put_word;
use crate::run::session::Session;
use crate::shape::automaton_shaped;
use notation::reads;
use stored::counters::Counters;
use text::refusals::Refusal;

// A fresh run, on any bytes of an automaton.
pub fn start_on(a: &[u8], run: &mut [u8])
    requires { run_size ≤ length run.old }
    ensures { run.new ≡ start_run a.now run.old }
{
    run[..RUN_SIZE].fill(0);
    put_word(run, ROWS_AT + STATE_IN, reads::word_at(a, START_AT));
}

fn start_refusal(a: &[u8], run: &[u8]) -> Result<(), Refusal>
    ensures { refusal_in result ≡ start_refusal a.now run.now }
{
    if too_short(a, run) {
        return Err(Refusal::ShortBuffer);
    }
    if !automaton_shaped(a) {
        return Err(Refusal::BadShape);
    }
    Ok(())
}

// The start.
pub fn start(a: &[u8], run: &mut [u8], counters: &mut Counters) -> Result<(), Refusal>
    ensures { Starts a.now run.old counters.old (refusal_in result) run.new counters.new }
{
    start_refusal(a, run)?;
    start_on(a, run);
    *counters = Counters::none();
    Ok(())
}

impl<'a> Session<'a> {
    ghost use Rattle.stored.specs.RunCalls.{no_counters};
    ghost use Rattle.machine.specs.Session.{Kept};

    // A fresh run once more.
    pub fn restart(&mut self)
        ensures run { self.new.run.now ≡ start_run self.old.a.now self.old.run.now }
        ensures counters { self.new.counters.now ≡ no_counters }
        ensures kept { Kept self.old self.new }
    {
        let run = &mut *self.run;
        let counters = &mut *self.counters;
        start_on(self.a, run);
        *counters = Counters::none();
    }
}
