// What a call on a run is lent: whether it is large enough, and passes the shape test.
#![tactic(auto, unfolding(text::specs::Order::given, text::specs::Order::first, stored::specs::Automaton::automaton_size, stored::specs::Run::run_size, stored::specs::RunCalls::shaped, stored::specs::Asking::ask_refusal))]

ghost use Rattle.std.specs.Prelude.{◌≡◌, true};
ghost use Rattle.text.specs.Answers.{refusal_in};
ghost use Rattle.text.specs.Order.{given};
ghost use Rattle.stored.specs.RunCalls.{too_short, lent_conditions};
ghost use Rattle.stored.specs.Asking.{ask_refusal};

use crate::layout::AUTOMATON_SIZE;
use crate::run::layout::RUN_SIZE;
use crate::run::shape::{counters_shaped, run_shaped};
use crate::shape::automaton_shaped;
use stored::counters::Counters;
use text::refusals::Refusal;

// Automaton or run has not its size.
pub fn too_short(a: &[u8], run: &[u8]) -> bool
    ensures { result ≡ too_short a.now run.now }
{
    a.len() < AUTOMATON_SIZE || run.len() < RUN_SIZE
}

// `ShortBuffer` and `BadShape` of automaton and run, with which the calls begin that read a run and take no counters.
pub fn pair_refusal(a: &[u8], run: &[u8]) -> Result<(), Refusal>
    ensures { refusal_in result ≡ ask_refusal a.now run.now true }
{
    if too_short(a, run) {
        return Err(Refusal::ShortBuffer);
    }
    if !automaton_shaped(a) || !run_shaped(a, run) {
        return Err(Refusal::BadShape);
    }
    Ok(())
}

// The same with counters, with which open, close and listing begin.
pub fn refusal(a: &[u8], run: &[u8], c: Counters) -> Result<(), Refusal>
    ensures { refusal_in result ≡ given (lent_conditions a.now run.now c) }
{
    pair_refusal(a, run)?;
    if !counters_shaped(run, c) {
        return Err(Refusal::BadShape);
    }
    Ok(())
}
