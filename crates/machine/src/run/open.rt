// An open: the walk, and the new element's row.
#![tactic(auto, unfolding(model::specs::Limits::max_depth, stored::specs::Automaton::mask_size, stored::specs::Run::row_size, stored::specs::Run::run_size))]

ghost use Rattle.std.specs.Prelude.{◌≡◌, suc, ◌≤◌, ◌<◌, length, true};
ghost use Rattle.text.specs.Names.{max_name, name_form};
ghost use Rattle.notation.specs.Limits.{max_steps};
ghost use Rattle.model.specs.Limits.{max_depth};
ghost use Rattle.stored.specs.Tables.{first_of};
ghost use Rattle.stored.specs.RunContracts.{Opens};
ghost use Rattle.stored.specs.Usable.{Openable, Ready};
ghost use Rattle.stored.specs.RunCalls.{depth_of, open_run, open_walk};
ghost use Rattle.machine.specs.Places.{place_of};

use crate::automaton::{Automaton, Label};
use crate::layout::MASK_SIZE;
use crate::run::layout::{DEPTH_AT, ROW_SIZE};
use crate::run::rows::{Run, RunMut};
use crate::run::session::Session;
use crate::run::{lent, refusals, row, rows};
use stored::counters::Counters;
use stored::walk::Walk;
use text::names::name_form;
use text::refusals::Refusal;

// What an open writes: the new row, the matches, the depth, which was d. `first` is the first label with the name, `state` the state that the
// walk ends in.
fn write(
    automaton: &Automaton,
    run: &mut RunMut,
    e: &[u8],
    first: Option<Label>,
    d: usize,
    state: usize,
)
    requires openable { (Openable automaton.now) × ((d < max_depth) × (length e.now ≤ max_name)) }
    requires first_value { (place_of first ≡ first_of automaton.now e.now) × ((d ≡ depth_of run.old.bytes.now) × (state ≡ (open_walk automaton.now run.old.bytes.now e.now).state)) }
    ensures { run.new.bytes ≡ record run.old.bytes { now = open_run automaton.now run.old.bytes.now e.now } }
{
    let mut taken = [0; MASK_SIZE];
    automaton.flag_labels(first, &mut taken);
    let at = rows::row_at(d + 1);
    row::write_row(&mut run.bytes[at..at + ROW_SIZE], e, state);
    automaton.store_bits(run, &taken, d);
    row::put_word(run.bytes, DEPTH_AT, d + 1);
}

// An open that is accepted: for callers that know the shape of automaton and run, and that the name may be opened.
fn open_on(a: &[u8], run: &mut [u8], e: &[u8]) -> Walk
    requires { (Ready a.now run.old) × ((depth_of run.old < max_depth) × (length e.now ≤ max_name)) }
    ensures { (result ≡ open_walk a.now run.old e.now) × ((result.moves ≤ suc max_steps) × (run.new ≡ open_run a.now run.old e.now)) }
{
    let automaton = Automaton { bytes: a };
    let first = automaton.first_label(e);
    let before = Run { bytes: run };
    let d = before.depth();
    let walked = automaton.walk_from(before.state(d), first);
    write(
        &automaton,
        &mut RunMut { bytes: run },
        e,
        first,
        d,
        walked.state,
    );
    walked
}

impl<'a> Session<'a> {
    ghost use Rattle.machine.specs.Session.{Kept};

    // The open of a name of name form.
    pub fn open(&mut self, e: &[u8]) -> Result<usize, Refusal>
        requires { name_form e.now ≡ true }
        ensures opens { Opens self.old.a.now self.old.run.now self.old.counters.now e.now result self.new.run.now self.new.counters.now }
        ensures kept { Kept self.old self.new }
    {
        let run = &mut *self.run;
        let counters = &mut *self.counters;
        refusals::open_others(&Run { bytes: run }, *counters, e)?;
        let walked = open_on(self.a, run, e);
        let moves = walked.moves;
        counters.count_open(moves);
        Ok(moves)
    }
}

// The open. It answers its own failure moves.
pub fn open(a: &[u8], run: &mut [u8], counters: &mut Counters, e: &[u8]) -> Result<usize, Refusal>
    ensures { Opens a.now run.old counters.old e.now result run.new counters.new }
{
    lent::refusal(a, run, *counters)?;
    if !name_form(e) {
        return Err(Refusal::SyntaxError);
    }
    Session { a, run, counters }.open(e)
}
