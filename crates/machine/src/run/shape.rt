// The shape test of a run and of its counters.
#![tactic(auto, unfolding(text::specs::Names::max_name, model::specs::Limits::max_depth, model::specs::Limits::max_opens, stored::specs::RunCalls::depth_of, stored::specs::RunCalls::run_shaped, stored::specs::RunCalls::counters_shaped))]

ghost use Rattle.std.specs.Prelude.{◌≡◌, ◌<◌, ◌≤◌};
ghost use Rattle.model.specs.Limits.{max_depth};
ghost use Rattle.stored.specs.RunCalls.{depth_of, row_shaped, run_shaped, counters_shaped};

use crate::run::layout::{DEPTH_AT, MAX_DEPTH, MAX_OPENS};
use crate::run::rows::{name_length, state_at};
use notation::reads;
use stored::counters::Counters;
use text::names::MAX_NAME;

// The count of open elements.
pub fn depth(run: &[u8]) -> usize
    ensures { (result ≡ depth_of run.now) × (result < 65536) }
{
    reads::word_at(run, DEPTH_AT)
}

fn row_shaped(a: &[u8], run: &[u8], d: usize) -> bool
    requires { d ≤ max_depth }
    ensures { result ≡ row_shaped a.now run.now d }
{
    name_length(run, d) <= MAX_NAME && state_at(run, d) <= reads::labels(a) + 1
}

// A row for each depth, with numbers in range.
pub fn run_shaped(a: &[u8], run: &[u8]) -> bool
    ensures { result ≡ run_shaped a.now run.now }
{
    let deepest = depth(run);
    deepest <= MAX_DEPTH && (0..deepest + 1).all(|d| row_shaped(a, run, d))
}

// opens = closes + depth, and at most 64 failure moves an open.
pub fn counters_shaped(run: &[u8], c: Counters) -> bool
    ensures { result ≡ counters_shaped run.now c }
{
    c.opens <= MAX_OPENS
        && c.closes <= c.opens
        && c.opens - c.closes == depth(run)
        && c.moves <= MAX_DEPTH * c.opens
}
