// What is stored in the rows of a run.
#![tactic(auto, unfolding(model::specs::Limits::max_depth, stored::specs::Run::rows_at, stored::specs::Run::row_size, stored::specs::Run::run_size, stored::specs::Run::state_in, stored::specs::RunCalls::depth_of))]

ghost use Rattle.std.specs.Prelude.{◌≡◌, ◌+◌, ◌≤◌, ◌<◌, length};
ghost use Rattle.model.specs.Limits.{max_depth};
ghost use Rattle.stored.specs.Run.{row_at, row_size, run_size};
ghost use Rattle.stored.specs.RunCalls.{depth_of, name_length, state_at};

use crate::run::layout::{DEPTH_AT, ROW_SIZE, ROWS_AT, STATE_IN};
use crate::words::word;
use notation::reads;
use std::marker::Model;

// Where the row of a depth stands. A depth is a number with its bound in each contract: a type for it would be made of a stored number or a count
// and taken apart for each offset.
pub fn row_at(d: usize) -> usize
    requires { d ≤ max_depth }
    ensures { (result ≡ row_at d) × (result + row_size ≤ run_size) }
{
    ROWS_AT + ROW_SIZE * d
}

// The length of the name in the row of a depth, of any bytes.
pub fn name_length(run: &[u8], d: usize) -> usize
    requires { d ≤ max_depth }
    ensures { (result ≡ name_length run.now d) × (result < 256) }
{
    reads::byte_at(run, row_at(d))
}

// The state in the row of a depth, of any bytes.
pub fn state_at(run: &[u8], d: usize) -> usize
    requires { d ≤ max_depth }
    ensures { (result ≡ state_at run.now d) × (result < 65536) }
{
    reads::word_at(run, row_at(d) + STATE_IN)
}

// The bytes of a run, at least as many as it has: its numbers are read without a range test. Not one type with `Automaton` over the size: their
// sizes are the same, so that it would not tell them apart.
#[derive(Drop)]
pub struct Run<'r> {
    pub bytes: &'r [u8],
}

impl<'r> Model for Run<'r> {
    ghost use Rattle.std.specs.Prelude.{List, ℕ, ◌≤◌, length};
    ghost use Rattle.stored.specs.Run.{run_size};

    ghost Value = { List ℕ };

    ghost view = { λ r. r.bytes.now };

    ghost invariant = { λ r. run_size ≤ length r.bytes.now };
}

impl<'r> Run<'r> {
    // The count of open elements.
    pub fn depth(&self) -> usize
        ensures { result ≡ depth_of self.now }
    {
        word(self.bytes, DEPTH_AT)
    }

    pub fn state(&self, d: usize) -> usize
        requires { d ≤ max_depth }
        ensures value { result ≡ state_at self.now d }
        ensures bound { result < 65536 }
    {
        word(self.bytes, row_at(d) + STATE_IN)
    }
}

// The same of a run that is written.
#[derive(Drop)]
pub struct RunMut<'r> {
    pub bytes: &'r mut [u8],
    pub ghost sized: { run_size ≤ length bytes.now },
}
