// The calls that ask a run, and change nothing.
#![tactic(auto, unfolding(text::specs::Order::given, text::specs::Order::first, stored::specs::Asking::ask_refusal, stored::specs::Asking::ask_path, stored::specs::Asking::ask_folder, stored::specs::Asking::ask_step, stored::specs::Asking::ask_prefix, stored::specs::Asking::name_refusal, stored::specs::Asking::place_matched, stored::specs::Run::active_in, stored::specs::Run::row_size, stored::specs::Run::run_size, stored::specs::RunCalls::run_shaped))]

ghost use Rattle.std.specs.Prelude.{◌≡◌, ◌+◌, ◌-◌, ◌≤◌};
ghost use Rattle.text.specs.Answers.{says, refusal_in};
ghost use Rattle.stored.specs.Usable.{Ready};
ghost use Rattle.stored.specs.RunCalls.{depth_of, active_at};
ghost use Rattle.stored.specs.Asking.{ask_path, ask_folder, ask_step, ask_prefix, name_refusal, OpenName};

use crate::automaton::Automaton;
use crate::bits::bit_in;
use crate::run::layout::ACTIVE_IN;
use crate::run::lent::pair_refusal;
use crate::run::refusals::stored_name;
use crate::run::rows::Run;
use crate::run::{matches, rows};
use notation::{FolderNumber, PathPlace, reads};
use text::refusals::Refusal;

// Is a path matched?
pub fn path_matched(a: &[u8], run: &[u8], place: PathPlace) -> Result<bool, Refusal>
    ensures { says result ≡ ask_path a.now run.now place }
{
    pair_refusal(a, run)?;
    let path = reads::path_at(a, place).ok_or(Refusal::NotFound)?;
    Ok(matches::last_matched(run, path))
}

// Is a folder, by its number, matched?
pub fn folder_matched(a: &[u8], run: &[u8], number: FolderNumber) -> Result<bool, Refusal>
    ensures { says result ≡ ask_folder a.now run.now number }
{
    pair_refusal(a, run)?;
    let i = reads::folder_of(a, number).ok_or(Refusal::NotFound)?;
    Ok(matches::folder_paths_matched(a, run, i))
}

// Step s, from 1, of a path that begins with step `first`, on the innermost element.
fn bit_active(a: &[u8], run: &[u8], first: usize, s: usize) -> bool
    requires { (Ready a.now run.now) × ((first ≤ 65536) × (s ≤ 65536)) }
    ensures { result ≡ active_at run.now (depth_of run.now) (first + s - 1) }
{
    let at = rows::row_at(Run { bytes: run }.depth());
    bit_in(run, at + ACTIVE_IN, (first + s).saturating_sub(1))
}

// Is step s, from 1, of a path active on the innermost element?
pub fn step_active(a: &[u8], run: &[u8], place: PathPlace, s: usize) -> Result<bool, Refusal>
    ensures { says result ≡ ask_step a.now run.now place s }
{
    pair_refusal(a, run)?;
    let path = reads::path_at(a, place).ok_or(Refusal::NotFound)?;
    if s < 1 || path.steps < s {
        return Err(Refusal::NotFound);
    }
    Ok(bit_active(a, run, path.first, s))
}

// The length of the current prefix.
pub fn prefix_length(a: &[u8], run: &[u8]) -> Result<usize, Refusal>
    ensures { says result ≡ ask_prefix a.now run.now }
{
    pair_refusal(a, run)?;
    let run = Run { bytes: run };
    Ok(Automaton { bytes: a }.size_of(run.state(run.depth())))
}

// The refusal of the open name at a depth.
pub fn name_refusal(a: &[u8], run: &[u8], d: usize) -> Result<(), Refusal>
    ensures { refusal_in result ≡ name_refusal a.now run.now d }
{
    pair_refusal(a, run)?;
    if d < 1 || (Run { bytes: run }).depth() < d {
        return Err(Refusal::NotFound);
    }
    Ok(())
}

// The open name at a depth, from 1: a part of the run, empty if refused.
pub fn open_name<'a, 'r>(a: &'a [u8], run: &'r [u8], d: usize) -> &'r [u8]
    ensures { OpenName a.now run.entry d result }
{
    if name_refusal(a, run, d).is_err() {
        return &run[..0];
    }
    stored_name(a, run, d)
}
