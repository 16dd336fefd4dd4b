// The masks: for each step in set order a bit in each of them. And the initial state.
#![tactic(auto, unfolding(stored::specs::Automaton::mask_size, stored::specs::Automaton::masks_at, stored::specs::Automaton::start_at, stored::specs::Code::Masks::rooted, stored::specs::Code::Masks::with_start, stored::specs::Code::Masks::flag_path))]

ghost use Rattle.std.specs.Prelude.{◌≡◌, true, ◌+◌, ◌*◌, ◌<◌};
ghost use Rattle.stored.specs.Automaton.{mask_size, bit};
ghost use Rattle.stored.specs.Code.Masks.{flagged, axis_mask, flag_role, flag_step, flag_steps, flag_path, with_masks, child_at, rooted, any_rooted, with_start};
ghost use Rattle.notation.specs.Reads.{step_at, path_count};
ghost use Rattle.machine.specs.Masks.{mask_number};

use crate::build::bytes::Bytes;
use crate::layout::{MASK_SIZE, MASKS_AT, Mask, START_AT};
use notation::reads::StoredStep;
use notation::{PathPlace, reads};
use text::store::put16;

const STEP_BITS: usize = 8 * MASK_SIZE;

// Bit i of a mask is set.
fn flag(part: &mut Bytes, mask: Mask, i: usize)
    requires { i < 8 * mask_size }
    ensures { part.new ≡ flagged true (mask_number mask) i part.old }
{
    let j = STEP_BITS * mask as usize + i;
    part[MASKS_AT + j / 8] |= 1 << (j % 8);
}

// The mask of a step's axis. That the step is its path's first, and its last, stay two facts: a step of a path of one is both, so that an enum
// would have four names, each made of the two and taken apart again.
fn axis_mask(first: bool, deep: bool) -> Mask
    ensures { mask_number result ≡ axis_mask first deep }
{
    match (first, deep) {
        (true, true) => Mask::Anywhere,
        (true, false) => Mask::Root,
        (false, true) => Mask::Descendant,
        (false, false) => Mask::Child,
    }
}

// A step in the masks.
fn flag_role(part: &mut Bytes, i: usize, step: StoredStep, first: bool, last: bool)
    requires { i < 8 * mask_size }
    ensures { part.new ≡ flag_role i step.descendant step.star first last part.old }
{
    if step.star {
        flag(part, Mask::Star, i);
    }
    flag(part, axis_mask(first, step.descendant), i);
    if last {
        flag(part, Mask::Last, i);
    }
}

fn flag_step(part: &mut Bytes, i: usize, first: bool, last: bool)
    ensures { part.new ≡ flag_step i first last part.old }
{
    if STEP_BITS <= i {
        return;
    }
    if let Some(step) = reads::step_at(part, i) {
        flag_role(part, i, step, first, last);
    }
}

// The steps of a path.
fn flag_steps(part: &mut Bytes, from: usize, steps: usize)
    requires { (from < 65536) × (steps < 65536) }
    ensures { part.new ≡ flag_steps steps from true part.old }
{
    for k in 0..steps {
        flag_step(part, from + k, k == 0, k + 1 == steps);
    }
}

fn flag_path(part: &mut Bytes, place: usize)
    ensures { part.new ≡ flag_path place part.old }
{
    if let Some(path) = reads::path_at(part, PathPlace(place)) {
        flag_steps(part, path.first, path.steps);
    }
}

// Every path's steps.
pub fn write_masks(part: &mut Bytes)
    ensures { part.new ≡ with_masks part.old }
{
    for place in 0..reads::paths(part) {
        flag_path(part, place);
    }
}

fn is_child(part: &[u8], i: usize) -> bool
    ensures { result ≡ child_at (step_at part.now i) }
{
    reads::step_at(part, i).is_some_and(|step| !step.descendant)
}

// The path of this place begins with `/`.
fn is_rooted(part: &[u8], place: usize) -> bool
    ensures { result ≡ rooted part.now place }
{
    reads::path_at(part, PathPlace(place)).is_some_and(|path| is_child(part, path.first))
}

fn start_state(part: &[u8]) -> usize
    ensures { result ≡ bit (any_rooted (path_count part.now) 0 part.now) }
{
    let rooted = (0..reads::paths(part)).any(|place| is_rooted(part, place));
    usize::from(rooted)
}

// The state of a fresh run.
pub fn write_start(part: &mut Bytes)
    ensures { part.new ≡ with_start part.old }
{
    let q = start_state(part);
    put16(part, START_AT, q);
}
