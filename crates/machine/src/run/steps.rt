// The bits of an open, a block of sixteen bytes at a time, eight steps a byte: the active steps, the steps seen, and the matches. A block is told by
// the offset of its first byte, with its bound in each contract: a type for it would be taken apart in each.
#![tactic(auto, unfolding(model::specs::Limits::max_depth, notation::specs::Limits::max_paths, notation::specs::Limits::max_steps, stored::specs::Automaton::mask_size, stored::specs::Automaton::automaton_size, stored::specs::Automaton::masks_at, stored::specs::Run::row_size, stored::specs::Run::run_size))]

ghost use Rattle.std.specs.Prelude.{◌≡◌, ◌&&◌, ◌||◌, suc, ◌+◌, ◌*◌, ◌≤◌, ◌<◌, eqb, length};
ghost use Rattle.std.proofs.lemmas.List.Edits.{sets};
ghost use Rattle.model.specs.Limits.{max_depth};
ghost use Rattle.stored.specs.Automaton.{mask_size, anywhere_mask, root_mask, bit_bytes};
ghost use Rattle.stored.specs.Bits.{bit_in};
ghost use Rattle.notation.specs.Limits.{max_paths, max_steps};
ghost use Rattle.notation.specs.Reads.{step_count};
ghost use Rattle.stored.specs.Run.{row_at, active_in, seen_in, matches_at};
ghost use Rattle.stored.specs.RunCalls.{mask_bit, shifted, used_bytes};
ghost use Rattle.stored.specs.Code.OpenSteps.{Block, taken_active, taken_seen, taken_matched, stored_bits};
ghost use Rattle.machine.specs.Masks.{mask_number};

use crate::automaton::Automaton;
use crate::layout::{MASK_SIZE, MASKS_AT, Mask};
use crate::run::layout::{ACTIVE_IN, MATCHES_AT, SEEN_IN};
use crate::run::rows;
use crate::run::rows::RunMut;
use notation::layout::STEP_COUNT_AT;
use std::simd::prelude::*;

// A block of the bits from `base` on, from byte `from` of them.
fn bits(bytes: &[u8], base: usize, from: usize) -> u8x16
    requires { base + from + 16 ≤ length bytes.now }
    ensures { Block (λ i. bit_in bytes.now base (8 * from + i)) result }
{
    u8x16::from_slice(&bytes[base + from..])
}

// The same, each bit one step on.
fn one_on(bytes: &[u8], base: usize, from: usize) -> u8x16
    requires { (0 < base) × (base + from + 16 ≤ length bytes.now) }
    ensures { Block (λ i. shifted (bit_in bytes.now base) (8 * from + i)) result }
{
    let mut before = u8x16::from_slice(&bytes[base + from - 1..]).to_array();
    if from == 0 {
        before[0] = 0;
    }
    bits(bytes, base, from) << 1 | u8x16::from_array(before) >> 7
}

impl<'a> Automaton<'a> {
    // A block of a mask.
    fn mask(&self, mask: Mask, from: usize) -> u8x16
        requires { from + 16 ≤ mask_size }
        ensures { Block (λ i. mask_bit self.now (mask_number mask) (8 * from + i)) result }
    {
        bits(self.bytes, MASKS_AT + MASK_SIZE * mask as usize, from)
    }

    // A block of the first steps that an element may take: those by `//`, and at depth 1 those by `/`.
    fn first(&self, d: usize, from: usize) -> u8x16
        requires { from + 16 ≤ mask_size }
        ensures { Block (λ i. mask_bit self.now anywhere_mask (8 * from + i) || (eqb d 0 && mask_bit self.now root_mask (8 * from + i))) result }
    {
        let anywhere = self.mask(Mask::Anywhere, from);
        if d == 0 {
            return anywhere | self.mask(Mask::Root, from);
        }
        anywhere
    }

    // A block of the bits in the row of depth d + 1, made of that of depth d and of the labels taken, and of the matches.
    fn store_block(&self, run: &mut RunMut, taken: &[u8; MASK_SIZE], d: usize, from: usize)
        requires { (d < max_depth) × (from + 16 ≤ mask_size) }
        ensures { run.new.bytes ≡ record run.old.bytes { now = sets (sets (sets run.old.bytes.now (row_at (suc d) + active_in + from) (bit_bytes (λ i. taken_active self.now run.old.bytes.now taken.now d (8 * from + i)) 16)) (row_at (suc d) + seen_in + from) (bit_bytes (λ i. taken_seen self.now run.old.bytes.now taken.now d (8 * from + i)) 16)) (matches_at + from) (bit_bytes (λ i. taken_matched self.now run.old.bytes.now taken.now d (8 * from + i)) 16) } }
    {
        let run = &mut *run.bytes;
        let around = rows::row_at(d);
        let child = self.mask(Mask::Child, from) & one_on(run, around + ACTIVE_IN, from);
        let descendant = self.mask(Mask::Descendant, from) & one_on(run, around + SEEN_IN, from);
        let permitted = child | (descendant | self.first(d, from));
        // `*`, and the labels taken.
        let candidates = self.mask(Mask::Star, from) | bits(taken, 0, from);
        let active = candidates & permitted;
        let seen = bits(run, around + SEEN_IN, from) | active;
        let ended = active & self.mask(Mask::Last, from);
        let matched = bits(run, MATCHES_AT, from) | ended;
        let at = rows::row_at(d + 1);
        active.copy_to_slice(&mut run[at + ACTIVE_IN + from..]);
        seen.copy_to_slice(&mut run[at + SEEN_IN + from..]);
        matched.copy_to_slice(&mut run[MATCHES_AT + from..]);
    }

    // The bits of all steps, block by block, stored into the new row and the matches.
    pub fn store_bits(&self, run: &mut RunMut, taken: &[u8; MASK_SIZE], d: usize)
        requires steps { step_count self.now ≤ max_paths * max_steps }
        requires room { d < max_depth }
        ensures { run.new.bytes ≡ record run.old.bytes { now = stored_bits run.old.bytes.now d (taken_active self.now run.old.bytes.now taken.now d) (taken_seen self.now run.old.bytes.now taken.now d) (taken_matched self.now run.old.bytes.now taken.now d) (used_bytes self.now) } }
    {
        let blocks = self.word(STEP_COUNT_AT).div_ceil(128);
        for i in 0..blocks {
            self.store_block(run, taken, d, 16 * i);
        }
    }
}
