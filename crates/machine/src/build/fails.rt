// The failure links, by increasing word length.
#![tactic(auto, unfolding(notation::specs::Limits::max_labels, notation::specs::Limits::max_steps))]

ghost use Rattle.std.specs.Prelude.{◌≡◌, suc, ◌<◌};
ghost use Rattle.notation.specs.Limits.{max_steps};
ghost use Rattle.notation.specs.Reads.{label_count};
ghost use Rattle.stored.specs.Code.Fails.{fail_to, failed_if, failed_below, failed_to, Growing};

use crate::automaton::Automaton;
use crate::build::bytes::{Bytes, put_link};
use crate::layout::{FAIL_IN, PARENT_IN, SIZE_IN};
use notation::limits::MAX_STEPS;
use notation::reads::{label_name, labels};

// The state of the failure link of label `l`: the open's walk from its parent's.
fn fail_to(a: &Bytes, l: usize) -> usize
    requires { Growing a.now × (l < label_count a.now) }
    ensures { result ≡ fail_to a.now l }
{
    let automaton = Automaton { bytes: a };
    let parent = automaton.link(l, PARENT_IN);
    if parent == 0 {
        return 0;
    }
    let first = automaton.first_label(label_name(a, l));
    automaton.walk_from(automaton.fail_of(parent), first).state
}

// The failure link of label `l`, if its word has `n` symbols.
fn fail_label(a: &mut Bytes, n: usize, l: usize)
    requires { Growing a.old × (l < label_count a.old) }
    ensures { a.new ≡ failed_if n l a.old }
{
    let automaton = Automaton { bytes: a };
    if automaton.link(l, SIZE_IN) == n {
        let q = fail_to(a, l);
        put_link(a, l, FAIL_IN, q);
    }
}

// The failure links of the words of `n` symbols.
fn fail_labels(a: &mut Bytes, n: usize)
    requires { Growing a.old }
    ensures { a.new ≡ failed_below n (label_count a.old) a.old }
{
    for l in 0..labels(a) {
        fail_label(a, n, l);
    }
}

// Every failure link.
pub fn fails(a: &mut Bytes)
    requires { Growing a.old }
    ensures { a.new ≡ failed_to (label_count a.old) (suc max_steps) a.old }
{
    for n in 1..=MAX_STEPS + 1 {
        fail_labels(a, n);
    }
}
