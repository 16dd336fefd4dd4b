// The shape test of an automaton: each stored number in its range. Any bytes of an automaton's size are tested.
#![tactic(auto, unfolding(text::specs::Names::max_name, notation::specs::Limits::max_set_bytes, notation::specs::Limits::max_number, notation::specs::Limits::max_paths, notation::specs::Limits::max_steps, notation::specs::Limits::max_labels, notation::specs::Layout::folders_at, notation::specs::Layout::folder_size, notation::specs::Layout::paths_at, notation::specs::Layout::path_size, notation::specs::Layout::labels_at, notation::specs::Layout::label_size, stored::specs::Automaton::automaton_size, stored::specs::Automaton::start_at))]

ghost use Rattle.std.specs.Prelude.{◌≡◌, true, false, ◌+◌, ◌≤◌, ◌<◌, length, MatchOption};
ghost use Rattle.notation.specs.Limits.{max_paths, max_labels};
ghost use Rattle.notation.specs.Reads.{folder_count, path_count, step_count, label_count};
ghost use Rattle.stored.specs.Automaton.{hashes, automaton_size};
ghost use Rattle.stored.specs.Shape.{all_below, counts_shaped, folder_shaped, path_shaped, step_shaped, label_shaped, head_shaped, later_place, chain_shaped, fail_shaped, link_shaped, set_shaped, automaton_shaped};

use crate::automaton::Automaton;
use crate::layout::{
    FAIL_IN, FAR_IN, FIRST_IN, HASHES, HEADS_AT, NEXT_IN, OTHER_IN, PARENT_IN, SIZE_IN, START_AT,
};
use notation::layout::{
    FOLDER_COUNT_AT, FOLDER_FIRST_IN, FOLDER_SIZE, FOLDERS_AT, LABEL_COUNT_AT, LABEL_LENGTH_IN,
    LABEL_SIZE, LABEL_STEP_IN, LABELS_AT, MAX_ALL_STEPS, PATH_BEGIN_IN, PATH_COUNT_AT,
    PATH_LENGTH_IN, PATH_SIZE, PATH_STEPS_IN, PATHS_AT, STEP_COUNT_AT, STEP_KINDS, TEXT_LEN_AT,
    WORD_SIZE,
};
use notation::limits::{MAX_LABELS, MAX_NUMBER, MAX_PATHS, MAX_SET_BYTES, MAX_STEPS};
use std::marker::Model;
use text::names::MAX_NAME;

// The tables of an automaton, with their counts, each read once and within its limit: every entry lies within the buffer.
#[derive(Drop)]
struct Tables<'a> {
    automaton: Automaton<'a>,
    text: usize,
    folders: usize,
    paths: usize,
    steps: usize,
    labels: usize,
}

impl<'a> Model for Tables<'a> {
    ghost use Rattle.std.specs.Prelude.{List, ℕ, ◌≡◌, true};
    ghost use Rattle.notation.specs.Reads.{text_len, folder_count, path_count, step_count, label_count};
    ghost use Rattle.stored.specs.Shape.{counts_shaped};

    ghost Value = { List ℕ };

    ghost view = { λ t. t.automaton };

    ghost invariant = { λ t. (t.text ≡ text_len t.automaton) × (t.folders ≡ folder_count t.automaton) × (t.paths ≡ path_count t.automaton) × (t.steps ≡ step_count t.automaton) × (t.labels ≡ label_count t.automaton) × (counts_shaped t.automaton ≡ true) };
}

impl<'a> Tables<'a> {
    fn of(automaton: Automaton<'a>) -> Option<Tables<'a>>
        ensures { MatchOption result (counts_shaped automaton.entry ≡ false) (λ tables. (tables ≡ automaton.entry) × (counts_shaped automaton.entry ≡ true)) }
    {
        let text = automaton.word(TEXT_LEN_AT);
        let folders = automaton.word(FOLDER_COUNT_AT);
        let paths = automaton.word(PATH_COUNT_AT);
        let steps = automaton.word(STEP_COUNT_AT);
        let labels = automaton.word(LABEL_COUNT_AT);
        if text <= MAX_SET_BYTES
            && folders <= MAX_PATHS
            && paths <= MAX_PATHS
            && steps <= MAX_ALL_STEPS
            && labels <= MAX_LABELS
            && automaton.word(START_AT) <= 1
        {
            Some(Tables {
                automaton,
                text,
                folders,
                paths,
                steps,
                labels,
            })
        } else {
            None
        }
    }

    fn folder_shaped(&self, i: usize) -> bool
        requires { i < max_paths }
        ensures { result ≡ folder_shaped self.now i }
    {
        let at = FOLDERS_AT + FOLDER_SIZE * i;
        (1..=MAX_NUMBER).contains(&self.automaton.word(at))
            && self.automaton.word(at + FOLDER_FIRST_IN) <= self.paths
    }

    fn path_shaped(&self, i: usize) -> bool
        requires { i < max_paths }
        ensures { result ≡ path_shaped self.now i }
    {
        let at = PATHS_AT + PATH_SIZE * i;
        let count = self.automaton.word(at + PATH_STEPS_IN);
        let end = self.automaton.word(at + PATH_BEGIN_IN)
            + self.automaton.word(at + PATH_LENGTH_IN);
        (1..=MAX_STEPS).contains(&count)
            && self.automaton.word(at) + count <= self.steps
            && end <= self.text
    }

    fn label_shaped(&self, i: usize) -> bool
        requires { i < max_labels }
        ensures { result ≡ label_shaped self.now i }
    {
        let at = LABELS_AT + LABEL_SIZE * i;
        let size = self.automaton.word(at + LABEL_LENGTH_IN);
        self.automaton.word(at) + size <= self.text
            && size <= MAX_NAME
            && self.automaton.word(at + LABEL_STEP_IN) < self.steps
    }

    // A place after label l: that of a later label, or none.
    fn later_place(&self, l: usize, k: usize) -> bool
        requires { l < max_labels }
        ensures { result ≡ later_place self.now l k }
    {
        k == 0 || (l + 1 < k && k <= self.labels)
    }

    fn chain_shaped(&self, l: usize) -> bool
        requires { l < max_labels }
        ensures { result ≡ chain_shaped self.now l }
    {
        self.later_place(l, self.automaton.link(l, NEXT_IN))
            && self.later_place(l, self.automaton.link(l, OTHER_IN))
            && self.later_place(l, self.automaton.link(l, FAR_IN))
            && self.automaton.link(l, FIRST_IN) <= self.labels
    }

    // A failure link leads to a state, and to a shorter word.
    fn fail_shaped(&self, l: usize) -> bool
        requires { l < max_labels }
        ensures { result ≡ fail_shaped self.now l }
    {
        let fail = self.automaton.link(l, FAIL_IN);
        fail <= self.labels + 1 && self.automaton.size_of(fail) < self.automaton.link(l, SIZE_IN)
    }

    fn link_shaped(&self, l: usize) -> bool
        requires { l < max_labels }
        ensures { result ≡ link_shaped self.now l }
    {
        self.chain_shaped(l)
            && self.automaton.link(l, PARENT_IN) <= self.labels + 1
            && self.automaton.link(l, SIZE_IN) <= MAX_STEPS + 1
            && self.fail_shaped(l)
    }

    // Without an exit many steps are tested at once: a bit above those of the kinds stays.
    fn steps_shaped(&self) -> bool
        ensures { result ≡ all_below (step_count self.now) (step_shaped self.now) }
    {
        let kinds = self.automaton.kinds(self.steps);
        let bits = kinds.iter().fold(0, |bits, kind| bits | kind);
        usize::from(bits) < STEP_KINDS
    }

    // Without an exit, too: the largest head is tested, kept in two bytes so that many fit a register.
    fn heads_shaped(&self) -> bool
        ensures { result ≡ all_below hashes (head_shaped self.now) }
    {
        let mut most = 0u16;
        for h in 0..HASHES {
            most = most.max(self.automaton.word(HEADS_AT + WORD_SIZE * h) as u16);
        }
        usize::from(most) <= self.labels
    }

    // The set's tables.
    fn set_shaped(&self) -> bool
        ensures { result ≡ set_shaped self.now }
    {
        (0..self.folders).all(|i| self.folder_shaped(i))
            && (0..self.paths).all(|i| self.path_shaped(i))
            && self.steps_shaped()
            && (0..self.labels).all(|i| self.label_shaped(i))
    }
}

// The shape test. It ends with the first table that fails.
#[tactic(auto, unfolding(stored::specs::Shape::automaton_shaped))]
pub fn automaton_shaped(a: &[u8]) -> bool
    requires { automaton_size ≤ length a.now }
    ensures { result ≡ automaton_shaped a.now }
{
    let Some(tables) = Tables::of(Automaton { bytes: a }) else {
        return false;
    };
    tables.set_shaped()
        && tables.heads_shaped()
        && (0..tables.labels).all(|l| tables.link_shaped(l))
}
