// Reading a set's text, level by level: what is read is counted, and its entries are written.
ghost use Rattle.std.specs.Prelude.{◌≡◌, ◌≤◌, length};
ghost use Rattle.notation.specs.Code.Taking.{found_written, Small, TookSet};

use crate::entries::{put_folder, put_label, put_path, put_step};
use crate::limits::MAX_NUMBER;
use crate::reads::{StoredLabel, StoredPath};
use crate::steps::{StepFound, step_at};
use crate::tally::Tally;
use text::numbers::number_at;
use text::words::word_at;

// The entry of a step, and of its label.
fn put_found(part: &mut [u8], t: Tally, found: StepFound)
    requires { (t.steps ≤ 65536) × (t.labels ≤ 65536) }
    ensures { part.new ≡ found_written found t part.old }
{
    put_step(part, t.steps, found.step);
    if !found.step.star {
        let label = StoredLabel {
            at: found.from,
            size: found.size(),
            step: t.steps,
        };
        put_label(part, t.labels, label);
    }
}

// The text, how far it is read, and the buffer for the entries. No count is above the number of bytes read, so that sums fit.
#[derive(Drop)]
struct Reading<'a> {
    text: &'a [u8],
    part: &'a mut [u8],
    tally: Tally,
    ghost small: { Small text.now tally },
}

impl<'a> Reading<'a> {
    ghost use Rattle.text.specs.Read.{starts_with, read_word, read_number};
    ghost use Rattle.notation.specs.Limits.{max_number};
    ghost use Rattle.notation.specs.Code.Reader.{read_step, read_path, read_line, read_folder, read_set};
    ghost use Rattle.notation.specs.Code.Taking.{moved, take_step, take_path, take_line, number_taken, take_folder, take_set};
    ghost use Rattle.notation.specs.Code.Readings.{ahead, Takes, Moves, At, Ran};

    // The word stands next.
    fn begins(&self, word: &[u8]) -> bool
        ensures { result ≡ starts_with word.now (ahead self.now) }
    {
        word_at(self.text, self.tally.at, word)
    }

    #[tactic(auto, using(crate::proofs::Laws::Taking::Ahead::words), unfolding(crate::specs::Code::Taking::moved))]
    fn word(&mut self, word: &[u8]) -> Option<()>
        ensures { Takes (read_word word.now) (λ _. moved (length word.now)) self.old result self.new }
    {
        if !self.begins(word) {
            return None;
        }
        self.tally = self.tally.moved(word.len());
        Some(())
    }

    // As many items as there are, where each begins with this word. A `while`: of an iterator, `from_fn(|| self.begins(word).then(|| item(self)))`,
    // the borrow checker says that it does not cover it yet, since `item` needs a shorter lifetime there than its bound names.
    fn all<F: Fn(&mut Reading<'a>) -> Option<()>>(&mut self, word: &[u8], item: F) -> Option<()>
        requires callable { F.IsAlwaysCallable item }
        requires moves { (p : _) (x : _) (q : _) → F.post item p x q → Moves p.now x q.now }
        ensures { Ran word.now (At (F.post item)) self.old result self.new }
    {
        while self.begins(word) {
            item(self)?;
        }
        Some(())
    }

    fn step(&mut self) -> Option<()>
        ensures { Takes read_step take_step self.old result self.new }
    {
        let t = self.tally;
        let found = step_at(self.text, t.at)?;
        put_found(self.part, t, found);
        self.tally = t.with_step(found);
        Some(())
    }

    // A path, after a space and in its brackets.
    fn path(&mut self) -> Option<()>
        ensures { Takes read_path take_path self.old result self.new }
    {
        self.word(b" (")?;
        let begun = self.tally;
        self.tally = begun.path_first();
        self.all(b"/", Reading::step)?;
        let ended = self.tally;
        if ended.steps == begun.steps {
            return None;
        }
        let path = StoredPath {
            first: begun.steps,
            steps: ended.steps - begun.steps,
            at: begun.at,
            size: ended.at - begun.at,
        };
        put_path(self.part, ended.paths, path);
        self.word(b")")?;
        self.tally = self.tally.with_path();
        Some(())
    }

    // The paths of a line, and its end.
    fn line(&mut self) -> Option<()>
        ensures { Takes read_line take_line self.old result self.new }
    {
        let before = self.tally.paths;
        self.all(b" ", Reading::path)?;
        if self.tally.paths == before {
            return None;
        }
        self.word(b")\n")
    }

    #[tactic(auto, using(crate::proofs::Laws::Taking::Folders::numbers), unfolding(crate::specs::Limits::max_number))]
    fn number(&mut self) -> Option<()>
        ensures { Takes (read_number max_number) number_taken self.old result self.new }
    {
        let t = self.tally;
        let found = number_at(self.text, t.at, MAX_NUMBER)?;
        put_folder(self.part, t.folders, found.value, t.paths);
        self.tally = t.with_number(found.value, found.end);
        Some(())
    }

    // A folder's line.
    fn folder(&mut self) -> Option<()>
        ensures { Takes read_folder take_folder self.old result self.new }
    {
        self.word(b"(folder ")?;
        self.number()?;
        self.line()
    }

    // The whole text.
    fn set(&mut self) -> Option<()>
        ensures { Takes read_set take_set self.old result self.new }
    {
        self.word(b"(folders\n")?;
        self.all(b"(", Reading::folder)?;
        self.word(b")\n")?;
        (self.tally.at == self.text.len()).then_some(())
    }
}

// The whole text, from its first byte on; what it comes to is counted.
#[tactic(auto, using(crate::proofs::Laws::Taking::Folders::set_taken))]
pub fn take_set(text: &[u8], part: &mut [u8]) -> Option<Tally>
    requires { length text.now ≤ 65536 }
    ensures { TookSet text.now part.old result part.new }
{
    let mut reading = Reading {
        text,
        part,
        tally: Tally::default(),
    };
    reading.set()?;
    Some(reading.tally)
}
