// One step at an offset of a set's text.
ghost use Rattle.std.specs.Prelude.{◌≡◌, ◌-◌, drop};
ghost use Rattle.notation.specs.Code.Reader.{read_test, read_step};
ghost use Rattle.notation.specs.Code.Taking.{test_found, step_found};

use crate::reads::StoredStep;
use text::names::{begins_name, name_end};

#[derive(Clone, Copy)]
pub struct StepFound {
    pub step: StoredStep,
    // Where its label or `*` begins, and where that ends.
    pub from: usize,
    pub end: usize,
}

impl StepFound {
    // Bytes of its label or `*`.
    pub fn size(self) -> usize
        ensures { result ≡ self.end - self.from }
    {
        self.end.saturating_sub(self.from)
    }
}

// A label or `*`, after the slashes of a step.
#[tactic(auto, using(crate::proofs::Laws::Taking::Found::tests))]
fn test_at(text: &[u8], from: usize, descendant: bool) -> Option<StepFound>
    ensures { result ≡ test_found from descendant (read_test (drop from text.now)) }
{
    let first = *text.get(from)?;
    if first == b'*' {
        return Some(StepFound {
            step: StoredStep {
                descendant,
                star: true,
            },
            from,
            end: from + 1,
        });
    }
    if !begins_name(first) {
        return None;
    }
    Some(StepFound {
        step: StoredStep {
            descendant,
            star: false,
        },
        from,
        end: name_end(text, from + 1),
    })
}

#[tactic(auto, using(text::proofs::Laws::Words::tail_word, crate::proofs::Laws::Taking::Found::steps))]
pub fn step_at(text: &[u8], at: usize) -> Option<StepFound>
    ensures { result ≡ step_found at (read_step (drop at text.now)) }
{
    let ahead = text.get(at..)?;
    if ahead.starts_with(b"//") {
        return test_at(text, at + 2, true);
    }
    if ahead.starts_with(b"/") {
        return test_at(text, at + 1, false);
    }
    None
}
