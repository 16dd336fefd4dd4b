// What reading a set's text counts.
ghost use Rattle.std.specs.Prelude.{◌≡◌, ◌≤◌, ◌+◌};
ghost use Rattle.notation.specs.Code.Taking.{moved_tally, found_counted, path_first, path_counted, number_counted, tally_refusal, answered};

use crate::limits::{MAX_LABELS, MAX_PATHS, MAX_STEPS};
use crate::steps::StepFound;
use text::names::MAX_NAME;
use text::refusals::Refusal;

// What has been counted so far; at first nothing.
#[derive(Clone, Copy, Default)]
pub struct Tally {
    // Bytes read.
    pub at: usize,
    // The number of the folder before.
    pub last: usize,
    // The steps before the path being read.
    pub first: usize,
    pub folders: usize,
    pub paths: usize,
    pub steps: usize,
    pub labels: usize,
    // The first fault met, of those that stand at one place of the text.
    pub fault: Option<Refusal>,
}

// No count is above the number of bytes read: `Reading` knows it, and each method asks for it of the counts it raises. As a ghost field here it
// would ask for more: that the bytes of what is counted are read, and that the text, which a tally does not have, is not too long for them.
impl Tally {
    // So many bytes on.
    pub fn moved(self, n: usize) -> Tally
        requires { self.at + n ≤ 65536 }
        ensures { result ≡ moved_tally n self }
    {
        Tally {
            at: self.at + n,
            ..self
        }
    }

    // A step, and its label.
    #[tactic(auto, unfolding(text::specs::Names::max_name, crate::specs::Limits::max_steps))]
    pub fn with_step(self, found: StepFound) -> Tally
        requires { (self.steps ≤ 65536) × (self.labels ≤ 65536) }
        ensures { result ≡ found_counted found self }
    {
        let long = !found.step.star && MAX_NAME < found.size();
        let many = MAX_STEPS <= self.steps.saturating_sub(self.first);
        let fault = long.then_some(Refusal::NameTooLong);
        Tally {
            fault: self
                .fault
                .or(fault.or(many.then_some(Refusal::PathTooLong))),
            at: found.end,
            steps: self.steps + 1,
            labels: self.labels + usize::from(!found.step.star),
            ..self
        }
    }

    // A path begins.
    pub fn path_first(self) -> Tally
        ensures { result ≡ path_first self }
    {
        Tally {
            first: self.steps,
            ..self
        }
    }

    // A path has ended.
    pub fn with_path(self) -> Tally
        requires { self.paths ≤ 65536 }
        ensures { result ≡ path_counted self }
    {
        Tally {
            paths: self.paths + 1,
            ..self
        }
    }

    // A folder's number, which ends there.
    pub fn with_number(self, number: usize, end: usize) -> Tally
        requires { self.folders ≤ 65536 }
        ensures { result ≡ number_counted number end self }
    {
        let falls = number <= self.last;
        Tally {
            fault: self.fault.or(falls.then_some(Refusal::OutOfOrder)),
            at: end,
            last: number,
            folders: self.folders + 1,
            ..self
        }
    }

    // The first fault met, or that the tables have no room for all.
    #[tactic(auto, unfolding(crate::specs::Limits::max_paths, crate::specs::Limits::max_labels))]
    pub fn verdict(self) -> Result<(), Refusal>
        ensures { result ≡ answered (tally_refusal self) }
    {
        if let Some(fault) = self.fault {
            return Err(fault);
        }
        if MAX_PATHS < self.paths || MAX_LABELS < self.labels {
            return Err(Refusal::OverCapacity);
        }
        Ok(())
    }
}
