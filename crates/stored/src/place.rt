// How far the pass over the steps is.

// The labels and the paths met, and the state of the word before the next step.
#[derive(Clone, Copy, Default)]
pub struct Place {
    pub labels: usize,
    pub paths: usize,
    pub state: usize,
}
