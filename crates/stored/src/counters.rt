// The counters of a run, the caller's small record.
ghost use Rattle.std.specs.Prelude.{◌≡◌, ◌*◌, ◌≤◌};
ghost use Rattle.model.specs.Limits.{max_depth, max_opens};
ghost use Rattle.stored.specs.RunCalls.{no_counters, after_open, close_counters};

#[derive(Clone, Copy)]
pub struct Counters {
    pub opens: usize,
    pub closes: usize,
    pub moves: usize,
}

impl Counters {
    // Those of a fresh run.
    pub fn none() -> Counters
        ensures { result ≡ no_counters }
    {
        Counters {
            opens: 0,
            closes: 0,
            moves: 0,
        }
    }

    // Counts an open of so many failure moves.
    #[tactic(auto, unfolding(model::specs::Limits::max_depth, model::specs::Limits::max_opens))]
    pub fn count_open(&mut self, moves: usize)
        requires { (self.old.opens ≤ max_opens) × ((self.old.moves ≤ max_depth * max_opens) × (moves ≤ max_depth)) }
        ensures { self.new ≡ after_open self.old moves }
    {
        self.opens += 1;
        self.moves += moves;
    }

    // Counts a close.
    #[tactic(auto, unfolding(model::specs::Limits::max_opens))]
    pub fn count_close(&mut self)
        requires { self.old.closes ≤ max_opens }
        ensures { self.new ≡ close_counters self.old }
    {
        self.closes += 1;
    }
}
