// A run with its automaton and its counters, which pass the shape test: the calls of a report go on with it from token to token.
ghost use Rattle.std.specs.Prelude.{◌≡◌};
ghost use Rattle.stored.specs.Usable.{Usable};
ghost use Rattle.stored.specs.RunCalls.{depth_of};

use crate::run::rows::Run;
use stored::counters::Counters;

#[derive(Drop)]
pub struct Session<'a> {
    pub a: &'a [u8],
    pub run: &'a mut [u8],
    pub counters: &'a mut Counters,
    pub ghost usable: { Usable a.now run.now counters.now },
}

impl<'a> Session<'a> {
    // The count of open elements.
    pub fn depth(&self) -> usize
        ensures { result ≡ depth_of self.now.run.now }
    {
        Run { bytes: self.run }.depth()
    }
}
