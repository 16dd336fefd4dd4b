// Answers and counters as numbers, some behind a pointer: the C interface needs them so. No `From` of the counters: neither type is of this crate,
// and crate stored, whose counters they are, knows of no caller in C.
ghost use Rattle.std.specs.Prelude.{◌≡◌};
ghost use Rattle.text.specs.Answers.{says, refusal_in};
ghost use Rattle.exports.specs.Told.{counters_in, Told, MatchTold};

use stored::counters::Counters;
use text::refusals::Refusal;

pub fn counters_in(c: &[usize; 3]) -> Counters
    ensures { result ≡ counters_in c.now }
{
    let [opens, closes, moves] = *c;
    Counters {
        opens,
        closes,
        moves,
    }
}

pub fn put_counters(c: Counters, to: &mut [usize; 3])
    ensures { counters_in to.new ≡ c }
{
    *to = [c.opens, c.closes, c.moves];
}

// The number of the refusal, 0 for none.
pub fn number(answer: Result<(), Refusal>) -> u8
    ensures { result ≡ refusal_in answer }
{
    answer.map_or_else(Refusal::number, |()| 0)
}

// The same; a value goes behind the pointer.
pub fn tell<T: Drop>(answer: Result<T, Refusal>, place: &mut T) -> u8
    ensures { Told (says answer) place.old result place.new }
{
    match answer {
        Ok(value) => {
            *place = value;
            0
        }
        Err(refusal) => refusal.number(),
    }
}

// 1 for yes and 0 for no.
pub fn tell_match(answer: Result<bool, Refusal>, matched: &mut u8) -> u8
    ensures { MatchTold (says answer) matched.old result matched.new }
{
    tell(answer.map(u8::from), matched)
}
