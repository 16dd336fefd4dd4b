// The refusals of an open and of a close, each in its order. What inner functions know of bytes (`Ready` of an automaton and a run, the name form of
// a name) stands in their clauses: a type of it would be taken apart at once, as each uses another part.
#![tactic(auto, unfolding(text::specs::Order::given, text::specs::Order::first, model::specs::Limits::max_depth, model::specs::Limits::max_opens))]

ghost use Rattle.std.specs.Prelude.{◌≡◌, true, ◌≤◌};
ghost use Rattle.text.specs.Answers.{refusal_in};
ghost use Rattle.text.specs.Names.{name_form};
ghost use Rattle.text.specs.Order.{given};
ghost use Rattle.stored.specs.RunCalls.{depth_of, root_closed, name_conditions, open_others, close_others};
ghost use Rattle.stored.specs.Asking.{RowName};
ghost use Rattle.stored.specs.Usable.{Ready};

use crate::run::layout::{MAX_DEPTH, MAX_OPENS, NAME_IN};
use crate::run::rows;
use crate::run::rows::Run;
use stored::counters::Counters;
use text::names;
use text::refusals::Refusal;

// The name in the row of an open element, where it stands.
pub fn stored_name<'a, 'r>(a: &'a [u8], run: &'r [u8], d: usize) -> &'r [u8]
    requires { (Ready a.now run.now) × (d ≤ depth_of run.now) }
    ensures { RowName run.entry d result }
{
    let from = rows::row_at(d) + NAME_IN;
    let to = from + rows::name_length(run, d);
    &run[from..to]
}

// `NameTooLong`, which is next of a name of name form.
fn length_refusal(e: &[u8]) -> Result<(), Refusal>
    requires { name_form e.now ≡ true }
    ensures { refusal_in result ≡ given (name_conditions e.now) }
{
    if names::too_long(e) {
        return Err(Refusal::NameTooLong);
    }
    Ok(())
}

// The root is closed.
fn root_closed(run: &Run, c: Counters) -> bool
    ensures { result ≡ root_closed run.now c }
{
    c.opens != 0 && run.depth() == 0
}

// An open's others, of a name of name form: the name's length, the root, the depth, the count of opens.
pub fn open_others(run: &Run, c: Counters, e: &[u8]) -> Result<(), Refusal>
    requires { name_form e.now ≡ true }
    ensures { refusal_in result ≡ given (open_others run.now c e.now) }
{
    length_refusal(e)?;
    if root_closed(run, c) {
        return Err(Refusal::NotOneRoot);
    }
    if MAX_DEPTH <= run.depth() {
        return Err(Refusal::TooDeep);
    }
    if MAX_OPENS <= c.opens {
        return Err(Refusal::OverCapacity);
    }
    Ok(())
}

// A close's others, of a name of name form: the name's length, that an element is open, its name.
#[tactic(auto, using(text::proofs::Laws::Bytes::SameName::same_name_equal), unfolding(text::specs::Order::given, text::specs::Order::first))]
pub fn close_others(a: &[u8], run: &[u8], e: &[u8]) -> Result<(), Refusal>
    requires { (Ready a.now run.now) × (name_form e.now ≡ true) }
    ensures { refusal_in result ≡ given (close_others run.now e.now) }
{
    length_refusal(e)?;
    let d = Run { bytes: run }.depth();
    if d == 0 {
        return Err(Refusal::NotOneRoot);
    }
    if stored_name(a, run, d) != e {
        return Err(Refusal::MismatchedClose);
    }
    Ok(())
}
