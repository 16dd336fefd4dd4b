// Filing a report: its tokens in order, each given to the machine as what it is in the tree.
ghost use Rattle.std.specs.Prelude.{◌≡◌, true, [], ◌≤◌, length, take, drop, ◌-◌};
ghost use Rattle.text.specs.Answers.{refusal_in};
ghost use Rattle.text.specs.Names.{name_form};
ghost use Rattle.stored.specs.Demand3.{Left};
ghost use Rattle.documents.specs.Reading.{read_report};
ghost use Rattle.documents.specs.Limits.{max_report_bytes};
ghost use Rattle.filing.specs.Filing.{Outcome, filed, and_then};
ghost use Rattle.filing.specs.ReportRefusals.{stored_machine, Files};
ghost use Rattle.filing.specs.Code.Taking.{Answered, Takes, left_in, NamedIn, name_bytes, late_declaration, repeats, file_open, file_found, step_found, file_last, run_from};

use machine::run::session::Session;
use machine::run::start::start;
use reports::limits::MAX_REPORT;
use reports::tokens::{Kind, Span, all_listed, token_at};
use stored::counters::Counters;
use text::refusals::Refusal;

// The bytes of a tag's name.
fn name_at(s: &[u8], name: Span) -> &[u8]
    requires { (name.from ≤ name.to) × (name.to ≤ length s.now) }
    ensures { result.now ≡ take (name.to - name.from) (drop name.from s.now) }
{
    &s[name.from..name.to]
}

// A declaration stands at offset 0 only.
fn is_late(kind: Kind, at: usize) -> bool
    ensures { result ≡ late_declaration at kind }
{
    at != 0 && matches!(kind, Kind::Declaration)
}

// A tag repeats an attribute's name.
fn repeats(kind: Kind) -> bool
    ensures { result ≡ repeats kind }
{
    matches!(
        kind,
        Kind::Start { twice: true, .. } | Kind::Empty { twice: true, .. }
    )
}

// An open without its failure moves. It is a call, since an answer in memory would be cleared at every token.
#[inline(never)]
fn open_tag(session: &mut Session, name: &[u8]) -> Result<(), Refusal>
    requires { name_form name.now ≡ true }
    ensures { Takes session.old (file_open session.old.a.now (left_in session.old) name.now) (refusal_in result) session.new }
{
    session.open(name)?;
    Ok(())
}

// A token. Text outside the root is blank.
fn take(session: &mut Session, s: &[u8], kind: Kind) -> Result<(), Refusal>
    requires { NamedIn s.now kind }
    ensures { Takes session.old (file_found session.old.a.now (left_in session.old) kind (name_bytes s.now kind)) (refusal_in result) session.new }
{
    match kind {
        Kind::Start { name, .. } => open_tag(session, name_at(s, name)),
        Kind::End { name } => session.close(name_at(s, name)),
        Kind::Empty { name, .. } => {
            let e = name_at(s, name);
            open_tag(session, e)?;
            session.close(e)
        }
        Kind::Text => {
            if session.depth() == 0 {
                return Err(Refusal::NotOneRoot);
            }
            Ok(())
        }
        Kind::Blank | Kind::Comment | Kind::Declaration => Ok(()),
    }
}

// The same after earlier tokens. A tag that repeats an attribute's name is refused, whatever an earlier token was refused with; else nothing more
// is taken once a token was refused.
fn take_next(
    session: &mut Session,
    taken: Result<(), Refusal>,
    s: &[u8],
    kind: Kind,
) -> Result<(), Refusal>
    requires { NamedIn s.now kind }
    ensures { (o : Outcome Left) → Answered o (refusal_in taken) session.old.run.now session.old.counters.now → Takes session.old (step_found session.old.a.now o kind (name_bytes s.now kind)) (refusal_in result) session.new }
{
    if repeats(kind) {
        return Err(Refusal::RepeatedAttribute);
    }
    taken?;
    take(session, s, kind)
}

// The tokens in order. The first refusal of a token is kept, and the rest is only read, for `SyntaxError` and `RepeatedAttribute`, which come
// before it; nothing comes before `SyntaxError`. The loop is that of `reports::tokens::is_run`: a type of the tokens with its own `Iterator` is longer.
fn take_tokens(session: &mut Session, s: &[u8]) -> Result<(), Refusal>
    requires { length s.now ≤ max_report_bytes }
    ensures { Takes session.old (run_from session.old.a.now (filed (left_in session.old)) (read_report s.now)) (refusal_in result) session.new }
{
    let mut taken = Ok(());
    let mut at = 0;
    while at < s.len() {
        let found = token_at(s, at).ok_or(Refusal::SyntaxError)?;
        let kind = found.kind;
        if is_late(kind, at) {
            return Err(Refusal::SyntaxError);
        }
        taken = take_next(session, taken, s, kind);
        at = found.end;
    }
    taken
}

// The tokens and the report's end: there was a root, and nothing is open.
fn take_report(session: &mut Session, s: &[u8]) -> Result<(), Refusal>
    requires { length s.now ≤ max_report_bytes }
    ensures { Takes session.old (and_then (run_from session.old.a.now (filed (left_in session.old)) (read_report s.now)) file_last) (refusal_in result) session.new }
{
    take_tokens(session, s)?;
    if session.counters.opens == 0 || session.depth() > 0 {
        return Err(Refusal::NotOneRoot);
    }
    Ok(())
}

// Files a report. `ShortBuffer` and `BadShape`, which are of what is lent, leave all as it was; any other refusal leaves a fresh run. `TooLarge` and
// `InvalidByte` come before the tokens, when the run is fresh still.
pub fn file_report(
    a: &[u8],
    run: &mut [u8],
    counters: &mut Counters,
    report: &[u8],
) -> Result<(), Refusal>
    ensures { Files a.now run.old counters.old report.now (refusal_in result) run.new counters.new }
{
    start(a, run, counters)?;
    if report.len() > MAX_REPORT {
        return Err(Refusal::TooLarge);
    }
    if !all_listed(report) {
        return Err(Refusal::InvalidByte);
    }
    let mut session = Session { a, run, counters };
    let filed = take_report(&mut session, report);
    if filed.is_err() {
        session.restart();
    }
    filed
}
