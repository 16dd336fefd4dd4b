// What a program prints.
ghost use Rattle.std.specs.Prelude.{◌≡◌, take};
ghost use Rattle.std.specs.Result.{result_unwrap_or};

use crate::files::read_both;
use machine::layout::AUTOMATON_SIZE;
use machine::run::layout::RUN_SIZE;
use notation::limits::MAX_SET_BYTES;
use reports::limits::MAX_REPORT;
use std::convert::AsSlice;
use std::io;
use std::rt::Files;
use text::refusals::Refusal;

// What was written at the start of a buffer. In buffers of their sizes nothing is refused.
pub fn written(answer: Result<usize, Refusal>, buffer: &[u8]) -> &[u8]
    ensures { result.now ≡ take (result_unwrap_or answer 0) buffer.now }
{
    let size = answer.unwrap_or(0).min(buffer.len());
    &buffer[..size]
}

// Writes to standard output.
pub fn print(rt: &impl Print, text: &[u8]) -> io::Result<()> {
    rt.write_all(text)
}

// Reads the two files, one byte more than each limit, so that a longer file is refused and never cut, and prints what `make` writes of them into
// `out`. Where a file cannot be read nothing is printed. No clause can speak of what files hold and standard output takes; of what is printed the
// clauses of `make` do.
pub fn print_page<
    O: AsSlice<u8>,
    F: FnOnce(
        &[u8],
        &[u8],
        &mut [u8; AUTOMATON_SIZE],
        &mut [u8; RUN_SIZE],
        &mut O,
    ) -> Result<usize, Refusal>,
>(rt: &(impl Files + Eprint + Print), out: &mut O, make: F) -> io::Result<()>
    requires { F.IsAlwaysCallable make }
{
    let mut set = [0; MAX_SET_BYTES + 1];
    let mut report = [0; MAX_REPORT + 1];
    let Some(inputs) = read_both(rt, &mut set, &mut report) else {
        return Ok(());
    };
    let mut automaton = [0; AUTOMATON_SIZE];
    let mut run = [0; RUN_SIZE];
    let answer = make(
        &set[..inputs.set],
        &report[..inputs.report],
        &mut automaton,
        &mut run,
        out,
    );
    print(rt, written(answer, out.as_slice()))
}
