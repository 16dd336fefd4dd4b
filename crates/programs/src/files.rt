// Reading whole files into buffers: one, and the two that a program files by.
ghost use Rattle.std.specs.Prelude.{◌≡◌, ◌≤◌, ◌<◌, ◌↔◌, length, take, None, Some, IfOk, IfSome};
ghost use Rattle.std.specs.IoError.{error_kind};
ghost use Rattle.std.specs.Io.KnownBytes.{Consumes, IsAtEnd};

use std::fs::File;
use std::io;
use std::io::{Error, ErrorKind};
use std::rt::Files;

// How much was read of a set's file and of a report's.
#[derive(Clone, Copy, Debug, PartialEq, Eq)]
pub struct Inputs {
    pub set: usize,
    pub report: usize,
}

// Reads until the reader ends or the buffer is full; the count of bytes. A read that fails is never taken for the end. A loop of its own, since
// what std's `take(..).read_to_end(..)` leaves of the reader no clause of std says.
fn read_all<R: io::Read>(from: &mut R, buf: &mut [u8]) -> io::Result<usize>
    ensures within { IfOk result (λ n. n ≤ length buf.new) }
    ensures bytes { IfOk result (λ n. Consumes (R.remaining from.old) (R.remaining from.new) (take n buf.new)) }
    ensures whole { IfOk result (λ n. n < length buf.new → IsAtEnd (R.remaining from.new)) }
{
    let mut n = 0;
    while n < buf.len() {
        let more = from.read(&mut buf[n..])?;
        if more == 0 {
            return Ok(n);
        }
        n += more;
    }
    Ok(n)
}

// What failed is told on standard error.
fn failed(rt: &impl Eprint, name: &str, why: Error) -> Option<usize>
    ensures { result ≡ None }
{
    let _ = eprintln!(rt; "{name}: {why}");
    None
}

// A missing file reads as an empty one.
fn unopened(rt: &impl Eprint, name: &str, why: Error) -> Option<usize>
    ensures empty { IfSome result (λ n. n ≡ 0) }
    ensures missing { result ≡ Some 0 ↔ error_kind why ≡ ErrorKind.NotFound }
{
    if why.kind() == ErrorKind::NotFound {
        return Some(0);
    }
    failed(rt, name, why)
}

// Reads what is open. A read that fails, for whatever reason, is no missing file.
fn read_opened<R: io::Read>(
    rt: &impl Eprint,
    from: &mut R,
    name: &str,
    buf: &mut [u8],
) -> Option<usize>
    ensures within { IfSome result (λ n. n ≤ length buf.new) }
    ensures bytes { IfSome result (λ n. Consumes (R.remaining from.old) (R.remaining from.new) (take n buf.new)) }
    ensures whole { IfSome result (λ n. n < length buf.new → IsAtEnd (R.remaining from.new)) }
{
    match read_all(from, buf) {
        Ok(n) => Some(n),
        Err(why) => failed(rt, name, why),
    }
}

// Reads the named file to the start of a buffer, all that it has or as much as there is room for; what fails is told on standard error.
pub fn read_file(rt: &(impl Files + Eprint), name: &str, buf: &mut [u8]) -> Option<usize>
    ensures { IfSome result (λ n. n ≤ length buf.new) }
{
    match File::open(rt, name) {
        Ok(mut file) => read_opened(rt, &mut file, name, buf),
        Err(why) => unopened(rt, name, why),
    }
}

// Reads the set `folders.txt` and then the report `report.xml`, both of the current folder. Where the first cannot be read nothing more is.
pub fn read_both(rt: &(impl Files + Eprint), set: &mut [u8], report: &mut [u8]) -> Option<Inputs>
    ensures set { IfSome result (λ inputs. inputs.set ≤ length set.new) }
    ensures report { IfSome result (λ inputs. inputs.report ≤ length report.new) }
{
    let m = read_file(rt, "folders.txt", set)?;
    let n = read_file(rt, "report.xml", report)?;
    Some(Inputs { set: m, report: n })
}
