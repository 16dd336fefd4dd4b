// The lines of a sheet, each put together piece by piece.
#![tactic(auto, using(crate::proofs::Laws::Page::Aligned::lines), unfolding(crate::specs::Limits::number_width, crate::specs::Limits::path_width, crate::specs::Limits::line_width, crate::specs::Sheet::right_aligned))]

ghost use Rattle.std.specs.Prelude.{◌≡◌, ◌-◌, ◌≤◌, length};
ghost use Rattle.text.specs.Decimal.{decimal};
ghost use Rattle.text.specs.Output.{Adds};
ghost use Rattle.sheets.specs.Limits.{number_width, path_width, line_width};
ghost use Rattle.sheets.specs.Sheet.{row, spaces, right_aligned, left_aligned, head_line, number_shown, path_shown, body_line, ended};

use crate::limits::{LINE_WIDTH, PATH_CUT, PATH_WIDTH};
use text::output::{Sink, put_number};

fn put_spaces<S: Sink>(n: usize, to: &mut S)
    requires { n ≤ line_width }
    ensures { to.new ≡ S.puts to.old (spaces n) }
{
    let blank = [b' '; LINE_WIDTH];
    to.put(&blank[..n]);
}

// The spaces before a number in four places; none before a longer one.
fn indent(n: usize) -> usize
    ensures { result ≡ number_width - length (decimal n) }
{
    match n {
        0..=9 => 3,
        10..=99 => 2,
        100..=999 => 1,
        _ => 0,
    }
}

// A number right-aligned in four places.
fn put_right<S: Sink>(n: usize, to: &mut S)
    ensures { Adds S.puts to.old (right_aligned number_width (decimal n)) to.new }
{
    put_spaces(indent(n), to);
    put_number(to, n);
}

// A folder's number, four spaces for 0.
fn put_folder<S: Sink>(number: usize, to: &mut S)
    ensures { Adds S.puts to.old (right_aligned number_width (number_shown number)) to.new }
{
    if number == 0 {
        put_spaces(4, to);
    } else {
        put_right(number, to);
    }
}

// A path left-aligned, one that is too long cut.
fn put_path<S: Sink>(path: &[u8], to: &mut S)
    ensures { Adds S.puts to.old (left_aligned path_width (path_shown path.now)) to.new }
{
    let size = path.len();
    if size <= PATH_WIDTH {
        to.put(path);
        put_spaces(PATH_WIDTH - size, to);
    } else {
        to.put(&path[..PATH_CUT]);
        to.put(b"~");
    }
}

// The line of a row.
pub fn put_row<S: Sink>(number: usize, path: &[u8], to: &mut S)
    ensures { Adds S.puts to.old (ended (body_line (row number path.now))) to.new }
{
    put_folder(number, to);
    to.put(b"  ");
    put_path(path, to);
    to.put(b"\n");
}

// A body line without a row.
pub fn put_blank<S: Sink>(to: &mut S)
    ensures { Adds S.puts to.old (ended (spaces line_width)) to.new }
{
    put_spaces(LINE_WIDTH, to);
    to.put(b"\n");
}

// The head line of a page, which has this number.
pub fn put_head<S: Sink>(number: usize, to: &mut S)
    ensures { Adds S.puts to.old (ended (head_line number)) to.new }
{
    to.put(b"FILED");
    put_spaces(63, to);
    put_right(number, to);
    to.put(b"\n");
}
