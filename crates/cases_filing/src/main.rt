// Prints, for each case, its set, its report and what filing it prints; a byte that does not print stands as `?`, and a long report as its name.
#![tactic(auto)]

mod bench;
mod made;
mod texts;

use bench::{file, judge, left, long, short, strange};
use made::{alike, attributes, nested, sized};
use std::io;
use texts::{CROSSED, DEEP, DIFFERENT, FILED, JUDGED, MANY, NESTED_REPEATS, REPEATS};

// A write that fails ends the printing alone: it is no error of the program.
fn main(rt: HostRuntime) {
    let _ = print_cases(&rt);
}

fn print_cases(rt: &impl Print) -> io::Result<()> {
    for (set, report) in FILED {
        file(rt, report, set, report)?;
    }
    for report in JUDGED {
        judge(rt, report)?;
    }
    for (name, count, middle, closes) in CROSSED {
        nested(rt, name, count, middle, closes)?;
    }
    for report in REPEATS {
        judge(rt, report)?;
    }
    for (name, count, middle, closes) in NESTED_REPEATS {
        nested(rt, name, count, middle, closes)?;
    }
    for report in DIFFERENT {
        judge(rt, report)?;
    }
    for (name, count, last) in MANY {
        attributes(rt, name, count, last)?;
    }
    alike(rt, "13106 attributes of one name", 13106)?;
    for (name, count) in DEEP {
        nested(rt, name, count, "", count)?;
    }
    sized(rt, "65536 bytes", 65529)?;
    sized(rt, "65537 bytes", 65530)?;
    print_lent(rt)
}

// On a run that held another report, or buffers that are not as they should be.
fn print_lent(rt: &impl Print) -> io::Result<()> {
    left(rt, b"<a/>x")?;
    left(rt, b"<a><a/></b>")?;
    left(rt, b"<a><a/></a>")?;
    short(rt, b"<a")?;
    strange(rt, b"<a")?;
    let repeated = b"<a b='' b=''/>";
    left(rt, repeated)?;
    short(rt, repeated)?;
    strange(rt, repeated)?;
    long(rt, b"<a><b/></a>")
}
