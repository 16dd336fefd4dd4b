// What the reading calls say of a stored set.
use cases::answers::{YesNo, print_line};
use notation::layout::SET_SIZE;
use notation::reads::{StoredFolder, StoredLabel, StoredPath, StoredStep};
use notation::{FolderNumber, PathPlace, reads};
use std::io;

// The first, the last and the next byte of a buffer of one byte more than a set.
pub fn edges(rt: &impl Print, part: &[u8]) -> io::Result<()> {
    let [first, last, next] = [0, SET_SIZE - 1, SET_SIZE].map(|at| reads::byte_at(part, at));
    println!(rt; "bytes {first} {last} {next}")
}

pub fn counts(rt: &impl Print, part: &[u8]) -> io::Result<()> {
    println!(rt;
        "text {}, folders {}, paths {}, steps {}, labels {}",
        reads::text_len(part),
        reads::folders(part),
        reads::paths(part),
        reads::steps(part),
        reads::labels(part)
    )
}

pub fn folder(rt: &impl Print, part: &[u8], i: usize) -> io::Result<()> {
    match reads::folder_at(part, i) {
        Some(
            StoredFolder {
                number: FolderNumber(number),
                first: PathPlace(first),
                paths,
            },
        ) => println!(rt; "folder at {i}: number {number}, first path {first}, paths {paths}"),
        None => println!(rt; "folder at {i}: missing"),
    }
}

pub fn numbered(rt: &impl Print, part: &[u8], number: usize) -> io::Result<()> {
    match reads::folder_of(part, FolderNumber(number)) {
        Some(i) => println!(rt; "folder of number {number}: at {i}"),
        None => println!(rt; "folder of number {number}: missing"),
    }
}

pub fn path(rt: &impl Print, part: &[u8], i: usize) -> io::Result<()> {
    match reads::path_at(part, PathPlace(i)) {
        Some(
            StoredPath {
                first,
                steps,
                at,
                size,
            },
        ) => print!(rt; "path {i}: first step {first}, steps {steps}, at {at}, bytes {size}, ")?,
        None => print!(rt; "path {i}: missing")?,
    }
    print_line(rt, reads::path_text(part, PathPlace(i)))
}

pub fn step(rt: &impl Print, part: &[u8], i: usize) -> io::Result<()> {
    match reads::step_at(part, i) {
        Some(StoredStep { descendant, star }) => {
            println!(rt;
                "step {i}: descendant {}, star {}",
                YesNo(descendant),
                YesNo(star)
            )
        }
        None => println!(rt; "step {i}: missing"),
    }
}

pub fn label(rt: &impl Print, part: &[u8], i: usize) -> io::Result<()> {
    match reads::label_at(part, i) {
        Some(StoredLabel { at, size, step }) => {
            print!(rt; "label {i}: at {at}, bytes {size}, step {step}, ")?
        }
        None => print!(rt; "label {i}: missing")?,
    }
    print_line(rt, reads::label_name(part, i))
}
