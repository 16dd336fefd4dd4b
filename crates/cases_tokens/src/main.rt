// Prints, for each case, its bytes, its tokens with the names of tags, and whether they are a run of tokens or not; then, for some bytes and
// offsets, from where to where the name of the tag stands. A byte that does not print stands as `?`. d: declaration, c: comment, s: start tag,
// x: empty-element tag, ss and xx: one that repeats the name of an attribute, e: end tag, t: text, b: blank text.
#![tactic(auto)]

use cases::answers::Shown;
use reports::tokens::{Kind, is_run, tag_name, tag_span, token_at};
use std::io;

const CASES: [&[u8]; 71] = [
    // Declarations.
    b"",
    b"<?xml version=\"1.0\"?><a/>",
    b" <?xml version=\"1.0\"?><a/>",
    b"<?xml version=\"1.0\"?><?xml version=\"1.0\"?><a/>",
    b"<?xml version='1.0'?><a/>",
    b"<?xml  version=\"1.0\"?><a/>",
    b"<?xml version=\"1.0\" ?><a/>",
    b"<?pi?><a/>",
    b"<!DOCTYPE a><a/>",
    b"<a><![CDATA[x]]></a>",
    // Comments.
    b"<!----><a/>",
    b"<!-- a - b > < & -->",
    b"<!--a--b-->",
    b"<!--a--->",
    b"<!--->",
    b"<!--a",
    b"<!-a-->",
    b"<!--\x7f-->",
    // Tags.
    b"<a></a>",
    b"<a/>",
    b"<a />",
    b"<a\t\n\r ></a >",
    b"<a/ >",
    b"< a>",
    b"</ a>",
    b"<a b>",
    b"</a b=\"1\">",
    b"</a/>",
    b"<>",
    b"</>",
    b"<",
    b"<a",
    b"<1a/>",
    b"<-a/>",
    b"<_a-.9/>",
    b"<a:b/>",
    b"<a\x80/>",
    // Attributes.
    b"<a b=\"1\"/>",
    b"<a b='1'/>",
    b"<a b = '1' c\n=\n\"2\" >",
    b"<a b=\"1\"c=\"2\">",
    b"<a b=\"it's\" c='say \"x\"'/>",
    b"<a b=\"1'/>",
    b"<a b=1/>",
    b"<a b=\"<\"/>",
    b"<a b=\"&lt;&amp;&gt;&quot;&apos;\"/>",
    b"<a b=\"&\"/>",
    b"<a b=\"]]>\"/>",
    b"<a b=\"\"/>",
    b"<a b=\"1\" b=\"2\"/>",
    b"<a b='' c='' b=''><a b='' B=''>",
    b"<a =\"1\"/>",
    b"<a b=\"\x7f\"/>",
    // Texts.
    b"<a>x</a>",
    b"<a> \t\n\r</a>",
    b"<a>x > y ]] ></a>",
    b"<a>]]></a>",
    b"<a>]]<b/>></a>",
    b"<a>]]&gt;</a>",
    b"<a>&amp;</a>",
    b"<a>&amp</a>",
    b"<a>&</a>",
    b"<a>&#65;</a>",
    b"<a>&nbsp;</a>",
    b"<a>&AMP;</a>",
    b"x<a/>y",
    b"<a>\x7f</a>",
    b"<a>\x80</a>",
    // Names.
    b"<abcdefghijklmnopqrstuvwxyz0123456/>",
    b"<aaaaaaaaaaaaaaaaaaaaaaaaaaaaaaaaaaaaaaaaaaaaaaaaaaaaaaaaaaaaaaaaaaaaaaaaaaaaaaaaaaaaaaaaaaaaaaaaaaaaaaaaaaaaaaaaaaaaaaaaaaaaaaaaaaaaaaaaaaaaaaaaaaaaaaaaaaaaaaaaaaaaaaaaaaaaaaaaaaaaaaaaaaaaaaaaaaaaaaaaaaaaaaaaaaaaaaaaaaaaaaaaaaaaaaaaaaaaaaaaaaaaaaaaaaaaaaaaaaaaaaaaaaaaaaaaaaaaaaaaaaaaaaaaaaaa/>",
    b"<xmlns xmlns='x'/>",
];

// A name that stands in the bytes more than once; no tag at the offset; a tag that is not whole; an offset past the end.
const SPANS: [(&[u8], usize); 10] = [
    (b"ab<ab ab='ab'></ab>", 2),
    (b"ab<ab ab='ab'></ab>", 14),
    (b"ab<ab/>", 2),
    (b"ab<ab/>", 0),
    (b"ab<ab/>", 3),
    (b"ab<ab", 2),
    (b"<!--ab-->", 0),
    (b"<ab/>", 5),
    (b"<ab/>", 6),
    (b"<ab c='' c=''/>", 0),
];

fn letter(kind: Kind) -> &'static str {
    match kind {
        Kind::Declaration => "d",
        Kind::Comment => "c",
        Kind::Start { twice: false, .. } => "s:",
        Kind::Start { twice: true, .. } => "ss:",
        Kind::Empty { twice: false, .. } => "x:",
        Kind::Empty { twice: true, .. } => "xx:",
        Kind::End { .. } => "e:",
        Kind::Blank => "b",
        Kind::Text => "t",
    }
}

// No iterator of tokens is plainer: where the last one ends is asked after the loop.
fn print_tokens(rt: &impl Print, bytes: &[u8]) -> io::Result<()> {
    let mut at = 0;
    while let Some(token) = token_at(bytes, at) {
        let name = Shown(tag_name(bytes, at));
        print!(rt; " {}{name}", letter(token.kind))?;
        at = token.end;
    }
    if at < bytes.len() {
        print!(rt; " -")?;
    }
    Ok(())
}

fn print_case(rt: &impl Print, bytes: &[u8]) -> io::Result<()> {
    print!(rt; "{} |", Shown(bytes))?;
    print_tokens(rt, bytes)?;
    println!(rt; " {}", if is_run(bytes) { "run" } else { "torn" })
}

fn print_span(rt: &impl Print, bytes: &[u8], at: usize) -> io::Result<()> {
    let (from, to) = tag_span(bytes, at).map_or((0, 0), |span| (span.from, span.to));
    let name = Shown(tag_name(bytes, at));
    println!(rt; "{} | at {at} from {from} to {to} {name}", Shown(bytes))
}

fn print_cases(rt: &impl Print) -> io::Result<()> {
    // By reference: the arrays are not copied.
    for bytes in &CASES {
        print_case(rt, bytes)?;
    }
    for (bytes, at) in &SPANS {
        print_span(rt, bytes, *at)?;
    }
    Ok(())
}

// A write that fails ends the printing alone: it is no error of the program.
fn main(rt: HostRuntime) {
    let _ = print_cases(&rt);
}
