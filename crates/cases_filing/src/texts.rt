// The sets and reports of the cases.

pub const FILED: [(&str, &[u8]); 12] = [
    // The worked example.
    (
        "(folders\n(folder 3 (//clock/drift) (/lock/*/drift))\n(folder 8 (//*/lock))\n)\n",
        b"<lock><clock><drift/></clock></lock>",
    ),
    (
        "(folders\n(folder 3 (//clock/drift) (/lock/*/drift))\n(folder 8 (//*/lock))\n)\n",
        b"<lock/>",
    ),
    // Where filing errs.
    (
        "(folders\n(folder 1 (//a//b))\n(folder 2 (//a/a/b))\n(folder 3 (//a/*))\n)\n",
        b"<r><b/><a><b/></a></r>",
    ),
    (
        "(folders\n(folder 1 (//a//b))\n(folder 2 (//a/a/b))\n(folder 3 (//a/*))\n)\n",
        b"<r><a/><b/></r>",
    ),
    (
        "(folders\n(folder 1 (//a//b))\n(folder 2 (//a/a/b))\n(folder 3 (//a/*))\n)\n",
        b"<a><b/></a>",
    ),
    (
        "(folders\n(folder 1 (//a/a/b))\n)\n",
        b"<r><a><a><c/><c/><c/><c/></a></a></r>",
    ),
    (
        "(folders\n(folder 1 (/a/b))\n)\n",
        b"<a><c><b/></c><b/></a>",
    ),
    // Which elements a path selects: `*` takes any element, and no text and no comment; equal elements are two.
    ("(folders\n(folder 1 (//*/lock))\n)\n", b"<r><lock/></r>"),
    (
        "(folders\n(folder 1 (//a/a/b))\n)\n",
        b"<r><a><a><c/><c/><c/><b/></a></a></r>",
    ),
    ("(folders\n(folder 1 (/a/*))\n)\n", b"<a>c<!--b--></a>"),
    ("(folders\n(folder 1 (/a/*))\n)\n", b"<a>c<b/></a>"),
    ("(folders\n(folder 1 (//a))\n)\n", b"<r><a/><a/></r>"),
];

// With a set that has no folders.
pub const JUDGED: [&[u8]; 27] = [
    // Bytes that are not listed.
    b"<a>\t\n\r ~</a>",
    b"<a>\x08</a>",
    b"<a>\x1f</a>",
    b"<a>\x7f</a>",
    b"<a>\x80</a>",
    // No tokens.
    b"<a>]]></a>",
    b"<a b=\"]]>\"/>",
    b"<a>&copy;</a>",
    b"<a b='1'c='2'/>",
    b"<!--a--->",
    // Not one root.
    b"",
    b" ",
    b"<!--a-->",
    b"<a>",
    b"</a>",
    b"<a/><b/>",
    // Outside the root.
    b"<a/>x",
    b"x<a/>",
    b"<a/>&amp;",
    b" <a/><!--a-->\n",
    // Names: too long, and of another element.
    b"<abcdefghijklmnopqrstuvwxyz012345/>",
    b"<abcdefghijklmnopqrstuvwxyz0123456/>",
    b"<a></abcdefghijklmnopqrstuvwxyz0123456>",
    b"<a></b>",
    // Two refusals.
    b"<a\x7f",
    b"<a></b><",
    b"<a>]]><b>",
];

// So many elements in one another, what stands in them, and end tags.
pub const CROSSED: [(&str, usize, &str, usize); 2] = [
    ("65 nested, then a crossed close", 65, "</b>", 0),
    (
        "64 nested, a crossed close, then one more",
        64,
        "</b><a>",
        0,
    ),
];

pub const REPEATS: [&[u8]; 19] = [
    // 15: a tag has two attributes of the same name. In a start tag, an empty tag, the last tag, a tag after the root closed.
    b"<a b='1' b='2'></a>",
    b"<a b='1' c='' b=\"1\"/>",
    b"<a b = ''\n\tb\t=\"\" ><c/></a>",
    b"<a b=''><c b=''/><d c='' d='' c=''/></a>",
    b"<a/><c b='' b=''/>",
    b"<a abcdefghijklmnopqrstuvwxyz0123456='' b='' abcdefghijklmnopqrstuvwxyz0123456=''/>",
    // It comes after 8 and 9, wherever these are; after 1 and 14: `short`, `strange`.
    b"<a b='' b=''>\x7f</a>",
    b"<a>\x7f<c b='' b=''/></a>",
    b"<a b='' b=''>]]></a>",
    b"<a>]]><c b='' b=''/></a>",
    b"<a><?xml version=\"1.0\"?><c b='' b=''/></a>",
    b"<a b='' b='",
    // It comes before 5, 10, 11 and 12, also where these stand first.
    b"<a b='' b=''><abcdefghijklmnopqrstuvwxyz0123456/></a>",
    b"<abcdefghijklmnopqrstuvwxyz0123456/><c b='' b=''/>",
    b"<abcdefghijklmnopqrstuvwxyz0123456 b='' b=''/>",
    b"<a b='' b=''>",
    b"x<a b='' b=''/>",
    b"</a><c b='' b=''/>",
    b"<a></c><d b='' b=''/>",
];

pub const NESTED_REPEATS: [(&str, usize, &str, usize); 2] = [
    ("65 nested, then a repeat", 65, "<c b='' b=''/>", 65),
    (
        "64 nested, then one more with a repeat",
        64,
        "<c b='' b=''/>",
        64,
    ),
];

// Names differ by case, by their ends, by one byte at any length; equal ones may stand in two tags, and in values.
pub const DIFFERENT: [&[u8]; 6] = [
    b"<a b='' B=''/>",
    b"<a b='' bb='' b.=''/>",
    b"<a bb='' b=''/>",
    b"<a b=''><c b=''/><c b=''></c></a>",
    b"<a b=\"c='1' b='2'\" c=' b='/>",
    b"<a abcdefghijklmnopqrstuvwxyz0123456='' abcdefghijklmnopqrstuvwxyz0123457=''/>",
];

// So many attributes of different names, and then one more of such a name, or of another.
pub const MANY: [(&str, usize, &str); 14] = [
    ("15 names and the first again", 15, "n0000"),
    ("15 names and another", 15, "n"),
    ("16 names and the first again", 16, "n0000"),
    ("16 names and another", 16, "n"),
    ("17 names and the last again", 17, "n0016"),
    ("17 names and another", 17, "n0017"),
    ("255 names and the first again", 255, "n0000"),
    ("255 names and another", 255, "n"),
    ("256 names and the first again", 256, "n0000"),
    ("256 names and another", 256, "n"),
    ("6000 names and the first again", 6000, "n0000"),
    ("6000 names and one in the middle", 6000, "n2999"),
    ("6000 names and the last again", 6000, "n5999"),
    ("6000 names and another", 6000, "n6000"),
];

pub const DEEP: [(&str, usize); 2] = [("64 nested", 64), ("65 nested", 65)];
