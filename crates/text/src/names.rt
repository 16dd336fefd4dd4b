// Byte classes, and names, whose test goes by them.
ghost use Rattle.std.specs.Prelude.{◌≡◌, ◌+◌, length, drop};
ghost use Rattle.text.specs.Read.{front};
ghost use Rattle.text.specs.Classes.{class_of, can_begin, can_follow};
ghost use Rattle.text.specs.Names.{begins_name, in_name, name_form, too_long};

// Bytes of a name at most.
pub const MAX_NAME: usize = 32;

#[derive(Clone, Copy, Debug, PartialEq, Eq)]
pub enum Class {
    // A letter or `_`.
    Start,
    Digit,
    Hyphen,
    Dot,
    // A tab or a carriage return.
    Blank,
    LineEnd,
    Space,
    DoubleQuote,
    SingleQuote,
    Less,
    Greater,
    // Round brackets.
    Open,
    Close,
    Slash,
    Star,
    Ampersand,
    Equals,
    Exclamation,
    Question,
    Semicolon,
    // `]`.
    Square,
    // Any other that a report may have.
    Other,
    // A byte that no report may have.
    Invalid,
}

impl Class {
    fn begins_name(self) -> bool
        ensures { result ≡ can_begin self }
    {
        self == Class::Start
    }

    fn in_name(self) -> bool
        ensures { result ≡ can_follow self }
    {
        matches!(
            self,
            Class::Start | Class::Digit | Class::Hyphen | Class::Dot
        )
    }
}

// Bytes of 128 and more have no entry.
pub fn class_of(b: u8) -> Class
    ensures { result ≡ class_of b }
{
    CLASSES
        .get(usize::from(b))
        .copied()
        .unwrap_or(Class::Invalid)
}

// A letter or `_`. Small letters, which most bytes of names are, are not looked up.
#[tactic(auto, using(crate::proofs::Laws::Bytes::Classes::tested))]
pub fn begins_name(b: u8) -> bool
    ensures { result ≡ begins_name b }
{
    b.is_ascii_lowercase() || class_of(b).begins_name()
}

// A letter, a digit, `_`, `-` or `.`.
#[tactic(auto, using(crate::proofs::Laws::Bytes::Classes::tested))]
pub fn in_name(b: u8) -> bool
    ensures { result ≡ in_name b }
{
    b.is_ascii_lowercase() || class_of(b).in_name()
}

// Where the name bytes that begin at an offset end. By a range of offsets it takes 2 % more instructions to file a report of 64 kB, and 9 % more to file tags
// of 17 attributes: the loop then counts several numbers along.
#[tactic(auto, using(crate::proofs::Laws::Scans::spans))]
pub fn name_end(s: &[u8], at: usize) -> usize
    ensures { result ≡ at + length (front in_name (drop at s.now)) }
{
    let mut i = at;
    while i < s.len() && in_name(s[i]) {
        i += 1;
    }
    i
}

// Name form, length aside, by the table.
pub fn name_form(s: &[u8]) -> bool
    ensures { result ≡ name_form s.now }
{
    match s.split_first() {
        Some((first, rest)) => {
            class_of(*first).begins_name() && rest.iter().all(|b| class_of(*b).in_name())
        }
        None => false,
    }
}

// Over the limit of a name's length.
#[tactic(auto, unfolding(crate::specs::Names::max_name))]
pub fn too_long(s: &[u8]) -> bool
    ensures { result ≡ too_long s.now }
{
    MAX_NAME < s.len()
}

// The class of each byte below 128.
const CLASSES: [Class; 128] = [
    // 0
    Class::Invalid,
    Class::Invalid,
    Class::Invalid,
    Class::Invalid,
    Class::Invalid,
    Class::Invalid,
    Class::Invalid,
    Class::Invalid,
    // 8
    Class::Invalid,
    Class::Blank,
    Class::LineEnd,
    Class::Invalid,
    Class::Invalid,
    Class::Blank,
    Class::Invalid,
    Class::Invalid,
    // 16
    Class::Invalid,
    Class::Invalid,
    Class::Invalid,
    Class::Invalid,
    Class::Invalid,
    Class::Invalid,
    Class::Invalid,
    Class::Invalid,
    // 24
    Class::Invalid,
    Class::Invalid,
    Class::Invalid,
    Class::Invalid,
    Class::Invalid,
    Class::Invalid,
    Class::Invalid,
    Class::Invalid,
    // 32: space ! " # $ % & '
    Class::Space,
    Class::Exclamation,
    Class::DoubleQuote,
    Class::Other,
    Class::Other,
    Class::Other,
    Class::Ampersand,
    Class::SingleQuote,
    // 40: ( ) * + , - . /
    Class::Open,
    Class::Close,
    Class::Star,
    Class::Other,
    Class::Other,
    Class::Hyphen,
    Class::Dot,
    Class::Slash,
    // 48: 0 1 2 3 4 5 6 7
    Class::Digit,
    Class::Digit,
    Class::Digit,
    Class::Digit,
    Class::Digit,
    Class::Digit,
    Class::Digit,
    Class::Digit,
    // 56: 8 9 : ; < = > ?
    Class::Digit,
    Class::Digit,
    Class::Other,
    Class::Semicolon,
    Class::Less,
    Class::Equals,
    Class::Greater,
    Class::Question,
    // 64: @ A B C D E F G
    Class::Other,
    Class::Start,
    Class::Start,
    Class::Start,
    Class::Start,
    Class::Start,
    Class::Start,
    Class::Start,
    // 72: H I J K L M N O
    Class::Start,
    Class::Start,
    Class::Start,
    Class::Start,
    Class::Start,
    Class::Start,
    Class::Start,
    Class::Start,
    // 80: P Q R S T U V W
    Class::Start,
    Class::Start,
    Class::Start,
    Class::Start,
    Class::Start,
    Class::Start,
    Class::Start,
    Class::Start,
    // 88: X Y Z [ \ ] ^ _
    Class::Start,
    Class::Start,
    Class::Start,
    Class::Other,
    Class::Other,
    Class::Square,
    Class::Other,
    Class::Start,
    // 96: ` a b c d e f g
    Class::Other,
    Class::Start,
    Class::Start,
    Class::Start,
    Class::Start,
    Class::Start,
    Class::Start,
    Class::Start,
    // 104: h i j k l m n o
    Class::Start,
    Class::Start,
    Class::Start,
    Class::Start,
    Class::Start,
    Class::Start,
    Class::Start,
    Class::Start,
    // 112: p q r s t u v w
    Class::Start,
    Class::Start,
    Class::Start,
    Class::Start,
    Class::Start,
    Class::Start,
    Class::Start,
    Class::Start,
    // 120: x y z { | } ~
    Class::Start,
    Class::Start,
    Class::Start,
    Class::Other,
    Class::Other,
    Class::Other,
    Class::Other,
    Class::Invalid,
];
