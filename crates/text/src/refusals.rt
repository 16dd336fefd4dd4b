// Why a call refuses, each refusal with its number: the C interface and the programs give the number alone (docs/GLOSSARY.md).
ghost use Rattle.std.specs.Prelude.{◌≡◌};
ghost use Rattle.text.specs.Refusals.{number_of};

#[derive(Clone, Copy, Debug, PartialEq, Eq)]
pub enum Refusal {
    // A lent buffer is below its size.
    ShortBuffer = 1,
    // A set or a report is over its byte limit.
    TooLarge = 2,
    // The text of a set is not of its form.
    MalformedSet = 3,
    // A folder's number is not above the one before.
    OutOfOrder = 4,
    NameTooLong = 5,
    // A path has too many steps.
    PathTooLong = 6,
    // A set has too many paths or labels, or a run too many opens.
    OverCapacity = 7,
    // A byte that no report may have.
    InvalidByte = 8,
    // A report is no run of tokens, or a called name is not of name form.
    SyntaxError = 9,
    // There is not exactly one root, closed at the end, with all that is not blank inside it.
    NotOneRoot = 10,
    TooDeep = 11,
    // A close is not of the innermost element's name.
    MismatchedClose = 12,
    // A path, folder, step or depth that is asked of is not there.
    NotFound = 13,
    // An automaton, a run or counters fail the shape test.
    BadShape = 14,
    // A tag has two attributes of the same name.
    RepeatedAttribute = 15,
}

impl Refusal {
    // A method, not `From`: its name says at each call what the byte is.
    pub fn number(self) -> u8
        ensures { result ≡ number_of self }
    {
        self as u8
    }
}
