// The definition stands in specs/; here are the plain types that it and the code both name, and a refusal with its place.
#![tactic(auto)]

ghost use Rattle.std.specs.Prelude.{◌≡◌};
ghost use Rattle.definition.specs.Refusal.{number_of};

// The class of a byte.
#[derive(Clone, Copy, PartialEq, Eq)]
pub enum Class {
    Letter,
    Digit,
    Break,
    Blank,
    LineFeed,
    Percent,
    Quote,
    Mark,
    Other,
}

// Why a deck is refused, in the order of 01's table.
#[derive(Clone, Copy, PartialEq, Eq)]
pub enum Why {
    MalformedDeck,
    ShortRoom,
    Syntax,
    OverLimit,
    DeclaredTwice,
    WrongName,
    NoValue,
    NoConversion,
    OutOfRange,
    ZeroDivisor,
    WrongArguments,
    WronglyRun,
    WrongGoto,
    UnknownMember,
    TooDeep,
    TooLong,
    RoomFull,
    NoStep,
    SubstrOutside,
    UnevenBody,
}

// 01's number for a refusal.
impl From<Why> for u32 {
    ghost from_gives = { λ w n. n ≡ number_of w };

    fn from(w: Why) -> u32 {
        match w {
            Why::MalformedDeck => 1,
            Why::ShortRoom => 2,
            Why::Syntax => 3,
            Why::OverLimit => 4,
            Why::DeclaredTwice => 5,
            Why::WrongName => 6,
            Why::NoValue => 7,
            Why::NoConversion => 8,
            Why::OutOfRange => 9,
            Why::ZeroDivisor => 10,
            Why::WrongArguments => 11,
            Why::WronglyRun => 12,
            Why::WrongGoto => 13,
            Why::UnknownMember => 14,
            Why::TooDeep => 15,
            Why::TooLong => 16,
            Why::RoomFull => 17,
            Why::NoStep => 18,
            Why::SubstrOutside => 19,
            Why::UnevenBody => 20,
        }
    }
}

// A refusal with its place in a body.
pub type Fault = (Why, usize);

// What the bodies of a deck are: source as it stands, or records of 80 columns.
#[derive(Clone, Copy, PartialEq, Eq)]
pub enum Layout {
    Plain,
    Cards,
}

// The infix operators of 000, 3.2.1, and the prefix ones.
#[derive(Clone, Copy, PartialEq, Eq)]
pub enum Operator {
    OrOp,
    AndOp,
    Greater,
    GreaterEqual,
    Equal,
    Less,
    LessEqual,
    NotGreater,
    NotEqual,
    NotLess,
    CatOp,
    Plus,
    Minus,
    Times,
    Divided,
}

#[derive(Clone, Copy, PartialEq, Eq)]
pub enum Prefix {
    Positive,
    Negative,
    Complement,
}

// The types that a variable, a parameter or a procedure is declared with.
#[derive(Clone, Copy, PartialEq, Eq)]
pub enum ValueType {
    FixedType,
    CharacterType,
}
