//! Operators and marks.
ghost use Rattle.std.specs.Prelude.{◌≡◌};
ghost use Rattle.mo_syntax.specs.Words.{mark_text};

/// An operator or mark of the language, by the Motoko language manual. Where one text is two of them, what stands beside it says which.
#[derive(Clone, Copy, PartialEq, Eq)]
pub enum Mark {
    /// `+`, addition
    Plus,
    /// `-`, subtraction, or the sign of a number
    Minus,
    /// `*`, multiplication
    Star,
    /// `/`, division
    Slash,
    /// `%`, remainder
    Percent,
    /// `**`, exponentiation
    Power,
    /// `+%`, addition that wraps
    PlusWrap,
    /// `-%`, subtraction that wraps
    MinusWrap,
    /// `*%`, multiplication that wraps
    StarWrap,
    /// `#`, concatenation of texts
    Concat,
    /// `==`, equality
    Equal,
    /// `!=`, inequality
    NotEqual,
    /// `<`, less than, the comparison
    Less,
    /// `>`, greater than, the comparison
    Greater,
    /// `<=`, at most
    LessEqual,
    /// `>=`, at least
    GreaterEqual,
    /// `:=`, assignment
    Assign,
    /// `+=`, assignment of what `+` gives
    PlusAssign,
    /// `-=`, assignment of what `-` gives
    MinusAssign,
    /// `*=`, assignment of what `*` gives
    StarAssign,
    /// `/=`, assignment of what `/` gives
    SlashAssign,
    /// `%=`, assignment of what `%` gives
    PercentAssign,
    /// `**=`, assignment of what `**` gives
    PowerAssign,
    /// `#=`, assignment of what `#` gives
    ConcatAssign,
    /// `+%=`, assignment of what `+%` gives
    PlusWrapAssign,
    /// `-%=`, assignment of what `-%` gives
    MinusWrapAssign,
    /// `*%=`, assignment of what `*%` gives
    StarWrapAssign,
    /// `=`, the sign of a definition
    EqualSign,
    /// `:`
    Colon,
    /// `;`
    Semicolon,
    /// `,`
    Comma,
    /// `.`
    Dot,
    /// `?`
    Question,
    /// `!`
    Bang,
    /// `(`
    ParenOpen,
    /// `)`
    ParenClose,
    /// `[`
    BracketOpen,
    /// `]`
    BracketClose,
    /// `{`
    BraceOpen,
    /// `}`
    BraceClose,
    /// `->`
    Arrow,
    /// `<:`, a bound of a type parameter
    Subtype,
    /// `_`, the pattern that takes anything
    Underscore,
    /// `<`, the opening bracket of types
    AngleOpen,
    /// `>`, the closing bracket of types
    AngleClose,
    /// `#`, the mark of a tag, before its identifier
    Tag,
}

impl Mark {
    /// The bytes of the mark.
    pub fn text(self) -> &'static [u8]
        ensures { result.now ≡ mark_text self }
    {
        match self {
            Mark::Plus => b"+",
            Mark::Minus => b"-",
            Mark::Star => b"*",
            Mark::Slash => b"/",
            Mark::Percent => b"%",
            Mark::Power => b"**",
            Mark::PlusWrap => b"+%",
            Mark::MinusWrap => b"-%",
            Mark::StarWrap => b"*%",
            Mark::Concat => b"#",
            Mark::Equal => b"==",
            Mark::NotEqual => b"!=",
            Mark::Less => b"<",
            Mark::Greater => b">",
            Mark::LessEqual => b"<=",
            Mark::GreaterEqual => b">=",
            Mark::Assign => b":=",
            Mark::PlusAssign => b"+=",
            Mark::MinusAssign => b"-=",
            Mark::StarAssign => b"*=",
            Mark::SlashAssign => b"/=",
            Mark::PercentAssign => b"%=",
            Mark::PowerAssign => b"**=",
            Mark::ConcatAssign => b"#=",
            Mark::PlusWrapAssign => b"+%=",
            Mark::MinusWrapAssign => b"-%=",
            Mark::StarWrapAssign => b"*%=",
            Mark::EqualSign => b"=",
            Mark::Colon => b":",
            Mark::Semicolon => b";",
            Mark::Comma => b",",
            Mark::Dot => b".",
            Mark::Question => b"?",
            Mark::Bang => b"!",
            Mark::ParenOpen => b"(",
            Mark::ParenClose => b")",
            Mark::BracketOpen => b"[",
            Mark::BracketClose => b"]",
            Mark::BraceOpen => b"{",
            Mark::BraceClose => b"}",
            Mark::Arrow => b"->",
            Mark::Subtype => b"<:",
            Mark::Underscore => b"_",
            Mark::AngleOpen => b"<",
            Mark::AngleClose => b">",
            Mark::Tag => b"#",
        }
    }
}
