//! The reserved words.
ghost use Rattle.std.specs.Prelude.{◌≡◌};
ghost use Rattle.mo_syntax.specs.Words.{word_text};

/// A reserved word of the language, by the Motoko language manual. No identifier has its text.
#[derive(Clone, Copy, PartialEq, Eq)]
pub enum Word {
    /// `actor`
    Actor,
    /// `and`
    And,
    /// `assert`
    Assert,
    /// `async`
    Async,
    /// `await`
    Await,
    /// `break`
    Break,
    /// `case`
    Case,
    /// `catch`
    Catch,
    /// `class`
    Class,
    /// `continue`
    Continue,
    /// `debug`
    Debug,
    /// `do`
    Do,
    /// `else`
    Else,
    /// `false`
    False,
    /// `for`
    For,
    /// `func`
    Func,
    /// `if`
    If,
    /// `ignore`
    Ignore,
    /// `import`
    Import,
    /// `in`
    In,
    /// `label`
    Label,
    /// `let`
    Let,
    /// `loop`
    Loop,
    /// `module`
    Module,
    /// `not`
    Not,
    /// `null`
    Null,
    /// `object`
    Object,
    /// `or`
    Or,
    /// `private`
    Private,
    /// `public`
    Public,
    /// `query`
    Query,
    /// `return`
    Return,
    /// `shared`
    Shared,
    /// `stable`
    Stable,
    /// `switch`
    Switch,
    /// `system`
    System,
    /// `throw`
    Throw,
    /// `true`
    True,
    /// `try`
    Try,
    /// `type`
    TypeWord,
    /// `var`
    Var,
    /// `while`
    While,
    /// `composite`, which stands in no rule of the grammar
    Composite,
    /// `debug_show`, which stands in no rule of the grammar
    DebugShow,
    /// `finally`, which stands in no rule of the grammar
    Finally,
    /// `flexible`, which stands in no rule of the grammar
    Flexible,
    /// `from_candid`, which stands in no rule of the grammar
    FromCandid,
    /// `persistent`, which stands in no rule of the grammar
    Persistent,
    /// `to_candid`, which stands in no rule of the grammar
    ToCandid,
    /// `transient`, which stands in no rule of the grammar
    Transient,
    /// `with`, which stands in no rule of the grammar
    With,
}

impl Word {
    /// Every reserved word, once.
    pub const ALL: [Word; 51] = [
        Word::Actor,
        Word::And,
        Word::Assert,
        Word::Async,
        Word::Await,
        Word::Break,
        Word::Case,
        Word::Catch,
        Word::Class,
        Word::Continue,
        Word::Debug,
        Word::Do,
        Word::Else,
        Word::False,
        Word::For,
        Word::Func,
        Word::If,
        Word::Ignore,
        Word::Import,
        Word::In,
        Word::Label,
        Word::Let,
        Word::Loop,
        Word::Module,
        Word::Not,
        Word::Null,
        Word::Object,
        Word::Or,
        Word::Private,
        Word::Public,
        Word::Query,
        Word::Return,
        Word::Shared,
        Word::Stable,
        Word::Switch,
        Word::System,
        Word::Throw,
        Word::True,
        Word::Try,
        Word::TypeWord,
        Word::Var,
        Word::While,
        Word::Composite,
        Word::DebugShow,
        Word::Finally,
        Word::Flexible,
        Word::FromCandid,
        Word::Persistent,
        Word::ToCandid,
        Word::Transient,
        Word::With,
    ];

    /// The bytes of the word.
    pub fn text(self) -> &'static [u8]
        ensures { result.now ≡ word_text self }
    {
        match self {
            Word::Actor => b"actor",
            Word::And => b"and",
            Word::Assert => b"assert",
            Word::Async => b"async",
            Word::Await => b"await",
            Word::Break => b"break",
            Word::Case => b"case",
            Word::Catch => b"catch",
            Word::Class => b"class",
            Word::Continue => b"continue",
            Word::Debug => b"debug",
            Word::Do => b"do",
            Word::Else => b"else",
            Word::False => b"false",
            Word::For => b"for",
            Word::Func => b"func",
            Word::If => b"if",
            Word::Ignore => b"ignore",
            Word::Import => b"import",
            Word::In => b"in",
            Word::Label => b"label",
            Word::Let => b"let",
            Word::Loop => b"loop",
            Word::Module => b"module",
            Word::Not => b"not",
            Word::Null => b"null",
            Word::Object => b"object",
            Word::Or => b"or",
            Word::Private => b"private",
            Word::Public => b"public",
            Word::Query => b"query",
            Word::Return => b"return",
            Word::Shared => b"shared",
            Word::Stable => b"stable",
            Word::Switch => b"switch",
            Word::System => b"system",
            Word::Throw => b"throw",
            Word::True => b"true",
            Word::Try => b"try",
            Word::TypeWord => b"type",
            Word::Var => b"var",
            Word::While => b"while",
            Word::Composite => b"composite",
            Word::DebugShow => b"debug_show",
            Word::Finally => b"finally",
            Word::Flexible => b"flexible",
            Word::FromCandid => b"from_candid",
            Word::Persistent => b"persistent",
            Word::ToCandid => b"to_candid",
            Word::Transient => b"transient",
            Word::With => b"with",
        }
    }
}
