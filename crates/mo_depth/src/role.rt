//! What a token does to the depth.
ghost use Rattle.std.specs.Prelude.{◌≡◌};
ghost use Rattle.mo_depth.specs.Depth as spec;

use mo_syntax::{Mark, TokenKind};

/// What a token does to the depth.
#[derive(Clone, Copy)]
pub enum Role {
    /// It opens a bracket that this mark closes.
    Opens(Mark),
    /// It is a closing mark.
    Closes(Mark),
    /// It is a `;` or `,`.
    Separates,
    /// It is any other token.
    Other,
}

fn mark_role(mark: Mark) -> Role
    ensures { result ≡ spec.mark_role mark }
{
    match mark {
        Mark::ParenOpen => Role::Opens(Mark::ParenClose),
        Mark::BracketOpen => Role::Opens(Mark::BracketClose),
        Mark::BraceOpen => Role::Opens(Mark::BraceClose),
        Mark::ParenClose | Mark::BracketClose | Mark::BraceClose => Role::Closes(mark),
        Mark::Semicolon | Mark::Comma => Role::Separates,
        _ => Role::Other,
    }
}

/// What the token does to the depth.
pub(crate) fn role_of(kind: &TokenKind) -> Role
    ensures { result ≡ spec.role_of kind.now }
{
    match kind {
        TokenKind::Mark(mark) => mark_role(*mark),
        _ => Role::Other,
    }
}
