//! Literals, written out.
ghost use Rattle.std.specs.Prelude.{◌≡◌, IfOk};
ghost use Rattle.typing_rules.specs.Spans.{literal_of};
ghost use Rattle.desugaring.specs.Nodes as nodes;
ghost use Rattle.kernel_types.specs.Numbers.{head_of};
ghost use Rattle.kernel_patterns.specs.Written.{text_value};

use kernel_types::KernelTypes;
use mo_num::{Bytes, Memory};
use mo_syntax::Literal;
use std::alloc::Global;
use type_terms::TermId;

/// The number with its sign.
fn signed(minus: bool, number: u64) -> i128
    ensures { result ≡ nodes.signed minus number }
{
    if minus {
        -(number as i128)
    } else {
        number as i128
    }
}

/// The text as a value of the type.
fn text_at(
    alloc: Global,
    types: &KernelTypes,
    kind: TermId,
    bytes: &[u8],
) -> Result<typed_tree::Literal, Memory>
    ensures { IfOk result (λ made. made ≡ text_value bytes.now (head_of types.now kind)) }
{
    let is_blob = types.head(kind)?.is_blob();
    let bytes = Bytes::from_slice(alloc, bytes)?;
    if is_blob {
        Ok(typed_tree::Literal::Blob(bytes))
    } else {
        Ok(typed_tree::Literal::Text(bytes))
    }
}

/// The literal, with `-` before it or not, as a value of the type: a text is one of a Blob where the type is Blob.
pub fn kernel_literal(
    alloc: Global,
    types: &KernelTypes,
    kind: TermId,
    minus: bool,
    literal: &Literal,
) -> Result<typed_tree::Literal, Memory>
    ensures { IfOk result (λ made. made ≡ nodes.literal_at minus (literal_of literal.now) (head_of types.now kind)) }
{
    match literal {
        Literal::Number(number) => Ok(typed_tree::Literal::Number(signed(minus, *number))),
        Literal::Character(character) => Ok(typed_tree::Literal::Character(*character)),
        Literal::Text(text) => text_at(alloc, types, kind, text.as_slice()),
        Literal::True => Ok(typed_tree::Literal::Flag(true)),
        Literal::False => Ok(typed_tree::Literal::Flag(false)),
        Literal::Null => Ok(typed_tree::Literal::Null),
    }
}
