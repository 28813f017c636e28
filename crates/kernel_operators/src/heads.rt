//! Numbers and scalars by the heads of their types.
ghost use Rattle.std.specs.Prelude.{◌≡◌, IfOk};
ghost use Rattle.desugaring.specs.Nodes as nodes;
ghost use Rattle.kernel_types.specs.Numbers.{head_of};
ghost use Rattle.kernel_operators.specs.Operations.{kind_in, scalar_at};

use kernel_types::KernelTypes;
use mo_num::{Kind, Memory};
use mo_types::Node;
use mo_values::Scalar;
use type_terms::TermId;

/// The kind of the numbers of a type.
pub(crate) fn number_kind(types: &KernelTypes, kind: TermId) -> Result<Kind, Memory>
    ensures { IfOk result (λ of. of ≡ kind_in types.now kind) }
{
    let head = types.head(kind)?;
    match head.number_of() {
        Some(of) => Ok(of),
        None => Ok(Kind::Nat),
    }
}

fn scalar_at(head: &Node) -> Scalar
    ensures { result ≡ scalar_at head.now }
{
    match head {
        Node::Number(kind) => Scalar::Number(*kind),
        Node::Bool => Scalar::Bool,
        Node::Char => Scalar::Char,
        Node::Blob => Scalar::Blob,
        _ => Scalar::Text,
    }
}

/// The type without parts that a type is.
pub(crate) fn scalar(types: &KernelTypes, kind: TermId) -> Result<Scalar, Memory>
    ensures { IfOk result (λ of. of ≡ nodes.scalar_of (head_of types.now kind)) }
{
    let head = types.head(kind)?;
    Ok(scalar_at(head))
}
