//! The built-in types by their names.
use mo_num::Kind;
use mo_types::Node;

/// The kind of number of this name.
pub(crate) fn kind_of(name: &[u8]) -> Option<Kind> {
    match name {
        b"Nat" => Some(Kind::Nat),
        b"Int" => Some(Kind::Int),
        b"Nat8" => Some(Kind::Nat8),
        b"Nat16" => Some(Kind::Nat16),
        b"Nat32" => Some(Kind::Nat32),
        b"Nat64" => Some(Kind::Nat64),
        b"Int8" => Some(Kind::Int8),
        b"Int16" => Some(Kind::Int16),
        b"Int32" => Some(Kind::Int32),
        b"Int64" => Some(Kind::Int64),
        _ => None,
    }
}

/// The type of this name.
pub(crate) fn built_in(name: &[u8]) -> Option<Node> {
    match name {
        b"Bool" => Some(Node::Bool),
        b"Char" => Some(Node::Char),
        b"Text" => Some(Node::Text),
        b"Blob" => Some(Node::Blob),
        b"Principal" => Some(Node::Principal),
        b"Error" => Some(Node::Error),
        b"Null" => Some(Node::Null),
        b"Any" => Some(Node::Any),
        b"None" => Some(Node::Bottom),
        _ => kind_of(name).map(Node::Number),
    }
}
