//! The types that need no declaration.
ghost use Rattle.std.specs.Prelude.{◌≡◌, drop};
ghost use Rattle.mo_scopes.specs.Scopes.{built_in_types, named};

use mo_scopes::BuiltInType;

/// The type of this name that needs no declaration: Motoko language manual, section "Types".
pub fn built_in_type(name: &[u8]) -> Option<BuiltInType>
    ensures { result ≡ named built_in_types name.now }
{
    if name == b"Nat".as_slice() {
        Some(BuiltInType::Nat)
    } else if name == b"Int".as_slice() {
        Some(BuiltInType::Int)
    } else if name == b"Nat8".as_slice() {
        Some(BuiltInType::Nat8)
    } else if name == b"Nat16".as_slice() {
        Some(BuiltInType::Nat16)
    } else if name == b"Nat32".as_slice() {
        Some(BuiltInType::Nat32)
    } else if name == b"Nat64".as_slice() {
        Some(BuiltInType::Nat64)
    } else if name == b"Int8".as_slice() {
        Some(BuiltInType::Int8)
    } else if name == b"Int16".as_slice() {
        Some(BuiltInType::Int16)
    } else if name == b"Int32".as_slice() {
        Some(BuiltInType::Int32)
    } else if name == b"Int64".as_slice() {
        Some(BuiltInType::Int64)
    } else {
        other_built_in_type(name)
    }
}

// The types that are not of numbers, which stand behind these in the list of built-in types.
fn other_built_in_type(name: &[u8]) -> Option<BuiltInType>
    ensures { result ≡ named (drop 10 built_in_types) name.now }
{
    if name == b"Bool".as_slice() {
        Some(BuiltInType::Bool)
    } else if name == b"Char".as_slice() {
        Some(BuiltInType::Char)
    } else if name == b"Text".as_slice() {
        Some(BuiltInType::Text)
    } else if name == b"Blob".as_slice() {
        Some(BuiltInType::Blob)
    } else if name == b"Principal".as_slice() {
        Some(BuiltInType::Principal)
    } else if name == b"Null".as_slice() {
        Some(BuiltInType::Null)
    } else if name == b"Any".as_slice() {
        Some(BuiltInType::Any)
    } else if name == b"None".as_slice() {
        Some(BuiltInType::None)
    } else if name == b"Error".as_slice() {
        Some(BuiltInType::Error)
    } else {
        None
    }
}
