//! The modules of the base library with their members, and the names that need no declaration.
ghost use Rattle.std.specs.Prelude.{◌≡◌, drop};
ghost use Rattle.mo_scopes.specs.Findings.{contains};
ghost use Rattle.mo_scopes.specs.Scopes.{built_in_types, library_of, members_of, named, system_functions};

/// A module of the base library.
#[derive(Clone, Copy, Drop)]
pub enum Library {
    Debug,
    Error,
    Nat,
    Int,
    Array,
    Principal,
}

/// A member of a module of the base library.
#[derive(Clone, Copy, PartialEq, Eq)]
pub enum Member {
    DebugPrint,
    DebugTrap,
    ErrorReject,
    ErrorMessage,
    ErrorCode,
    NatToText,
    IntToText,
    ArrayTabulate,
    ArrayInit,
    ArrayFreeze,
    ArrayThaw,
    PrincipalFromActor,
}

/// A type that needs no declaration.
#[derive(Clone, Copy, PartialEq, Eq)]
pub enum BuiltInType {
    Nat,
    Int,
    Nat8,
    Nat16,
    Nat32,
    Nat64,
    Int8,
    Int16,
    Int32,
    Int64,
    Bool,
    Char,
    Text,
    Blob,
    Principal,
    Null,
    Any,
    None,
    Error,
}

/// The type of this name that needs no declaration.
pub(crate) fn built_in_type(name: &[u8]) -> Option<BuiltInType>
    ensures { result ≡ named built_in_types name.now }
{
    if name == b"Nat".as_slice() {
        Some(BuiltInType::Nat)
    } else if name == b"Int".as_slice() {
        Some(BuiltInType::Int)
    } else if name == b"Nat8".as_slice() {
        Some(BuiltInType::Nat8)
    } else if name == b"Nat16".as_slice() {
        Some(BuiltInType::Nat16)
    } else if name == b"Nat32".as_slice() {
        Some(BuiltInType::Nat32)
    } else if name == b"Nat64".as_slice() {
        Some(BuiltInType::Nat64)
    } else if name == b"Int8".as_slice() {
        Some(BuiltInType::Int8)
    } else if name == b"Int16".as_slice() {
        Some(BuiltInType::Int16)
    } else if name == b"Int32".as_slice() {
        Some(BuiltInType::Int32)
    } else if name == b"Int64".as_slice() {
        Some(BuiltInType::Int64)
    } else {
        other_built_in_type(name)
    }
}

// The types that are not of numbers, which stand behind these in the list of built-in types.
fn other_built_in_type(name: &[u8]) -> Option<BuiltInType>
    ensures { result ≡ named (drop 10 built_in_types) name.now }
{
    if name == b"Bool".as_slice() {
        Some(BuiltInType::Bool)
    } else if name == b"Char".as_slice() {
        Some(BuiltInType::Char)
    } else if name == b"Text".as_slice() {
        Some(BuiltInType::Text)
    } else if name == b"Blob".as_slice() {
        Some(BuiltInType::Blob)
    } else if name == b"Principal".as_slice() {
        Some(BuiltInType::Principal)
    } else if name == b"Null".as_slice() {
        Some(BuiltInType::Null)
    } else if name == b"Any".as_slice() {
        Some(BuiltInType::Any)
    } else if name == b"None".as_slice() {
        Some(BuiltInType::None)
    } else if name == b"Error".as_slice() {
        Some(BuiltInType::Error)
    } else {
        None
    }
}

/// The module at a path.
pub fn library_of(path: &[u8]) -> Option<Library>
    ensures { result ≡ library_of path.now }
{
    if path == b"mo:base/Debug".as_slice() {
        Some(Library::Debug)
    } else if path == b"mo:base/Error".as_slice() {
        Some(Library::Error)
    } else if path == b"mo:base/Nat".as_slice() {
        Some(Library::Nat)
    } else if path == b"mo:base/Int".as_slice() {
        Some(Library::Int)
    } else if path == b"mo:base/Array".as_slice() {
        Some(Library::Array)
    } else if path == b"mo:base/Principal".as_slice() {
        Some(Library::Principal)
    } else {
        None
    }
}

/// The member of a module by its name.
pub(crate) fn member_of(library: Library, name: &[u8]) -> Option<Member>
    ensures { result ≡ named (members_of library) name.now }
{
    match library {
        Library::Debug => {
            if name == b"print".as_slice() {
                Some(Member::DebugPrint)
            } else if name == b"trap".as_slice() {
                Some(Member::DebugTrap)
            } else {
                None
            }
        }
        Library::Error => {
            if name == b"reject".as_slice() {
                Some(Member::ErrorReject)
            } else if name == b"message".as_slice() {
                Some(Member::ErrorMessage)
            } else if name == b"code".as_slice() {
                Some(Member::ErrorCode)
            } else {
                None
            }
        }
        Library::Nat => {
            if name == b"toText".as_slice() {
                Some(Member::NatToText)
            } else {
                None
            }
        }
        Library::Int => {
            if name == b"toText".as_slice() {
                Some(Member::IntToText)
            } else {
                None
            }
        }
        Library::Array => {
            if name == b"tabulate".as_slice() {
                Some(Member::ArrayTabulate)
            } else if name == b"init".as_slice() {
                Some(Member::ArrayInit)
            } else if name == b"freeze".as_slice() {
                Some(Member::ArrayFreeze)
            } else if name == b"thaw".as_slice() {
                Some(Member::ArrayThaw)
            } else {
                None
            }
        }
        Library::Principal => {
            if name == b"fromActor".as_slice() {
                Some(Member::PrincipalFromActor)
            } else {
                None
            }
        }
    }
}

/// Whether a system function may have this name.
pub fn is_system_function(name: &[u8]) -> bool
    ensures { result ≡ contains system_functions name.now }
{
    name == b"preupgrade".as_slice() || name == b"postupgrade".as_slice()
}
