//! Members of modules of the base library.
ghost use Rattle.std.specs.Prelude.{◌≡◌, List};
ghost use Rattle.std.specs.Option.{option_and_then};
ghost use Rattle.mo_scopes.specs.declared.library.Library.TheVariants as library;
ghost use Rattle.mo_scopes.specs.Scopes.{library_of, members_of, named};
ghost use Rattle.type_terms.specs.declared.form.Form.{Form};
ghost use Rattle.typing_rules.specs.Calls.{built_in};
ghost use Rattle.typing_rules.specs.Contexts.{module_member};
ghost use Rattle.abstract_tree.specs.TreeView.{plain};
ghost use Rattle.value_scopes.specs.declared.place.Place.{Place};
ghost use Rattle.value_scopes.specs.Places.{context_in};

use abstract_tree::{Expression, ExpressionForm};
use mo_scopes::{Library, Member, library_of};
use value_scopes::Scopes;

fn debug_member(name: &[u8]) -> Option<Member>
    ensures { result ≡ named (members_of library.Debug) name.now }
{
    if name == b"print".as_slice() {
        Some(Member::DebugPrint)
    } else if name == b"trap".as_slice() {
        Some(Member::DebugTrap)
    } else {
        None
    }
}

fn error_member(name: &[u8]) -> Option<Member>
    ensures { result ≡ named (members_of library.Error) name.now }
{
    if name == b"reject".as_slice() {
        Some(Member::ErrorReject)
    } else if name == b"message".as_slice() {
        Some(Member::ErrorMessage)
    } else if name == b"code".as_slice() {
        Some(Member::ErrorCode)
    } else {
        None
    }
}

fn array_member(name: &[u8]) -> Option<Member>
    ensures { result ≡ named (members_of library.Array) name.now }
{
    if name == b"tabulate".as_slice() {
        Some(Member::ArrayTabulate)
    } else if name == b"init".as_slice() {
        Some(Member::ArrayInit)
    } else if name == b"freeze".as_slice() {
        Some(Member::ArrayFreeze)
    } else if name == b"thaw".as_slice() {
        Some(Member::ArrayThaw)
    } else {
        None
    }
}

/// The member of a module by its name.
fn member_of(library: Library, name: &[u8]) -> Option<Member>
    ensures { result ≡ named (members_of library) name.now }
{
    match library {
        Library::Debug => debug_member(name),
        Library::Error => error_member(name),
        Library::Nat => {
            if name == b"toText".as_slice() {
                Some(Member::NatToText)
            } else {
                None
            }
        }
        Library::Int => {
            if name == b"toText".as_slice() {
                Some(Member::IntToText)
            } else {
                None
            }
        }
        Library::Array => array_member(name),
        Library::Principal => {
            if name == b"fromActor".as_slice() {
                Some(Member::PrincipalFromActor)
            } else {
                None
            }
        }
    }
}

/// The module that the import of a name brings in.
fn imported(scopes: &Scopes, module_name: &[u8]) -> Option<Library>
    ensures { result ≡ option_and_then library_of (named scopes.now.imports module_name.now) }
{
    match scopes.imports.find(module_name) {
        Some(path) => library_of(path.as_slice()),
        None => None,
    }
}

/// The member of a module that `module_name.name` is, where the one name stands for no value but for a module: Motoko language manual, section "Imports".
pub fn module_member(scopes: &Scopes, module_name: &[u8], name: &[u8]) -> Option<Member>
    ensures { (later : List Form) (place : Place) → module_member (context_in later scopes.now place) module_name.now name.now ≡ result }
{
    match scopes.values.find(module_name) {
        Some(_) => None,
        None => match imported(scopes, module_name) {
            Some(library) => member_of(library, name),
            None => None,
        },
    }
}

/// The member of a module that `of.name` is.
pub fn built_in(scopes: &Scopes, of: &Expression<u32>, name: &[u8]) -> Option<Member>
    ensures { (later : List Form) (place : Place) → built_in (context_in later scopes.now place) (plain of.now) name.now ≡ result }
{
    match of.form.get() {
        ExpressionForm::Name(module_name) => module_member(scopes, module_name.as_slice(), name),
        _ => None,
    }
}
