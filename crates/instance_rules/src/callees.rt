//! Callees that are names of functions with type parameters.
ghost use Rattle.std.specs.Prelude.{◌≡◌, IfOk};
ghost use Rattle.met_types.specs.States.{Kept};
ghost use Rattle.abstract_tree.specs.TreeView.{plain};
ghost use Rattle.value_scopes.specs.Values.{Hold};
ghost use Rattle.instance_rules.specs.Callees.{FindsGeneric, IsNamed, of_callee, of_member, of_name};

use abstract_tree::{Expression, ExpressionForm};
use built_in_members::member_bound;
use met_types::Types;
use mo_num::{Bytes, Memory, Sequence};
use name_rules::built_in;
use std::alloc::Global;
use value_scopes::{Bound, Note, Scopes};

/// A function with type parameters: what its name stands for, and the form of the name.
pub struct Generic {
    pub bound: Bound,
    pub form: ExpressionForm<Note>,
}

// Written here, so that it is proved here, and not again in each crate that lets one go.
impl Drop for Generic {
    fn drop(self) {
        let Generic {
            bound: _bound,
            form: _form,
        } = self;
    }
}

impl Generic {
    /// The form of the name.
    pub fn into_form(self) -> ExpressionForm<Note>
        ensures { result ≡ self.form }
    {
        let Generic {
            bound: _bound,
            form,
        } = self;
        form
    }
}

fn copied(alloc: Global, bound: &Bound) -> Result<Bound, Memory>
    ensures { IfOk result (λ made. made ≡ bound.now) }
{
    let generics = Vec::from_slice(alloc, bound.generics.as_slice())?;
    Ok(Bound {
        kind: bound.kind,
        mutable: bound.mutable,
        generics: Sequence::from_vec(generics),
    })
}

fn named(alloc: Global, bound: &Bound, name: &[u8]) -> Result<Generic, Memory>
    ensures bound { IfOk result (λ made. made.bound ≡ bound.now) }
    ensures form { IfOk result (λ made. IsNamed name.now made.form) }
{
    let bound = copied(alloc, bound)?;
    let name = Bytes::from_slice(alloc, name)?;
    Ok(Generic {
        bound,
        form: ExpressionForm::Name(name),
    })
}

/// A name of a value.
fn of_name(types: &mut Types, scopes: &Scopes, name: &[u8]) -> Result<Option<Generic>, Memory>
    requires kept { Kept types.old }
    requires hold { Hold types.old.forms scopes.now.values }
    ensures { IfOk result (λ found. FindsGeneric types.old (of_name scopes.now name.now) found types.new) }
{
    match scopes.values.find(name) {
        Some(bound) => {
            if bound.generics.is_empty() {
                Ok(None)
            } else {
                Ok(Some(named(types.terms().allocator(), bound, name)?))
            }
        }
        None => Ok(None),
    }
}

/// A member of a module.
fn of_member(
    types: &mut Types,
    scopes: &Scopes,
    of: &Expression<u32>,
    name: &[u8],
) -> Result<Option<Generic>, Memory>
    requires { Kept types.old }
    ensures { IfOk result (λ found. FindsGeneric types.old (of_member scopes.now (plain of.now) name.now) found types.new) }
{
    match built_in(scopes, of, name) {
        Some(member) => {
            let bound = member_bound(types, member)?;
            if bound.generics.is_empty() {
                Ok(None)
            } else {
                Ok(Some(Generic {
                    bound,
                    form: ExpressionForm::BuiltIn(member),
                }))
            }
        }
        None => Ok(None),
    }
}

/// The function with type parameters that a callee is, where it is a name of one, or a member of a module that is one: Motoko language
/// manual, sections "Function calls" and "Type parameters".
pub fn polymorphic(
    types: &mut Types,
    scopes: &Scopes,
    callee: &Expression<u32>,
) -> Result<Option<Generic>, Memory>
    requires kept { Kept types.old }
    requires hold { Hold types.old.forms scopes.now.values }
    ensures { IfOk result (λ found. FindsGeneric types.old (of_callee scopes.now (plain callee.now)) found types.new) }
{
    match callee.form.get() {
        ExpressionForm::Name(name) => of_name(types, scopes, name.as_slice()),
        ExpressionForm::Member(of, name) => of_member(types, scopes, of, name.as_slice()),
        _ => Ok(None),
    }
}
