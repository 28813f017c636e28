//! The names in scope where a program begins: those of its imports, and its own.
ghost use Rattle.std.specs.Prelude.{◌≡◌, List, IfOk, OnOk, map};
ghost use Rattle.type_terms.specs.declared.form.Form.{Form};
ghost use Rattle.typing_rules.specs.DeclaredTypes.{with_list};
ghost use Rattle.typing_rules.specs.Programs.{first_context, method_fields};
ghost use Rattle.typing_rules.specs.Terms as rules;
ghost use Rattle.typing_rules.specs.TypeScopes.{no_types};
ghost use Rattle.type_definitions.specs.Tables.{Later};
ghost use Rattle.definition_rules.specs.Bounds.{Same};
ghost use Rattle.met_types.specs.States.{Kept};
ghost use Rattle.abstract_tree.specs.TreeView.{declarations, plain_declaration, plain_program};
ghost use Rattle.value_scopes.specs.Places.{context_in};
ghost use Rattle.written_types.specs.Written.{Wrote};
ghost use Rattle.judging.specs.Parts.{Known, Sound};
ghost use Rattle.first_scopes.specs.Beginning.{first_place, own_names, with_path};

use abstract_tree::{Declaration, Import, Program};
use declared_names::push_list;
use judging::Checker;
use met_types::Types;
use mo_num::{Bytes, Memory};
use object_types::actor_type;
use std::alloc::Global;
use type_scopes::TypeScope;
use type_terms::TermId;
use value_scopes::{Around, Body, Bound, NameStack, Place, Scopes, ValueScope};

/// The names of imports with their paths. Of several of one name the first is found.
fn imported(alloc: Global, list: &[Import]) -> Result<NameStack<Bytes>, Memory>
    ensures { IfOk result (λ made. made ≡ map with_path list.now) }
{
    let mut made = NameStack::new(alloc);
    let len = list.len();
    for i in 0..len {
        let one = &list[len - 1 - i];
        let path = Bytes::from_slice(alloc, one.path.as_slice())?;
        made.push(one.name.as_slice(), path)?;
    }
    Ok(made)
}

/// The name of a program, where it has one, which stands for a value of this type.
fn own_name(alloc: Global, name: &Option<Bytes>, own: TermId) -> Result<ValueScope, Memory>
    ensures { IfOk result (λ made. made ≡ own_names name.now own) }
{
    let mut made = NameStack::new(alloc);
    if let Some(name) = name {
        made.push(name.as_slice(), Bound::constant(alloc, own))?;
    }
    Ok(made)
}

/// The type of the actor with these fields, in the scope of the types that they define.
fn own_type(types: &mut Types, list: &[Declaration<u32>]) -> Result<TermId, Memory>
    requires { Kept types.old }
    ensures { IfOk result (Wrote types.old types.new (rules.Actor (method_fields (with_list no_types (declarations (map plain_declaration list.now))) (declarations (map plain_declaration list.now))))) }
{
    let mut scope = TypeScope::new(types.terms().allocator());
    push_list(&mut scope, list)?;
    match actor_type(&scope, types, list) {
        Ok(id) => Ok(id),
        Err(memory) => Err(memory),
    }
}

/// Where the fields of a program stand: in no body of a function.
pub fn first_place() -> Place
    ensures { result ≡ first_place }
{
    Place {
        returns: None,
        ends: false,
        body: Body::Local,
        around: Around::Other,
    }
}

/// The names in scope where a program begins: its imports, and its own name, which stands for the actor, by the types that are written
/// at its methods (Motoko language manual, sections "Imports", "Actors"). The types that its fields define are not yet among them.
pub fn first_scopes(checker: &mut Checker, program: &Program<u32>) -> Result<Scopes, Memory>
    requires { Known checker.old }
    ensures sound { IfOk result (Sound checker.new) }
    ensures same { OnOk result (Same checker.old.types checker.new.types) }
    ensures first { IfOk result (λ made. (later : List Form) → Later checker.new.types.forms later → context_in later made first_place ≡ first_context (plain_program program.now)) }
{
    let alloc = checker.types.terms().allocator();
    let own = own_type(&mut checker.types, program.fields.as_slice())?;
    let values = own_name(alloc, &program.name, own)?;
    let imports = imported(alloc, program.imports.as_slice())?;
    Ok(Scopes {
        values,
        imports,
        types: TypeScope::new(alloc),
        labels: NameStack::new(alloc),
    })
}
