//! The rules of names in a program.
ghost use Rattle.std.specs.Prelude.{◌≡◌, ◌++◌, ◌∷◌, [], OnOk, IfOk, map, not, is_none};
ghost use Rattle.std.specs.List.{flat_map};
ghost use Rattle.mo_name_table.specs.Places.{texts};
ghost use Rattle.mo_scopes.specs.Findings.{identifier, together, labels, each_identifier};
ghost use Rattle.mo_scopes.specs.Scopes.{library_of, with_values};
ghost use Rattle.mo_pattern_names.specs.PatternNames.{whole};
ghost use Rattle.mo_bindings.specs.ExpressionNames.{header, header_scope, body_scope};
ghost use Rattle.mo_names.specs.ProgramNames.{in_import, in_context, in_prefix, shared_function, in_actor_field, field_values, field_types, field_methods, field_systems, field_stables, actor_names, name_of, import_names, program_scope, in_actor, findings};

use mo_bindings::{declared_types, declared_values};
use mo_name_table::{NameTable, Names, push_copy};
use mo_name_walk::{find_in_declaration, find_in_expression};
use mo_num::{Memory, Sequence};
use mo_pattern_names::Walk;
use mo_scopes::{
    Findings, Library, Rule, Scope, broken_where, each_identifier, identifier, is_system_function,
    label, labels, library_of, together,
};
use mo_syntax::{Actor, ActorField, Context, Import, Node, SharedFunction, SharedPrefix, Tree};
use std::alloc::Global;

/// A walk over a program.
#[derive(Clone, Copy)]
struct ProgramWalk {
    walk: Walk,
}

impl ProgramWalk {
    fn import(self, import: &Import, found: &mut Findings) -> Result<(), Memory>
        ensures { OnOk result (found.new ≡ found.old ++ in_import import.now) }
    {
        identifier(&import.name, found)?;
        let library = library_of(import.path.as_slice());
        broken_where(library.is_none(), Rule::Unknown, import.path.place(), found)
    }

    fn each_import(self, imports: &[Node<Import>], found: &mut Findings) -> Result<(), Memory>
        ensures { OnOk result (found.new ≡ found.old ++ flat_map in_import imports.now) }
    {
        for one in imports {
            self.import(one.get(), found)?;
        }
        Ok(())
    }

    /// The names of the imports.
    fn import_names(self, imports: &[Node<Import>]) -> Result<Names, Memory>
        ensures { IfOk result (λ made. made ≡ import_names imports.now) }
    {
        let mut names = Names::new(self.walk.alloc);
        for one in imports {
            push_copy(self.walk.alloc, &mut names, &one.get().name)?;
        }
        Ok(names)
    }

    /// What the imports bring in.
    fn libraries_of(self, imports: &[Node<Import>]) -> Result<Sequence<Option<Library>>, Memory>
        ensures { IfOk result (λ made. made ≡ map (λ x. library_of x.path.bytes) imports.now) }
    {
        let mut libraries = Sequence::new(self.walk.alloc);
        for one in imports {
            libraries.push(library_of(one.get().path.as_slice()))?;
        }
        Ok(libraries)
    }

    fn context(
        self,
        context: &Option<Context>,
        scope: &Scope,
        names: &mut Names,
        found: &mut Findings,
    ) -> Result<(), Memory>
        ensures found { OnOk result (found.new ≡ found.old ++ (in_context context.now).finds scope.now) }
        ensures names { OnOk result (names.new ≡ names.old ++ (in_context context.now).names) }
    {
        match context {
            None => Ok(()),
            Some(Context::Parenthesized(p)) => self.walk.pattern(p.get(), scope, names, found),
            Some(Context::Object(fields, _)) => {
                self.walk
                    .pattern_fields(fields.as_slice(), scope, names, found)
            }
        }
    }

    fn prefix(
        self,
        prefix: &Option<SharedPrefix>,
        scope: &Scope,
        names: &mut Names,
        found: &mut Findings,
    ) -> Result<(), Memory>
        ensures found { OnOk result (found.new ≡ found.old ++ (in_prefix prefix.now).finds scope.now) }
        ensures names { OnOk result (names.new ≡ names.old ++ (in_prefix prefix.now).names) }
    {
        match prefix {
            None => Ok(()),
            Some(prefix) => self.context(&prefix.context, scope, names, found),
        }
    }

    /// Adds the names of the context of a call.
    fn enter_prefix(
        self,
        prefix: &Option<SharedPrefix>,
        scope: &mut Scope,
        found: &mut Findings,
    ) -> Result<(), Memory>
        ensures found { OnOk result (found.new ≡ found.old ++ whole (in_prefix prefix.now) scope.old) }
        ensures entered { OnOk result (scope.new ≡ with_values (in_prefix prefix.now).names scope.old) }
    {
        let mut names = Names::new(self.walk.alloc);
        self.prefix(prefix, scope, &mut names, found)?;
        together(self.walk.alloc, names.as_slice(), found)?;
        scope.add_values(names)
    }

    /// Adds the parameters of a public function.
    fn enter_shared(
        self,
        function: &SharedFunction,
        scope: &mut Scope,
        found: &mut Findings,
    ) -> Result<(), Memory>
        requires { scope.old.loops ≡ [] }
        ensures found { OnOk result (found.new ≡ found.old ++ header None function.now.parameters (Some function.now.result) (header_scope None scope.old)) }
        ensures entered { OnOk result (scope.new ≡ body_scope None function.now.parameters scope.old) }
    {
        scope.add_types(Names::new(self.walk.alloc))?;
        let mut values = Names::new(self.walk.alloc);
        self.walk
            .whole_parameters(&function.parameters, scope, &mut values, found)?;
        self.walk
            .type_expression(function.result.get(), scope, found)?;
        scope.add_values(values)
    }

    #[tactic(auto, using(mo_scopes::proofs::Scoping::seam, mo_scopes::proofs::Scoping::seam_twice))]
    fn shared_function(
        self,
        function: &SharedFunction,
        scope: &mut Scope,
        found: &mut Findings,
    ) -> Result<(), Memory>
        ensures found { OnOk result (found.new ≡ found.old ++ shared_function function.now scope.old) }
        ensures kept { OnOk result (scope.new ≡ scope.old) }
    {
        let values = scope.values.len();
        let types = scope.types.len();
        self.enter_prefix(&function.prefix, scope, found)?;
        label(&function.name, found)?;
        let loops = scope.hide_loops(self.walk.alloc);
        self.enter_shared(function, scope, found)?;
        find_in_expression(self.walk, function.body.get(), scope, found)?;
        scope.leave(values, types, loops);
        Ok(())
    }

    fn actor_field(
        self,
        field: &ActorField,
        scope: &mut Scope,
        found: &mut Findings,
    ) -> Result<(), Memory>
        ensures found { OnOk result (found.new ≡ found.old ++ in_actor_field scope.old field.now) }
        ensures kept { OnOk result (scope.new ≡ scope.old) }
    {
        match field {
            ActorField::Public(function) => self.shared_function(function.get(), scope, found),
            ActorField::System(name, _, body) => {
                identifier(name, found)?;
                let is_other = !is_system_function(name.as_slice());
                broken_where(is_other, Rule::Unknown, name.place(), found)?;
                find_in_expression(self.walk, body.get(), scope, found)
            }
            ActorField::Declared(_, declaration) => {
                find_in_declaration(self.walk, declaration.get(), scope, found)
            }
            ActorField::Stable(_, name, kind, a) => {
                label(name, found)?;
                self.walk.annotation(kind, scope, found)?;
                find_in_expression(self.walk, a.get(), scope, found)
            }
        }
    }

    fn each_actor_field(
        self,
        fields: &[Node<ActorField>],
        scope: &mut Scope,
        found: &mut Findings,
    ) -> Result<(), Memory>
        ensures { OnOk result (found.new ≡ found.old ++ flat_map (in_actor_field scope.old) fields.now) }
    {
        for one in fields {
            self.actor_field(one.get(), scope, found)?;
        }
        Ok(())
    }

    fn field_values(self, field: &ActorField, names: &mut Names) -> Result<(), Memory>
        ensures { OnOk result (names.new ≡ names.old ++ field_values field.now) }
    {
        match field {
            ActorField::Public(function) => push_copy(self.walk.alloc, names, &function.get().name),
            ActorField::System(_, _, _) => Ok(()),
            ActorField::Declared(_, declaration) => {
                declared_values(self.walk.alloc, declaration.get(), names)
            }
            ActorField::Stable(_, name, _, _) => push_copy(self.walk.alloc, names, name),
        }
    }

    fn field_types(self, field: &ActorField, names: &mut Names) -> Result<(), Memory>
        ensures { OnOk result (names.new ≡ names.old ++ field_types field.now) }
    {
        match field {
            ActorField::Declared(_, declaration) => declared_types(
                self.walk.alloc,
                declaration.get(),
                names,
            ),
            _ => Ok(()),
        }
    }

    fn add_values(self, fields: &[Node<ActorField>], names: &mut Names) -> Result<(), Memory>
        ensures { OnOk result (names.new ≡ names.old ++ flat_map field_values fields.now) }
    {
        for one in fields {
            self.field_values(one.get(), names)?;
        }
        Ok(())
    }

    fn all_values(self, fields: &[Node<ActorField>]) -> Result<Names, Memory>
        ensures { IfOk result (λ made. made ≡ flat_map field_values fields.now) }
    {
        let mut names = Names::new(self.walk.alloc);
        self.add_values(fields, &mut names)?;
        Ok(names)
    }

    fn all_types(self, fields: &[Node<ActorField>]) -> Result<Names, Memory>
        ensures { IfOk result (λ made. made ≡ flat_map field_types fields.now) }
    {
        let mut names = Names::new(self.walk.alloc);
        for one in fields {
            self.field_types(one.get(), &mut names)?;
        }
        Ok(names)
    }

    fn method_names(self, fields: &[Node<ActorField>]) -> Result<Names, Memory>
        ensures { IfOk result (λ made. made ≡ flat_map field_methods fields.now) }
    {
        let mut names = Names::new(self.walk.alloc);
        for one in fields {
            if let ActorField::Public(function) = one.get() {
                push_copy(self.walk.alloc, &mut names, &function.get().name)?;
            }
        }
        Ok(names)
    }

    fn system_names(self, fields: &[Node<ActorField>]) -> Result<Names, Memory>
        ensures { IfOk result (λ made. made ≡ flat_map field_systems fields.now) }
    {
        let mut names = Names::new(self.walk.alloc);
        for one in fields {
            if let ActorField::System(name, _, _) = one.get() {
                push_copy(self.walk.alloc, &mut names, name)?;
            }
        }
        Ok(names)
    }

    fn stable_names(self, fields: &[Node<ActorField>]) -> Result<Names, Memory>
        ensures { IfOk result (λ made. made ≡ flat_map field_stables fields.now) }
    {
        let mut names = Names::new(self.walk.alloc);
        for one in fields {
            if let ActorField::Stable(_, name, _, _) = one.get() {
                push_copy(self.walk.alloc, &mut names, name)?;
            }
        }
        Ok(names)
    }

    fn actor_names(self, fields: &[Node<ActorField>], found: &mut Findings) -> Result<(), Memory>
        ensures { OnOk result (found.new ≡ found.old ++ actor_names fields.now) }
    {
        let values = self.all_values(fields)?;
        together(self.walk.alloc, values.as_slice(), found)?;
        let types = self.all_types(fields)?;
        together(self.walk.alloc, types.as_slice(), found)?;
        let systems = self.system_names(fields)?;
        together(self.walk.alloc, systems.as_slice(), found)?;
        let methods = self.method_names(fields)?;
        labels(self.walk.alloc, methods.as_slice(), found)?;
        let stables = self.stable_names(fields)?;
        labels(self.walk.alloc, stables.as_slice(), found)
    }

    fn actor_name(self, actor: &Actor) -> Result<Names, Memory>
        ensures { IfOk result (λ made. made ≡ name_of actor.now.name) }
    {
        let mut names = Names::new(self.walk.alloc);
        match &actor.name {
            None => Ok(names),
            Some(name) => {
                push_copy(self.walk.alloc, &mut names, name)?;
                Ok(names)
            }
        }
    }

    /// The names of the imports and of the actor.
    fn program_names(self, imports: &[Node<Import>], actor: &Actor) -> Result<Names, Memory>
        ensures { IfOk result (λ made. made ≡ import_names imports.now ++ name_of actor.now.name) }
    {
        let mut names = self.import_names(imports)?;
        if let Some(name) = &actor.name {
            push_copy(self.walk.alloc, &mut names, name)?;
        }
        Ok(names)
    }

    /// The name of the actor, and the values of its fields.
    fn actor_values(self, actor: &Actor) -> Result<Names, Memory>
        ensures { IfOk result (λ made. made ≡ name_of actor.now.name ++ flat_map field_values actor.now.fields) }
    {
        let mut names = self.actor_name(actor)?;
        self.add_values(actor.fields.as_slice(), &mut names)?;
        Ok(names)
    }

    fn program_scope(self, imports: &[Node<Import>], actor: &Actor) -> Result<Scope, Memory>
        ensures { IfOk result (λ made. made ≡ program_scope imports.now actor.now) }
    {
        let values = self.actor_values(actor)?;
        let imported = self.import_names(imports)?;
        let types = self.all_types(actor.fields.as_slice())?;
        Ok(Scope {
            values: NameTable::from_names(self.walk.alloc, values)?,
            imports: NameTable::from_names(self.walk.alloc, imported)?,
            libraries: self.libraries_of(imports)?,
            types: NameTable::from_names(self.walk.alloc, types)?,
            loops: NameTable::new(self.walk.alloc),
        })
    }

    fn actor_fields(
        self,
        imports: &[Node<Import>],
        actor: &Actor,
        found: &mut Findings,
    ) -> Result<(), Memory>
        ensures { OnOk result (found.new ≡ found.old ++ flat_map (in_actor_field (program_scope imports.now actor.now)) actor.now.fields) }
    {
        let mut scope = self.program_scope(imports, actor)?;
        self.each_actor_field(actor.fields.as_slice(), &mut scope, found)
    }

    #[tactic(auto, unfolding(crate::specs::ProgramNames::in_actor))]
    fn actor(
        self,
        imports: &[Node<Import>],
        actor: &Actor,
        found: &mut Findings,
    ) -> Result<(), Memory>
        ensures { OnOk result (found.new ≡ found.old ++ in_actor imports.now actor.now) }
    {
        self.actor_names(actor.fields.as_slice(), found)?;
        self.actor_fields(imports, actor, found)
    }

    /// The rules on the names of the imports and of the actor.
    fn outer_names(
        self,
        imports: &[Node<Import>],
        actor: &Actor,
        found: &mut Findings,
    ) -> Result<(), Memory>
        ensures { OnOk result (found.new ≡ found.old ++ (flat_map in_import imports.now ++ (together (import_names imports.now ++ name_of actor.now.name) ++ each_identifier (name_of actor.now.name)))) }
    {
        self.each_import(imports, found)?;
        let names = self.program_names(imports, actor)?;
        together(self.walk.alloc, names.as_slice(), found)?;
        let name = self.actor_name(actor)?;
        each_identifier(name.as_slice(), found)
    }
}

/// What the names of a program mean, in the order of the source, and the rules that they break (Motoko language manual, "Identifiers"): each that is
/// used has a meaning, none is bound twice in one list, pattern or type, no labels clash, and none is reserved. Whether a value is used before it is defined is not
/// tested here. The one error is that there is no memory.
pub fn find_names(alloc: Global, tree: &Tree) -> Result<Findings, Memory>
    ensures { IfOk result (λ found. found ≡ findings tree.now) }
{
    let walk = ProgramWalk {
        walk: Walk { alloc },
    };
    let imports = tree.imports.as_slice();
    let actor = tree.actor.get();
    let mut found = Findings::new(alloc);
    walk.outer_names(imports, actor, &mut found)?;
    walk.actor(imports, actor, &mut found)?;
    Ok(found)
}
