//! The layers of declarations: each is walked over the walk of the parts in it.
ghost use Rattle.std.specs.Prelude.{◌≡◌, ◌++◌, OnOk, map, Option, None};
ghost use Rattle.mo_scopes.specs.Findings.{identifier};
ghost use Rattle.mo_pattern_names.specs.PatternNames.{in_pattern, whole};
ghost use Rattle.mo_name_walk.specs.PartNames.{Walks};
ghost use Rattle.mo_bindings.specs.ExpressionNames.{in_expression, in_declaration, in_member, each_declared, each_member, annotation, function, object, alias};

use crate::layers::Layers;
use mo_bindings::{Part, enter_alias, enter_function};
use mo_name_table::Names;
use mo_num::Memory;
use mo_pattern_names::Walk;
use mo_scopes::{Findings, Scope, identifier};
use mo_syntax::{
    Declaration, DeclarationField, Expression, Items, Name, Node, Parameters, Pattern,
    TypeExpression, TypeParameter,
};

// A definition of a type.
#[tactic(auto, using(mo_scopes::proofs::Scoping::seam))]
fn type_alias(
    walk: Walk,
    name: &Name,
    names: &Option<Items<Name>>,
    kind: &TypeExpression,
    scope: &mut Scope,
    found: &mut Findings,
) -> Result<(), Memory>
    ensures found { OnOk result (found.new ≡ found.old ++ (identifier name.now ++ alias names.now kind.now scope.old)) }
    ensures kept { OnOk result (scope.new ≡ scope.old) }
{
    identifier(name, found)?;
    let types = scope.types.len();
    enter_alias(walk, names, scope, found)?;
    walk.type_expression(kind, scope, found)?;
    scope.forget_types(types);
    Ok(())
}

impl<F: Fn(Walk, usize, Part<'_>, &mut Scope, &mut Findings) -> Result<(), Memory>> Layers<F> {
    pub(crate) fn each_declared(
        &self,
        declarations: &[Node<Declaration>],
        scope: &mut Scope,
        found: &mut Findings,
    ) -> Result<(), Memory>
        requires { Walks self.now.walk self.now.depth (F.pre self.now.parts) (F.post self.now.parts) }
        ensures found { OnOk result (found.new ≡ found.old ++ (each_declared (map in_declaration declarations.now) scope.old)) }
        ensures kept { OnOk result (scope.new ≡ scope.old) }
    {
        for one in declarations {
            self.declared_part(one.get(), scope, found)?;
        }
        Ok(())
    }

    pub(crate) fn each_member(
        &self,
        fields: &[Node<DeclarationField>],
        scope: &mut Scope,
        found: &mut Findings,
    ) -> Result<(), Memory>
        requires { Walks self.now.walk self.now.depth (F.pre self.now.parts) (F.post self.now.parts) }
        ensures found { OnOk result (found.new ≡ found.old ++ (each_member (map in_member fields.now) scope.old)) }
        ensures kept { OnOk result (scope.new ≡ scope.old) }
    {
        for one in fields {
            self.member(one.get(), scope, found)?;
        }
        Ok(())
    }

    #[tactic(auto, unfolding(mo_bindings::specs::ExpressionNames::in_declaration, mo_bindings::specs::ExpressionNames::in_expression, mo_bindings::specs::ExpressionNames::in_member, mo_bindings::specs::ExpressionNames::in_case, mo_bindings::specs::ExpressionNames::in_field))]
    fn member(
        &self,
        field: &DeclarationField,
        scope: &mut Scope,
        found: &mut Findings,
    ) -> Result<(), Memory>
        requires { Walks self.now.walk self.now.depth (F.pre self.now.parts) (F.post self.now.parts) }
        ensures found { OnOk result (found.new ≡ found.old ++ ((in_member field.now).finds scope.old)) }
        ensures kept { OnOk result (scope.new ≡ scope.old) }
    {
        self.declared_part(field.declaration.get(), scope, found)
    }

    #[tactic(auto, unfolding(mo_bindings::specs::ExpressionNames::in_declaration, mo_bindings::specs::ExpressionNames::in_expression, mo_bindings::specs::ExpressionNames::in_member, mo_bindings::specs::ExpressionNames::in_case, mo_bindings::specs::ExpressionNames::in_field))]
    pub(crate) fn declaration(
        &self,
        declaration: &Declaration,
        scope: &mut Scope,
        found: &mut Findings,
    ) -> Result<(), Memory>
        requires { Walks self.now.walk self.now.depth (F.pre self.now.parts) (F.post self.now.parts) }
        ensures found { OnOk result (found.new ≡ found.old ++ ((in_declaration declaration.now).finds scope.old)) }
        ensures kept { OnOk result (scope.new ≡ scope.old) }
    {
        match declaration {
            Declaration::Let(p, a) => self.let_in(p.get(), a.get(), scope, found),
            Declaration::Var(name, kind, a) => self.variable(name, kind, a.get(), scope, found),
            Declaration::Func(name, generics, parameters, kind, _, body) => {
                self.named_function(name, generics, parameters, kind, body.get(), scope, found)
            }
            Declaration::TypeAlias(name, names, kind) => {
                type_alias(self.walk, name, names, kind.get(), scope, found)
            }
            Declaration::Class(name, generics, parameters, fields, _) => {
                self.class(name, generics, parameters, fields.as_slice(), scope, found)
            }
            Declaration::NamedObject(name, fields, _) => {
                self.named_object(name, fields.as_slice(), scope, found)
            }
            Declaration::Evaluate(a) => self.part(a.get(), scope, found),
        }
    }

    fn let_in(
        &self,
        p: &Pattern,
        a: &Expression,
        scope: &mut Scope,
        found: &mut Findings,
    ) -> Result<(), Memory>
        requires { Walks self.now.walk self.now.depth (F.pre self.now.parts) (F.post self.now.parts) }
        ensures found { OnOk result (found.new ≡ found.old ++ (whole (in_pattern p.now) scope.old ++ (in_expression a.now).finds scope.old)) }
        ensures kept { OnOk result (scope.new ≡ scope.old) }
    {
        let mut names = Names::new(self.walk.alloc);
        self.walk.whole_pattern(p, scope, &mut names, found)?;
        self.part(a, scope, found)
    }

    fn variable(
        &self,
        name: &Name,
        kind: &Option<Node<TypeExpression>>,
        a: &Expression,
        scope: &mut Scope,
        found: &mut Findings,
    ) -> Result<(), Memory>
        requires { Walks self.now.walk self.now.depth (F.pre self.now.parts) (F.post self.now.parts) }
        ensures found { OnOk result (found.new ≡ found.old ++ (identifier name.now ++ (annotation kind.now scope.old ++ (in_expression a.now).finds scope.old))) }
        ensures kept { OnOk result (scope.new ≡ scope.old) }
    {
        identifier(name, found)?;
        self.walk.annotation(kind, scope, found)?;
        self.part(a, scope, found)
    }

    fn named_function(
        &self,
        name: &Name,
        generics: &Option<Items<TypeParameter>>,
        parameters: &Parameters,
        kind: &Option<Node<TypeExpression>>,
        body: &Expression,
        scope: &mut Scope,
        found: &mut Findings,
    ) -> Result<(), Memory>
        requires { Walks self.now.walk self.now.depth (F.pre self.now.parts) (F.post self.now.parts) }
        ensures found { OnOk result (found.new ≡ found.old ++ (identifier name.now ++ function generics.now parameters.now kind.now (in_expression body.now).finds scope.old)) }
        ensures kept { OnOk result (scope.new ≡ scope.old) }
    {
        identifier(name, found)?;
        self.function(generics, parameters, kind, body, scope, found)
    }

    #[tactic(auto, using(mo_scopes::proofs::Scoping::seam, mo_scopes::proofs::Scoping::seam_twice))]
    fn class(
        &self,
        name: &Name,
        generics: &Option<Items<TypeParameter>>,
        parameters: &Parameters,
        fields: &[Node<DeclarationField>],
        scope: &mut Scope,
        found: &mut Findings,
    ) -> Result<(), Memory>
        requires { Walks self.now.walk self.now.depth (F.pre self.now.parts) (F.post self.now.parts) }
        ensures found { OnOk result (found.new ≡ found.old ++ (identifier name.now ++ function generics.now parameters.now None (object (map in_member fields.now)) scope.old)) }
        ensures kept { OnOk result (scope.new ≡ scope.old) }
    {
        identifier(name, found)?;
        let values = scope.values.len();
        let types = scope.types.len();
        let loops = scope.hide_loops(self.walk.alloc);
        enter_function(self.walk, generics, parameters, &None, scope, found)?;
        self.object(fields, scope, found)?;
        scope.leave(values, types, loops);
        Ok(())
    }

    fn named_object(
        &self,
        name: &Name,
        fields: &[Node<DeclarationField>],
        scope: &mut Scope,
        found: &mut Findings,
    ) -> Result<(), Memory>
        requires { Walks self.now.walk self.now.depth (F.pre self.now.parts) (F.post self.now.parts) }
        ensures found { OnOk result (found.new ≡ found.old ++ (identifier name.now ++ object (map in_member fields.now) scope.old)) }
        ensures kept { OnOk result (scope.new ≡ scope.old) }
    {
        identifier(name, found)?;
        self.object(fields, scope, found)
    }
}
