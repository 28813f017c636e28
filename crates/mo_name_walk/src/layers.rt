//! The layers of expressions: each is walked over the walk of the parts in it.
ghost use Rattle.std.specs.Prelude.{◌≡◌, ◌++◌, ◌∷◌, [], OnOk, map, option_map, Option};
ghost use Rattle.mo_scopes.specs.Findings.{identifier, label, labels, used, each, each_within};
ghost use Rattle.mo_scopes.specs.Scopes.{loop_meaning, value_meaning, member_meaning, member_fault, with_loop, with_values};
ghost use Rattle.mo_pattern_names.specs.TypeNames.{each_entry, names_of, in_type};
ghost use Rattle.mo_pattern_names.specs.PatternNames.{in_pattern, whole};
ghost use Rattle.mo_name_walk.specs.PartNames.{Walks};
ghost use Rattle.mo_bindings.specs.ExpressionNames.{in_expression, in_declaration, in_member, in_case, in_field, each_whole, annotation, function, object, block, scoped, bound, optional, operand, field_value};

use mo_bindings::{Part, enter_block, enter_function, enter_loop, enter_object};
use mo_name_table::{Names, push_copy};
use mo_num::Memory;
use mo_pattern_names::Walk;
use mo_scopes::{Findings, Scope, identifier, label, labels, used};
use mo_syntax::{
    Case, Declaration, DeclarationField, Expression, ExpressionField, Items, Name, Node,
    Parameters, Pattern, TypeExpression, TypeParameter,
};

/// The name that an expression is.
#[tactic(auto, unfolding(mo_bindings::specs::ExpressionNames::in_declaration, mo_bindings::specs::ExpressionNames::in_expression, mo_bindings::specs::ExpressionNames::in_member, mo_bindings::specs::ExpressionNames::in_case, mo_bindings::specs::ExpressionNames::in_field))]
fn name_of(a: &Expression) -> Option<&Name>
    ensures { option_map (λ n. n.now) result ≡ (in_expression a.now).head }
{
    match a {
        Expression::Variable(name) => Some(name),
        _ => None,
    }
}

// A use of a value.
fn value_name(name: &Name, scope: &Scope, found: &mut Findings) -> Result<(), Memory>
    ensures { OnOk result (found.new ≡ found.old ++ (identifier name.now ++ used (value_meaning scope.now name.now.bytes) name.now)) }
{
    identifier(name, found)?;
    used(scope.value_meaning(name), name, found)
}

// A use of the label of a loop.
fn loop_name(name: &Name, scope: &Scope, found: &mut Findings) -> Result<(), Memory>
    ensures { OnOk result (found.new ≡ found.old ++ (identifier name.now ++ used (loop_meaning scope.now name.now.bytes) name.now)) }
{
    identifier(name, found)?;
    used(scope.loop_meaning(name), name, found)
}

// A use of a value or module before a dot.
fn member_name(
    object: &Name,
    name: &Name,
    scope: &Scope,
    found: &mut Findings,
) -> Result<(), Memory>
    ensures { OnOk result (found.new ≡ found.old ++ (identifier object.now ++ used (member_meaning scope.now object.now.bytes name.now.bytes) (member_fault scope.now object.now name.now))) }
{
    identifier(object, found)?;
    let unknown = scope.member_fault(object, name);
    used(scope.member_meaning(object, name), unknown, found)
}

/// The walk of one layer. That of the parts in it is a parameter, so that each function is proved by itself.
#[derive(Clone, Copy)]
pub(crate) struct Layers<F> {
    pub walk: Walk,
    pub depth: usize,
    pub parts: F,
}

impl<F: Fn(Walk, usize, Part<'_>, &mut Scope, &mut Findings) -> Result<(), Memory>> Layers<F> {
    pub(crate) fn part(
        &self,
        a: &Expression,
        scope: &mut Scope,
        found: &mut Findings,
    ) -> Result<(), Memory>
        requires { Walks self.now.walk self.now.depth (F.pre self.now.parts) (F.post self.now.parts) }
        ensures found { OnOk result (found.new ≡ found.old ++ ((in_expression a.now).finds scope.old)) }
        ensures kept { OnOk result (scope.new ≡ scope.old) }
    {
        (self.parts)(self.walk, self.depth, Part::Expression(a), scope, found)
    }

    pub(crate) fn declared_part(
        &self,
        declaration: &Declaration,
        scope: &mut Scope,
        found: &mut Findings,
    ) -> Result<(), Memory>
        requires { Walks self.now.walk self.now.depth (F.pre self.now.parts) (F.post self.now.parts) }
        ensures found { OnOk result (found.new ≡ found.old ++ ((in_declaration declaration.now).finds scope.old)) }
        ensures kept { OnOk result (scope.new ≡ scope.old) }
    {
        (self.parts)(
            self.walk,
            self.depth,
            Part::Declaration(declaration),
            scope,
            found,
        )
    }

    #[tactic(auto, unfolding(mo_bindings::specs::ExpressionNames::in_declaration, mo_bindings::specs::ExpressionNames::in_expression, mo_bindings::specs::ExpressionNames::in_member, mo_bindings::specs::ExpressionNames::in_case, mo_bindings::specs::ExpressionNames::in_field))]
    pub(crate) fn expression(
        &self,
        a: &Expression,
        scope: &mut Scope,
        found: &mut Findings,
    ) -> Result<(), Memory>
        requires { Walks self.now.walk self.now.depth (F.pre self.now.parts) (F.post self.now.parts) }
        ensures found { OnOk result (found.new ≡ found.old ++ ((in_expression a.now).finds scope.old)) }
        ensures kept { OnOk result (scope.new ≡ scope.old) }
    {
        match a {
            Expression::Assign(_, a, b) => self.both(a.get(), b.get(), scope, found),
            Expression::Annotated(a, kind) => self.annotated(a.get(), kind.get(), scope, found),
            Expression::Binary(_, a, b) => self.both(a.get(), b.get(), scope, found),
            Expression::If(condition, a, otherwise) => {
                self.choice(condition.get(), a.get(), otherwise, scope, found)
            }
            Expression::Switch(a, cases, _) => self.switch(a.get(), cases.as_slice(), scope, found),
            Expression::While(condition, a) => self.both(condition.get(), a.get(), scope, found),
            Expression::Loop(a, condition) => self.repeated(a.get(), condition, scope, found),
            Expression::For(p, a, b) => self.each_of(p.get(), a.get(), b.get(), scope, found),
            Expression::Label(name, kind, a) => self.labelled(name, kind, a.get(), scope, found),
            Expression::Break(name, a) => self.leaving(name, a, scope, found),
            Expression::Continue(name) => loop_name(name, scope, found),
            Expression::Return(a) => self.optional(a, scope, found),
            Expression::Do(a) => self.part(a.get(), scope, found),
            Expression::DoOptional(a) => self.part(a.get(), scope, found),
            Expression::Await(a) => self.part(a.get(), scope, found),
            Expression::Throw(a) => self.part(a.get(), scope, found),
            Expression::Try(a, p, b) => self.attempt(a.get(), p.get(), b.get(), scope, found),
            Expression::Assert(a) => self.part(a.get(), scope, found),
            Expression::Ignore(a) => self.part(a.get(), scope, found),
            Expression::Debug(a) => self.part(a.get(), scope, found),
            Expression::Function(parameters, kind, _, body) => {
                self.function(&None, parameters, kind, body.get(), scope, found)
            }
            Expression::ObjectBlock(fields, _) => self.object(fields.as_slice(), scope, found),
            Expression::Optional(a) => self.part(a.get(), scope, found),
            Expression::Negative(a) => self.part(a.get(), scope, found),
            Expression::Not(a) => self.part(a.get(), scope, found),
            Expression::Tagged(name, payload) => self.tagged(name, payload, scope, found),
            Expression::Member(a, name) => self.member_of(a.get(), name, scope, found),
            Expression::Projection(a, _) => self.part(a.get(), scope, found),
            Expression::Index(a, b) => self.both(a.get(), b.get(), scope, found),
            Expression::Call(a, types, arguments) => {
                self.call(a.get(), types, arguments.as_slice(), scope, found)
            }
            Expression::Bang(a) => self.part(a.get(), scope, found),
            Expression::Constant(_) => Ok(()),
            Expression::Variable(name) => value_name(name, scope, found),
            Expression::Parenthesized(items) => self.expressions(items.as_slice(), scope, found),
            Expression::Array(_, items) => self.expressions(items.as_slice(), scope, found),
            Expression::Object(fields, _) => self.expression_fields(
                fields.as_slice(),
                scope,
                found,
            ),
            Expression::ActorReference(_, _) => Ok(()),
            Expression::Block(declarations, _) => self.block(declarations.as_slice(), scope, found),
        }
    }

    fn both(
        &self,
        a: &Expression,
        b: &Expression,
        scope: &mut Scope,
        found: &mut Findings,
    ) -> Result<(), Memory>
        requires { Walks self.now.walk self.now.depth (F.pre self.now.parts) (F.post self.now.parts) }
        ensures found { OnOk result (found.new ≡ found.old ++ ((in_expression a.now).finds scope.old ++ (in_expression b.now).finds scope.old)) }
        ensures kept { OnOk result (scope.new ≡ scope.old) }
    {
        self.part(a, scope, found)?;
        self.part(b, scope, found)
    }

    fn annotated(
        &self,
        a: &Expression,
        kind: &TypeExpression,
        scope: &mut Scope,
        found: &mut Findings,
    ) -> Result<(), Memory>
        requires { Walks self.now.walk self.now.depth (F.pre self.now.parts) (F.post self.now.parts) }
        ensures found { OnOk result (found.new ≡ found.old ++ ((in_expression a.now).finds scope.old ++ in_type kind.now scope.old)) }
        ensures kept { OnOk result (scope.new ≡ scope.old) }
    {
        self.part(a, scope, found)?;
        self.walk.type_expression(kind, scope, found)
    }

    fn optional(
        &self,
        a: &Option<Node<Expression>>,
        scope: &mut Scope,
        found: &mut Findings,
    ) -> Result<(), Memory>
        requires { Walks self.now.walk self.now.depth (F.pre self.now.parts) (F.post self.now.parts) }
        ensures found { OnOk result (found.new ≡ found.old ++ (optional (option_map in_expression a.now) scope.old)) }
        ensures kept { OnOk result (scope.new ≡ scope.old) }
    {
        match a {
            None => Ok(()),
            Some(a) => self.part(a.get(), scope, found),
        }
    }

    fn repeated(
        &self,
        a: &Expression,
        condition: &Option<Node<Expression>>,
        scope: &mut Scope,
        found: &mut Findings,
    ) -> Result<(), Memory>
        requires { Walks self.now.walk self.now.depth (F.pre self.now.parts) (F.post self.now.parts) }
        ensures found { OnOk result (found.new ≡ found.old ++ ((in_expression a.now).finds scope.old ++ optional (option_map in_expression condition.now) scope.old)) }
        ensures kept { OnOk result (scope.new ≡ scope.old) }
    {
        self.part(a, scope, found)?;
        self.optional(condition, scope, found)
    }

    fn choice(
        &self,
        condition: &Expression,
        a: &Expression,
        otherwise: &Option<Node<Expression>>,
        scope: &mut Scope,
        found: &mut Findings,
    ) -> Result<(), Memory>
        requires { Walks self.now.walk self.now.depth (F.pre self.now.parts) (F.post self.now.parts) }
        ensures found { OnOk result (found.new ≡ found.old ++ ((in_expression condition.now).finds scope.old ++ ((in_expression a.now).finds scope.old ++ optional (option_map in_expression otherwise.now) scope.old))) }
        ensures kept { OnOk result (scope.new ≡ scope.old) }
    {
        self.part(condition, scope, found)?;
        self.repeated(a, otherwise, scope, found)
    }

    fn switch(
        &self,
        a: &Expression,
        cases: &[Node<Case>],
        scope: &mut Scope,
        found: &mut Findings,
    ) -> Result<(), Memory>
        requires { Walks self.now.walk self.now.depth (F.pre self.now.parts) (F.post self.now.parts) }
        ensures found { OnOk result (found.new ≡ found.old ++ ((in_expression a.now).finds scope.old ++ each (map in_case cases.now) scope.old)) }
        ensures kept { OnOk result (scope.new ≡ scope.old) }
    {
        self.part(a, scope, found)?;
        self.cases(cases, scope, found)
    }

    // A body in the scope of a pattern that binds these names.
    #[tactic(auto, using(mo_scopes::proofs::Scoping::seam))]
    fn scoped(
        &self,
        names: Names,
        body: &Expression,
        scope: &mut Scope,
        found: &mut Findings,
    ) -> Result<(), Memory>
        requires { Walks self.now.walk self.now.depth (F.pre self.now.parts) (F.post self.now.parts) }
        ensures found { OnOk result (found.new ≡ found.old ++ (in_expression body.now).finds (with_values names scope.old)) }
        ensures kept { OnOk result (scope.new ≡ scope.old) }
    {
        let values = scope.values.len();
        scope.add_values(names)?;
        self.part(body, scope, found)?;
        scope.forget_values(values);
        Ok(())
    }

    // A pattern, and a body in its scope.
    fn bound(
        &self,
        p: &Pattern,
        body: &Expression,
        scope: &mut Scope,
        found: &mut Findings,
    ) -> Result<(), Memory>
        requires { Walks self.now.walk self.now.depth (F.pre self.now.parts) (F.post self.now.parts) }
        ensures found { OnOk result (found.new ≡ found.old ++ bound p.now (in_expression body.now).finds scope.old) }
        ensures kept { OnOk result (scope.new ≡ scope.old) }
    {
        let mut names = Names::new(self.walk.alloc);
        self.walk.whole_pattern(p, scope, &mut names, found)?;
        self.scoped(names, body, scope, found)
    }

    fn each_of(
        &self,
        p: &Pattern,
        a: &Expression,
        body: &Expression,
        scope: &mut Scope,
        found: &mut Findings,
    ) -> Result<(), Memory>
        requires { Walks self.now.walk self.now.depth (F.pre self.now.parts) (F.post self.now.parts) }
        ensures found { OnOk result (found.new ≡ found.old ++ (whole (in_pattern p.now) scope.old ++ ((in_expression a.now).finds scope.old ++ scoped p.now (in_expression body.now).finds scope.old))) }
        ensures kept { OnOk result (scope.new ≡ scope.old) }
    {
        let mut names = Names::new(self.walk.alloc);
        self.walk.whole_pattern(p, scope, &mut names, found)?;
        self.part(a, scope, found)?;
        self.scoped(names, body, scope, found)
    }

    fn attempt(
        &self,
        a: &Expression,
        p: &Pattern,
        body: &Expression,
        scope: &mut Scope,
        found: &mut Findings,
    ) -> Result<(), Memory>
        requires { Walks self.now.walk self.now.depth (F.pre self.now.parts) (F.post self.now.parts) }
        ensures found { OnOk result (found.new ≡ found.old ++ ((in_expression a.now).finds scope.old ++ bound p.now (in_expression body.now).finds scope.old)) }
        ensures kept { OnOk result (scope.new ≡ scope.old) }
    {
        self.part(a, scope, found)?;
        self.bound(p, body, scope, found)
    }

    #[tactic(auto, using(mo_scopes::proofs::Scoping::seam))]
    fn labelled(
        &self,
        name: &Name,
        kind: &Option<Node<TypeExpression>>,
        a: &Expression,
        scope: &mut Scope,
        found: &mut Findings,
    ) -> Result<(), Memory>
        requires { Walks self.now.walk self.now.depth (F.pre self.now.parts) (F.post self.now.parts) }
        ensures found { OnOk result (found.new ≡ found.old ++ (identifier name.now ++ (annotation kind.now scope.old ++ (in_expression a.now).finds (with_loop name.now.bytes scope.old)))) }
        ensures kept { OnOk result (scope.new ≡ scope.old) }
    {
        identifier(name, found)?;
        self.walk.annotation(kind, scope, found)?;
        let loops = scope.loops.len();
        enter_loop(self.walk, name, scope)?;
        self.part(a, scope, found)?;
        scope.forget_loops(loops);
        Ok(())
    }

    fn leaving(
        &self,
        name: &Name,
        a: &Option<Node<Expression>>,
        scope: &mut Scope,
        found: &mut Findings,
    ) -> Result<(), Memory>
        requires { Walks self.now.walk self.now.depth (F.pre self.now.parts) (F.post self.now.parts) }
        ensures found { OnOk result (found.new ≡ found.old ++ ((identifier name.now ++ used (loop_meaning scope.old name.now.bytes) name.now) ++ optional (option_map in_expression a.now) scope.old)) }
        ensures kept { OnOk result (scope.new ≡ scope.old) }
    {
        loop_name(name, scope, found)?;
        self.optional(a, scope, found)
    }

    #[tactic(auto, using(mo_scopes::proofs::Scoping::seam, mo_scopes::proofs::Scoping::seam_twice))]
    pub(crate) fn function(
        &self,
        generics: &Option<Items<TypeParameter>>,
        parameters: &Parameters,
        kind: &Option<Node<TypeExpression>>,
        body: &Expression,
        scope: &mut Scope,
        found: &mut Findings,
    ) -> Result<(), Memory>
        requires { Walks self.now.walk self.now.depth (F.pre self.now.parts) (F.post self.now.parts) }
        ensures found { OnOk result (found.new ≡ found.old ++ (function generics.now parameters.now kind.now (in_expression body.now).finds scope.old)) }
        ensures kept { OnOk result (scope.new ≡ scope.old) }
    {
        let values = scope.values.len();
        let types = scope.types.len();
        let loops = scope.hide_loops(self.walk.alloc);
        enter_function(self.walk, generics, parameters, kind, scope, found)?;
        self.part(body, scope, found)?;
        scope.leave(values, types, loops);
        Ok(())
    }

    #[tactic(auto, using(mo_scopes::proofs::Scoping::seam))]
    pub(crate) fn object(
        &self,
        fields: &[Node<DeclarationField>],
        scope: &mut Scope,
        found: &mut Findings,
    ) -> Result<(), Memory>
        requires { Walks self.now.walk self.now.depth (F.pre self.now.parts) (F.post self.now.parts) }
        ensures found { OnOk result (found.new ≡ found.old ++ (object (map in_member fields.now) scope.old)) }
        ensures kept { OnOk result (scope.new ≡ scope.old) }
    {
        let values = scope.values.len();
        let types = scope.types.len();
        enter_object(self.walk, fields, scope, found)?;
        self.each_member(fields, scope, found)?;
        scope.forget_values(values);
        scope.forget_types(types);
        Ok(())
    }

    fn tagged(
        &self,
        name: &Name,
        payload: &Option<Node<Expression>>,
        scope: &mut Scope,
        found: &mut Findings,
    ) -> Result<(), Memory>
        requires { Walks self.now.walk self.now.depth (F.pre self.now.parts) (F.post self.now.parts) }
        ensures found { OnOk result (found.new ≡ found.old ++ (label name.now ++ optional (option_map in_expression payload.now) scope.old)) }
        ensures kept { OnOk result (scope.new ≡ scope.old) }
    {
        label(name, found)?;
        self.optional(payload, scope, found)
    }

    fn operand(
        &self,
        a: &Expression,
        name: &Name,
        scope: &mut Scope,
        found: &mut Findings,
    ) -> Result<(), Memory>
        requires { Walks self.now.walk self.now.depth (F.pre self.now.parts) (F.post self.now.parts) }
        ensures found { OnOk result (found.new ≡ found.old ++ (operand (in_expression a.now).head (in_expression a.now).finds name.now scope.old)) }
        ensures kept { OnOk result (scope.new ≡ scope.old) }
    {
        match name_of(a) {
            None => self.part(a, scope, found),
            Some(object) => member_name(object, name, scope, found),
        }
    }

    fn member_of(
        &self,
        a: &Expression,
        name: &Name,
        scope: &mut Scope,
        found: &mut Findings,
    ) -> Result<(), Memory>
        requires { Walks self.now.walk self.now.depth (F.pre self.now.parts) (F.post self.now.parts) }
        ensures found { OnOk result (found.new ≡ found.old ++ (operand (in_expression a.now).head (in_expression a.now).finds name.now scope.old ++ label name.now)) }
        ensures kept { OnOk result (scope.new ≡ scope.old) }
    {
        self.operand(a, name, scope, found)?;
        label(name, found)
    }

    fn call(
        &self,
        a: &Expression,
        types: &Option<Items<Node<TypeExpression>>>,
        arguments: &[Node<Expression>],
        scope: &mut Scope,
        found: &mut Findings,
    ) -> Result<(), Memory>
        requires { Walks self.now.walk self.now.depth (F.pre self.now.parts) (F.post self.now.parts) }
        ensures found { OnOk result (found.new ≡ found.old ++ ((in_expression a.now).finds scope.old ++ (each_within (option_map (map in_type) types.now) scope.old ++ each_whole (map in_expression arguments.now) scope.old))) }
        ensures kept { OnOk result (scope.new ≡ scope.old) }
    {
        self.part(a, scope, found)?;
        self.walk.type_arguments(types, scope, found)?;
        self.expressions(arguments, scope, found)
    }

    fn expressions(
        &self,
        items: &[Node<Expression>],
        scope: &mut Scope,
        found: &mut Findings,
    ) -> Result<(), Memory>
        requires { Walks self.now.walk self.now.depth (F.pre self.now.parts) (F.post self.now.parts) }
        ensures found { OnOk result (found.new ≡ found.old ++ (each_whole (map in_expression items.now) scope.old)) }
        ensures kept { OnOk result (scope.new ≡ scope.old) }
    {
        for one in items {
            self.part(one.get(), scope, found)?;
        }
        Ok(())
    }

    fn cases(
        &self,
        cases: &[Node<Case>],
        scope: &mut Scope,
        found: &mut Findings,
    ) -> Result<(), Memory>
        requires { Walks self.now.walk self.now.depth (F.pre self.now.parts) (F.post self.now.parts) }
        ensures found { OnOk result (found.new ≡ found.old ++ (each (map in_case cases.now) scope.old)) }
        ensures kept { OnOk result (scope.new ≡ scope.old) }
    {
        for one in cases {
            self.case(one.get(), scope, found)?;
        }
        Ok(())
    }

    #[tactic(auto, unfolding(mo_bindings::specs::ExpressionNames::in_declaration, mo_bindings::specs::ExpressionNames::in_expression, mo_bindings::specs::ExpressionNames::in_member, mo_bindings::specs::ExpressionNames::in_case, mo_bindings::specs::ExpressionNames::in_field))]
    fn case(&self, case: &Case, scope: &mut Scope, found: &mut Findings) -> Result<(), Memory>
        requires { Walks self.now.walk self.now.depth (F.pre self.now.parts) (F.post self.now.parts) }
        ensures found { OnOk result (found.new ≡ found.old ++ (in_case case.now scope.old)) }
        ensures kept { OnOk result (scope.new ≡ scope.old) }
    {
        self.bound(case.pattern.get(), case.body.get(), scope, found)
    }

    fn expression_fields(
        &self,
        fields: &[Node<ExpressionField>],
        scope: &mut Scope,
        found: &mut Findings,
    ) -> Result<(), Memory>
        requires { Walks self.now.walk self.now.depth (F.pre self.now.parts) (F.post self.now.parts) }
        ensures found { OnOk result (found.new ≡ found.old ++ (each_entry (map in_field fields.now) scope.old ++ labels (names_of (map in_field fields.now)))) }
        ensures kept { OnOk result (scope.new ≡ scope.old) }
    {
        let mut names = Names::new(self.walk.alloc);
        for one in fields {
            self.expression_field(one.get(), scope, &mut names, found)?;
        }
        labels(self.walk.alloc, names.as_slice(), found)
    }

    #[tactic(auto, unfolding(mo_bindings::specs::ExpressionNames::in_declaration, mo_bindings::specs::ExpressionNames::in_expression, mo_bindings::specs::ExpressionNames::in_member, mo_bindings::specs::ExpressionNames::in_case, mo_bindings::specs::ExpressionNames::in_field))]
    fn expression_field(
        &self,
        field: &ExpressionField,
        scope: &mut Scope,
        names: &mut Names,
        found: &mut Findings,
    ) -> Result<(), Memory>
        requires { Walks self.now.walk self.now.depth (F.pre self.now.parts) (F.post self.now.parts) }
        ensures found { OnOk result (found.new ≡ found.old ++ ((in_field field.now).finds scope.old)) }
        ensures kept { OnOk result (scope.new ≡ scope.old) }
        ensures named { OnOk result (names.new ≡ names.old ++ (in_field field.now).name ∷ []) }
    {
        push_copy(self.walk.alloc, names, &field.name)?;
        self.labelled_value(&field.name, &field.annotation, &field.value, scope, found)
    }

    fn labelled_value(
        &self,
        name: &Name,
        kind: &Option<Node<TypeExpression>>,
        value: &Option<Node<Expression>>,
        scope: &mut Scope,
        found: &mut Findings,
    ) -> Result<(), Memory>
        requires { Walks self.now.walk self.now.depth (F.pre self.now.parts) (F.post self.now.parts) }
        ensures found { OnOk result (found.new ≡ found.old ++ (label name.now ++ (annotation kind.now scope.old ++ field_value name.now (option_map in_expression value.now) scope.old))) }
        ensures kept { OnOk result (scope.new ≡ scope.old) }
    {
        label(name, found)?;
        self.walk.annotation(kind, scope, found)?;
        self.field_value(name, value, scope, found)
    }

    fn field_value(
        &self,
        name: &Name,
        value: &Option<Node<Expression>>,
        scope: &mut Scope,
        found: &mut Findings,
    ) -> Result<(), Memory>
        requires { Walks self.now.walk self.now.depth (F.pre self.now.parts) (F.post self.now.parts) }
        ensures found { OnOk result (found.new ≡ found.old ++ (field_value name.now (option_map in_expression value.now) scope.old)) }
        ensures kept { OnOk result (scope.new ≡ scope.old) }
    {
        match value {
            None => used(scope.value_meaning(name), name, found),
            Some(a) => self.part(a.get(), scope, found),
        }
    }

    #[tactic(auto, using(mo_scopes::proofs::Scoping::seam))]
    fn block(
        &self,
        declarations: &[Node<Declaration>],
        scope: &mut Scope,
        found: &mut Findings,
    ) -> Result<(), Memory>
        requires { Walks self.now.walk self.now.depth (F.pre self.now.parts) (F.post self.now.parts) }
        ensures found { OnOk result (found.new ≡ found.old ++ (block (map in_declaration declarations.now) scope.old)) }
        ensures kept { OnOk result (scope.new ≡ scope.old) }
    {
        let values = scope.values.len();
        let types = scope.types.len();
        enter_block(self.walk, declarations, scope, found)?;
        self.each_declared(declarations, scope, found)?;
        scope.forget_values(values);
        scope.forget_types(types);
        Ok(())
    }
}
