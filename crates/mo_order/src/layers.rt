//! The layers of expressions and declarations: in each the names that occur and the lists are noted over those of the parts in it.
ghost use Rattle.std.specs.Prelude.{◌≡◌, ◌++◌, ◌∷◌, [], OnOk, map, option_map};
ghost use Rattle.mo_name_table.specs.Places.{texts};
ghost use Rattle.mo_names.specs.Order.{found, found_step, both, optional, hiding, list_of, pattern_names, parameter_values};
ghost use Rattle.mo_order.specs.Parts.{found_member, found_case, found_field, free_of, lists_of, steps_of, step_lists};
ghost use Rattle.mo_order.specs.PartNotes.{Notes};

use crate::step::{Lists, Steps, push_list, push_step, push_unbound};
use mo_bindings::{Part, names_in_parameters, names_in_pattern};
use mo_name_table::{Names, push_copy};
use mo_num::{Memory, Sequence};
use mo_syntax::{
    Case, Declaration, DeclarationField, Expression, ExpressionField, Node, Parameters, Pattern,
};
use std::alloc::Global;

/// The walk of one layer. That of the parts in it is a parameter, so that each function is proved by itself.
#[derive(Clone, Copy)]
pub(crate) struct Layers<F> {
    pub alloc: Global,
    pub depth: usize,
    pub parts: F,
}

impl<F: Fn(Global, usize, Part<'_>, &mut Names, &mut Lists) -> Result<(), Memory>> Layers<F> {
    fn part(&self, e: &Expression, free: &mut Names, lists: &mut Lists) -> Result<(), Memory>
        requires { Notes self.now.depth (F.pre self.now.parts) (F.post self.now.parts) }
        ensures free { OnOk result (free.new ≡ free.old ++ (found e.now).free) }
        ensures lists { OnOk result (lists.new ≡ lists.old ++ (found e.now).lists) }
    {
        (self.parts)(self.alloc, self.depth, Part::Expression(e), free, lists)
    }

    fn declared_part(
        &self,
        declaration: &Declaration,
        free: &mut Names,
        lists: &mut Lists,
    ) -> Result<(), Memory>
        requires { Notes self.now.depth (F.pre self.now.parts) (F.post self.now.parts) }
        ensures free { OnOk result (free.new ≡ free.old ++ (found_step declaration.now).step.occurs) }
        ensures lists { OnOk result (lists.new ≡ lists.old ++ (found_step declaration.now).lists) }
    {
        (self.parts)(
            self.alloc,
            self.depth,
            Part::Declaration(declaration),
            free,
            lists,
        )
    }

    #[tactic(auto, unfolding(mo_names::specs::Order::found, mo_names::specs::Order::found_step, crate::specs::Parts::found_member, crate::specs::Parts::found_case, crate::specs::Parts::found_field))]
    pub(crate) fn expression(
        &self,
        e: &Expression,
        free: &mut Names,
        lists: &mut Lists,
    ) -> Result<(), Memory>
        requires { Notes self.now.depth (F.pre self.now.parts) (F.post self.now.parts) }
        ensures free { OnOk result (free.new ≡ free.old ++ (found e.now).free) }
        ensures lists { OnOk result (lists.new ≡ lists.old ++ (found e.now).lists) }
    {
        match e {
            Expression::Assign(_, a, b) => self.both(a.get(), b.get(), free, lists),
            Expression::Annotated(a, _) => self.part(a.get(), free, lists),
            Expression::Binary(_, a, b) => self.both(a.get(), b.get(), free, lists),
            Expression::If(condition, a, b) => self.choice(
                condition.get(),
                a.get(),
                b,
                free,
                lists,
            ),
            Expression::Switch(a, cases, _) => self.switch(a.get(), cases.as_slice(), free, lists),
            Expression::While(condition, a) => self.both(condition.get(), a.get(), free, lists),
            Expression::Loop(a, condition) => self.repeated(a.get(), condition, free, lists),
            Expression::For(p, a, b) => self.bound(a.get(), p.get(), b.get(), free, lists),
            Expression::Label(_, _, a) => self.part(a.get(), free, lists),
            Expression::Break(_, a) => self.optional(a, free, lists),
            Expression::Continue(_) => Ok(()),
            Expression::Return(a) => self.optional(a, free, lists),
            Expression::Do(a) => self.part(a.get(), free, lists),
            Expression::DoOptional(a) => self.part(a.get(), free, lists),
            Expression::Await(a) => self.part(a.get(), free, lists),
            Expression::Throw(a) => self.part(a.get(), free, lists),
            Expression::Try(a, p, b) => self.bound(a.get(), p.get(), b.get(), free, lists),
            Expression::Assert(a) => self.part(a.get(), free, lists),
            Expression::Ignore(a) => self.part(a.get(), free, lists),
            Expression::Debug(a) => self.part(a.get(), free, lists),
            Expression::Function(parameters, _, _, body) => self.function(
                parameters,
                body.get(),
                free,
                lists,
            ),
            Expression::ObjectBlock(fields, _) => self.members(fields.as_slice(), free, lists),
            Expression::Optional(a) => self.part(a.get(), free, lists),
            Expression::Negative(a) => self.part(a.get(), free, lists),
            Expression::Not(a) => self.part(a.get(), free, lists),
            Expression::Tagged(_, a) => self.optional(a, free, lists),
            Expression::Member(a, _) => self.part(a.get(), free, lists),
            Expression::Projection(a, _) => self.part(a.get(), free, lists),
            Expression::Index(a, b) => self.both(a.get(), b.get(), free, lists),
            Expression::Call(a, _, arguments) => self.call(
                a.get(),
                arguments.as_slice(),
                free,
                lists,
            ),
            Expression::Bang(a) => self.part(a.get(), free, lists),
            Expression::Constant(_) => Ok(()),
            Expression::Variable(name) => push_copy(self.alloc, free, name),
            Expression::Parenthesized(items) => self.expressions(items.as_slice(), free, lists),
            Expression::Array(_, items) => self.expressions(items.as_slice(), free, lists),
            Expression::Object(fields, _) => self.fields(fields.as_slice(), free, lists),
            Expression::ActorReference(_, _) => Ok(()),
            Expression::Block(declarations, _) => self.declarations(
                declarations.as_slice(),
                free,
                lists,
            ),
        }
    }

    fn both(
        &self,
        a: &Expression,
        b: &Expression,
        free: &mut Names,
        lists: &mut Lists,
    ) -> Result<(), Memory>
        requires { Notes self.now.depth (F.pre self.now.parts) (F.post self.now.parts) }
        ensures free { OnOk result (free.new ≡ free.old ++ (both (found a.now) (found b.now)).free) }
        ensures lists { OnOk result (lists.new ≡ lists.old ++ (both (found a.now) (found b.now)).lists) }
    {
        self.part(a, free, lists)?;
        self.part(b, free, lists)
    }

    fn optional(
        &self,
        e: &Option<Node<Expression>>,
        free: &mut Names,
        lists: &mut Lists,
    ) -> Result<(), Memory>
        requires { Notes self.now.depth (F.pre self.now.parts) (F.post self.now.parts) }
        ensures free { OnOk result (free.new ≡ free.old ++ (optional (option_map found e.now)).free) }
        ensures lists { OnOk result (lists.new ≡ lists.old ++ (optional (option_map found e.now)).lists) }
    {
        match e {
            None => Ok(()),
            Some(e) => self.part(e.get(), free, lists),
        }
    }

    fn repeated(
        &self,
        a: &Expression,
        condition: &Option<Node<Expression>>,
        free: &mut Names,
        lists: &mut Lists,
    ) -> Result<(), Memory>
        requires { Notes self.now.depth (F.pre self.now.parts) (F.post self.now.parts) }
        ensures free { OnOk result (free.new ≡ free.old ++ (both (found a.now) (optional (option_map found condition.now))).free) }
        ensures lists { OnOk result (lists.new ≡ lists.old ++ (both (found a.now) (optional (option_map found condition.now))).lists) }
    {
        self.part(a, free, lists)?;
        self.optional(condition, free, lists)
    }

    fn choice(
        &self,
        condition: &Expression,
        a: &Expression,
        otherwise: &Option<Node<Expression>>,
        free: &mut Names,
        lists: &mut Lists,
    ) -> Result<(), Memory>
        requires { Notes self.now.depth (F.pre self.now.parts) (F.post self.now.parts) }
        ensures free { OnOk result (free.new ≡ free.old ++ (both (found condition.now) (both (found a.now) (optional (option_map found otherwise.now)))).free) }
        ensures lists { OnOk result (lists.new ≡ lists.old ++ (both (found condition.now) (both (found a.now) (optional (option_map found otherwise.now)))).lists) }
    {
        self.part(condition, free, lists)?;
        self.repeated(a, otherwise, free, lists)
    }

    fn switch(
        &self,
        a: &Expression,
        cases: &[Node<Case>],
        free: &mut Names,
        lists: &mut Lists,
    ) -> Result<(), Memory>
        requires { Notes self.now.depth (F.pre self.now.parts) (F.post self.now.parts) }
        ensures free { OnOk result (free.new ≡ free.old ++ ((found a.now).free ++ free_of (map found_case cases.now))) }
        ensures lists { OnOk result (lists.new ≡ lists.old ++ ((found a.now).lists ++ lists_of (map found_case cases.now))) }
    {
        self.part(a, free, lists)?;
        self.cases(cases, free, lists)
    }

    fn call(
        &self,
        a: &Expression,
        arguments: &[Node<Expression>],
        free: &mut Names,
        lists: &mut Lists,
    ) -> Result<(), Memory>
        requires { Notes self.now.depth (F.pre self.now.parts) (F.post self.now.parts) }
        ensures free { OnOk result (free.new ≡ free.old ++ ((found a.now).free ++ free_of (map found arguments.now))) }
        ensures lists { OnOk result (lists.new ≡ lists.old ++ ((found a.now).lists ++ lists_of (map found arguments.now))) }
    {
        self.part(a, free, lists)?;
        self.expressions(arguments, free, lists)
    }

    /// What stands in the scope of these names.
    fn scoped(
        &self,
        names: Names,
        body: &Expression,
        free: &mut Names,
        lists: &mut Lists,
    ) -> Result<(), Memory>
        requires { Notes self.now.depth (F.pre self.now.parts) (F.post self.now.parts) }
        ensures free { OnOk result (free.new ≡ free.old ++ (hiding (texts names) (found body.now)).free) }
        ensures lists { OnOk result (lists.new ≡ lists.old ++ (hiding (texts names) (found body.now)).lists) }
    {
        let mut inner = Names::new(self.alloc);
        self.part(body, &mut inner, lists)?;
        push_unbound(self.alloc, free, names, inner.as_slice())
    }

    /// What stands in the scope of a pattern.
    fn in_pattern(
        &self,
        p: &Pattern,
        body: &Expression,
        free: &mut Names,
        lists: &mut Lists,
    ) -> Result<(), Memory>
        requires { Notes self.now.depth (F.pre self.now.parts) (F.post self.now.parts) }
        ensures free { OnOk result (free.new ≡ free.old ++ (hiding (pattern_names p.now) (found body.now)).free) }
        ensures lists { OnOk result (lists.new ≡ lists.old ++ (hiding (pattern_names p.now) (found body.now)).lists) }
    {
        let names = names_in_pattern(self.alloc, p)?;
        self.scoped(names, body, free, lists)
    }

    fn bound(
        &self,
        a: &Expression,
        p: &Pattern,
        body: &Expression,
        free: &mut Names,
        lists: &mut Lists,
    ) -> Result<(), Memory>
        requires { Notes self.now.depth (F.pre self.now.parts) (F.post self.now.parts) }
        ensures free { OnOk result (free.new ≡ free.old ++ (both (found a.now) (hiding (pattern_names p.now) (found body.now))).free) }
        ensures lists { OnOk result (lists.new ≡ lists.old ++ (both (found a.now) (hiding (pattern_names p.now) (found body.now))).lists) }
    {
        self.part(a, free, lists)?;
        self.in_pattern(p, body, free, lists)
    }

    fn function(
        &self,
        parameters: &Parameters,
        body: &Expression,
        free: &mut Names,
        lists: &mut Lists,
    ) -> Result<(), Memory>
        requires { Notes self.now.depth (F.pre self.now.parts) (F.post self.now.parts) }
        ensures free { OnOk result (free.new ≡ free.old ++ (hiding (parameter_values parameters.now) (found body.now)).free) }
        ensures lists { OnOk result (lists.new ≡ lists.old ++ (hiding (parameter_values parameters.now) (found body.now)).lists) }
    {
        let names = names_in_parameters(self.alloc, parameters)?;
        self.scoped(names, body, free, lists)
    }

    fn expressions(
        &self,
        items: &[Node<Expression>],
        free: &mut Names,
        lists: &mut Lists,
    ) -> Result<(), Memory>
        requires { Notes self.now.depth (F.pre self.now.parts) (F.post self.now.parts) }
        ensures free { OnOk result (free.new ≡ free.old ++ free_of (map found items.now)) }
        ensures lists { OnOk result (lists.new ≡ lists.old ++ lists_of (map found items.now)) }
    {
        for one in items {
            self.part(one.get(), free, lists)?;
        }
        Ok(())
    }

    fn cases(&self, cases: &[Node<Case>], free: &mut Names, lists: &mut Lists) -> Result<(), Memory>
        requires { Notes self.now.depth (F.pre self.now.parts) (F.post self.now.parts) }
        ensures free { OnOk result (free.new ≡ free.old ++ free_of (map found_case cases.now)) }
        ensures lists { OnOk result (lists.new ≡ lists.old ++ lists_of (map found_case cases.now)) }
    {
        for one in cases {
            self.case(one.get(), free, lists)?;
        }
        Ok(())
    }

    #[tactic(auto, using(crate::proofs::Folded::case_free, crate::proofs::Folded::case_lists))]
    fn case(&self, case: &Case, free: &mut Names, lists: &mut Lists) -> Result<(), Memory>
        requires { Notes self.now.depth (F.pre self.now.parts) (F.post self.now.parts) }
        ensures free { OnOk result (free.new ≡ free.old ++ (found_case case.now).free) }
        ensures lists { OnOk result (lists.new ≡ lists.old ++ (found_case case.now).lists) }
    {
        self.in_pattern(case.pattern.get(), case.body.get(), free, lists)
    }

    fn fields(
        &self,
        fields: &[Node<ExpressionField>],
        free: &mut Names,
        lists: &mut Lists,
    ) -> Result<(), Memory>
        requires { Notes self.now.depth (F.pre self.now.parts) (F.post self.now.parts) }
        ensures free { OnOk result (free.new ≡ free.old ++ free_of (map found_field fields.now)) }
        ensures lists { OnOk result (lists.new ≡ lists.old ++ lists_of (map found_field fields.now)) }
    {
        for one in fields {
            self.field(one.get(), free, lists)?;
        }
        Ok(())
    }

    #[tactic(auto, unfolding(mo_names::specs::Order::found, mo_names::specs::Order::found_step, crate::specs::Parts::found_member, crate::specs::Parts::found_case, crate::specs::Parts::found_field))]
    fn field(
        &self,
        field: &ExpressionField,
        free: &mut Names,
        lists: &mut Lists,
    ) -> Result<(), Memory>
        requires { Notes self.now.depth (F.pre self.now.parts) (F.post self.now.parts) }
        ensures free { OnOk result (free.new ≡ free.old ++ (found_field field.now).free) }
        ensures lists { OnOk result (lists.new ≡ lists.old ++ (found_field field.now).lists) }
    {
        match &field.value {
            None => push_copy(self.alloc, free, &field.name),
            Some(a) => self.part(a.get(), free, lists),
        }
    }

    /// Adds a declaration to a list.
    fn step(
        &self,
        declaration: &Declaration,
        steps: &mut Steps,
        lists: &mut Lists,
    ) -> Result<(), Memory>
        requires { Notes self.now.depth (F.pre self.now.parts) (F.post self.now.parts) }
        ensures steps { OnOk result (steps.new ≡ steps.old ++ (found_step declaration.now).step ∷ []) }
        ensures lists { OnOk result (lists.new ≡ lists.old ++ (found_step declaration.now).lists) }
    {
        let mut occurs = Names::new(self.alloc);
        self.declared_part(declaration, &mut occurs, lists)?;
        push_step(self.alloc, declaration, occurs, steps)
    }

    /// Adds a declaration of an object or class to a list.
    #[tactic(auto, unfolding(mo_names::specs::Order::found, mo_names::specs::Order::found_step, crate::specs::Parts::found_member, crate::specs::Parts::found_case, crate::specs::Parts::found_field))]
    fn member(
        &self,
        field: &DeclarationField,
        steps: &mut Steps,
        lists: &mut Lists,
    ) -> Result<(), Memory>
        requires { Notes self.now.depth (F.pre self.now.parts) (F.post self.now.parts) }
        ensures steps { OnOk result (steps.new ≡ steps.old ++ (found_member field.now).step ∷ []) }
        ensures lists { OnOk result (lists.new ≡ lists.old ++ (found_member field.now).lists) }
    {
        self.step(field.declaration.get(), steps, lists)
    }

    fn each_step(
        &self,
        declarations: &[Node<Declaration>],
        steps: &mut Steps,
        lists: &mut Lists,
    ) -> Result<(), Memory>
        requires { Notes self.now.depth (F.pre self.now.parts) (F.post self.now.parts) }
        ensures steps { OnOk result (steps.new ≡ steps.old ++ steps_of (map found_step declarations.now)) }
        ensures lists { OnOk result (lists.new ≡ lists.old ++ step_lists (map found_step declarations.now)) }
    {
        for one in declarations {
            self.step(one.get(), steps, lists)?;
        }
        Ok(())
    }

    fn each_member(
        &self,
        fields: &[Node<DeclarationField>],
        steps: &mut Steps,
        lists: &mut Lists,
    ) -> Result<(), Memory>
        requires { Notes self.now.depth (F.pre self.now.parts) (F.post self.now.parts) }
        ensures steps { OnOk result (steps.new ≡ steps.old ++ steps_of (map found_member fields.now)) }
        ensures lists { OnOk result (lists.new ≡ lists.old ++ step_lists (map found_member fields.now)) }
    {
        for one in fields {
            self.member(one.get(), steps, lists)?;
        }
        Ok(())
    }

    /// A list of declarations.
    #[tactic(auto, using(crate::proofs::Folded::occurring_of))]
    fn declarations(
        &self,
        declarations: &[Node<Declaration>],
        free: &mut Names,
        lists: &mut Lists,
    ) -> Result<(), Memory>
        requires { Notes self.now.depth (F.pre self.now.parts) (F.post self.now.parts) }
        ensures free { OnOk result (free.new ≡ free.old ++ (list_of (map found_step declarations.now)).free) }
        ensures lists { OnOk result (lists.new ≡ lists.old ++ (list_of (map found_step declarations.now)).lists) }
    {
        let mut steps = Sequence::new(self.alloc);
        let mut inner = Sequence::new(self.alloc);
        self.each_step(declarations, &mut steps, &mut inner)?;
        push_list(self.alloc, steps, inner, free, lists)
    }

    /// The declarations of an object or class.
    #[tactic(auto, using(crate::proofs::Folded::occurring_of))]
    fn members(
        &self,
        fields: &[Node<DeclarationField>],
        free: &mut Names,
        lists: &mut Lists,
    ) -> Result<(), Memory>
        requires { Notes self.now.depth (F.pre self.now.parts) (F.post self.now.parts) }
        ensures free { OnOk result (free.new ≡ free.old ++ (list_of (map found_member fields.now)).free) }
        ensures lists { OnOk result (lists.new ≡ lists.old ++ (list_of (map found_member fields.now)).lists) }
    {
        let mut steps = Sequence::new(self.alloc);
        let mut inner = Sequence::new(self.alloc);
        self.each_member(fields, &mut steps, &mut inner)?;
        push_list(self.alloc, steps, inner, free, lists)
    }

    /// The declarations of a class, in the scope of its parameters.
    fn class(
        &self,
        parameters: &Parameters,
        fields: &[Node<DeclarationField>],
        free: &mut Names,
        lists: &mut Lists,
    ) -> Result<(), Memory>
        requires { Notes self.now.depth (F.pre self.now.parts) (F.post self.now.parts) }
        ensures free { OnOk result (free.new ≡ free.old ++ (hiding (parameter_values parameters.now) (list_of (map found_member fields.now))).free) }
        ensures lists { OnOk result (lists.new ≡ lists.old ++ (hiding (parameter_values parameters.now) (list_of (map found_member fields.now))).lists) }
    {
        let names = names_in_parameters(self.alloc, parameters)?;
        let mut inner = Names::new(self.alloc);
        self.members(fields, &mut inner, lists)?;
        push_unbound(self.alloc, free, names, inner.as_slice())
    }

    #[tactic(auto, unfolding(mo_names::specs::Order::found, mo_names::specs::Order::found_step, crate::specs::Parts::found_member, crate::specs::Parts::found_case, crate::specs::Parts::found_field))]
    pub(crate) fn declaration(
        &self,
        declaration: &Declaration,
        free: &mut Names,
        lists: &mut Lists,
    ) -> Result<(), Memory>
        requires { Notes self.now.depth (F.pre self.now.parts) (F.post self.now.parts) }
        ensures free { OnOk result (free.new ≡ free.old ++ (found_step declaration.now).step.occurs) }
        ensures lists { OnOk result (lists.new ≡ lists.old ++ (found_step declaration.now).lists) }
    {
        match declaration {
            Declaration::Let(_, a) => self.part(a.get(), free, lists),
            Declaration::Var(_, _, a) => self.part(a.get(), free, lists),
            Declaration::Func(_, _, parameters, _, _, body) => self.function(
                parameters,
                body.get(),
                free,
                lists,
            ),
            Declaration::TypeAlias(_, _, _) => Ok(()),
            Declaration::Class(_, _, parameters, fields, _) => self.class(
                parameters,
                fields.as_slice(),
                free,
                lists,
            ),
            Declaration::NamedObject(_, fields, _) => self.members(fields.as_slice(), free, lists),
            Declaration::Evaluate(a) => self.part(a.get(), free, lists),
        }
    }
}
