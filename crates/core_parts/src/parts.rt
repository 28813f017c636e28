//! Parts of expressions.
ghost use Rattle.std.specs.Prelude.{◌≡◌, length, map, IfOk, OnOk};
ghost use Rattle.typed_tree.specs.View as view;
ghost use Rattle.typed_tree.specs.View.{expression};
ghost use Rattle.elaboration.specs.Elaboration.{elaborate, elaborate_operands};
ghost use Rattle.core_parts.specs.Making.{IsMade, AreMade};
ghost use Rattle.core_parts.specs.Elaborates.{Elaborates};

use core_ir::{CoreBody, Expression, Group};
use core_scopes::Scope;
use mo_num::{Memory, Sequence};
use std::alloc::Global;
use typed_tree::TypedExpression;

/// The groups of functions that are made so far, numbered from 0.
pub type Groups = Sequence<Group<CoreBody>>;

/// An expression of Core.
pub type Made = Result<Expression, Memory>;

/// An expression that is elaborated. It has at most so many levels.
#[derive(Clone, Copy)]
pub struct Part<'a> {
    pub alloc: Global,
    pub depth: u32,
    pub expression: &'a TypedExpression,
}

/// What a form is given: the elaboration of parts, which have at most so many levels.
#[derive(Clone, Copy)]
pub struct Parts<F> {
    pub alloc: Global,
    pub depth: u32,
    pub elaborate: F,
}

impl<F: Fn(&mut Scope, &mut Groups, Part<'_>) -> Made> Parts<F> {
    /// A part in a scope, which is as before then.
    pub fn part(&self, scope: &mut Scope, groups: &mut Groups, typed: &TypedExpression) -> Made
        requires { Elaborates self.now.depth (F.pre self.now.elaborate) (F.post self.now.elaborate) }
        ensures made { IfOk result (λ made. IsMade (elaborate scope.old (length groups.old) (expression typed.now)) groups.old groups.new made) }
        ensures scope { OnOk result (scope.new ≡ scope.old) }
    {
        let part = Part {
            alloc: self.alloc,
            depth: self.depth,
            expression: typed,
        };
        (self.elaborate)(scope, groups, part)
    }

    /// Parts from left to right.
    pub fn operands(
        &self,
        scope: &mut Scope,
        groups: &mut Groups,
        typed: &[TypedExpression],
    ) -> Result<Vec<Expression>, Memory>
        requires { Elaborates self.now.depth (F.pre self.now.elaborate) (F.post self.now.elaborate) }
        ensures made { IfOk result (λ made. AreMade (elaborate_operands scope.old (length groups.old) (view.exps (map expression typed.now))) groups.old groups.new made.items) }
        ensures scope { OnOk result (scope.new ≡ scope.old) }
    {
        let mut made = Vec::new(self.alloc);
        for operand in typed {
            let value = self.part(scope, groups, operand)?;
            made.push(value)?;
        }
        Ok(made)
    }
}
