//! The layers of expressions that patterns, types or lists are parts of.
ghost use Rattle.std.specs.Prelude.{IfOk, None, Some, map};
ghost use Rattle.mo_syntax.specs.declared.declarations.Declaration.TheOpen as written;
ghost use Rattle.typing_rules.specs.AbstractExpressions.{conditional, expression_step, in_case, in_declaration, in_expression, in_member, in_object_field};
ghost use Rattle.abstract_tree.specs.TreeView.{plain};
ghost use Rattle.abstract_type_walk.specs.Stands.{Stands};
ghost use Rattle.abstract_parts.specs.TreeWalks.{Walks};

use crate::layers::Layers;
use abstract_parts::finish;
use abstract_pattern_walk::{abstract_pattern, abstract_signature};
use abstract_tree::{DeclarationForm, Expression, ExpressionForm};
use abstract_type_walk::{abstract_annotation, abstract_type, abstract_type_arguments};
use abstract_types::{count_if, number_behind};
use mo_num::{Bytes, Memory};
use mo_syntax::{
    Case as WrittenCase, Declaration as WrittenDeclaration, DeclarationField,
    Expression as WrittenExpression, ExpressionField, Items, Name, Node, Parameters,
    Pattern as WrittenPattern, TypeExpression,
};
use std::alloc::Global;

impl<
    F: Fn(Global, usize, &WrittenExpression, u32) -> Result<(Expression<u32>, u32), Memory>,
    G: Fn(Global, usize, &WrittenDeclaration, u32) -> Result<(DeclarationForm<u32>, u32), Memory>,
> Layers<F, G> {
    /// `a : A`
    pub fn annotated(
        &self,
        a: &Node<WrittenExpression>,
        kind: &Node<TypeExpression>,
        at: u32,
    ) -> Result<(Expression<u32>, u32), Memory>
        requires { Walks self.now.parts.depth (F.pre self.now.parts.expressions) (F.post self.now.parts.expressions) (G.pre self.now.parts.declarations) (G.post self.now.parts.declarations) }
        ensures { IfOk result (Stands plain (expression_step (written.Annotated (in_expression a.now) kind.now)) at) }
    {
        let (of, colon) = self.parts.walk(a, at, 0)?;
        let (annotation, behind) = abstract_type(self.parts.alloc, kind.get(), colon, 1)?;
        finish(
            self.parts.alloc,
            at,
            ExpressionForm::Annotated(of, annotation),
            behind,
            0,
        )
    }

    /// `if c a else b`
    pub fn either(
        &self,
        c: &Node<WrittenExpression>,
        a: &Node<WrittenExpression>,
        b: &Node<WrittenExpression>,
        at: u32,
    ) -> Result<(Expression<u32>, u32), Memory>
        requires { Walks self.now.parts.depth (F.pre self.now.parts.expressions) (F.post self.now.parts.expressions) (G.pre self.now.parts.declarations) (G.post self.now.parts.declarations) }
        ensures { IfOk result (Stands plain (conditional (in_expression c.now) (in_expression a.now) (Some (in_expression b.now))) at) }
    {
        let (condition, middle) = self.parts.walk(c, at, 1)?;
        let (left, word) = self.parts.walk(a, middle, 0)?;
        let (right, behind) = self.parts.walk(b, word, 1)?;
        finish(
            self.parts.alloc,
            at,
            ExpressionForm::If(condition, left, right),
            behind,
            0,
        )
    }

    /// `switch a { .. }`
    pub fn switch(
        &self,
        a: &Node<WrittenExpression>,
        cases: &Items<Node<WrittenCase>>,
        last: bool,
        at: u32,
    ) -> Result<(Expression<u32>, u32), Memory>
        requires { Walks self.now.parts.depth (F.pre self.now.parts.expressions) (F.post self.now.parts.expressions) (G.pre self.now.parts.declarations) (G.post self.now.parts.declarations) }
        ensures { IfOk result (Stands plain (expression_step (written.Switch (in_expression a.now) (map in_case cases.now) last)) at) }
    {
        let (of, open) = self.parts.walk(a, at, 1)?;
        let (cases, end) = self.parts.cases(cases.as_slice(), open, 1)?;
        finish(
            self.parts.alloc,
            at,
            ExpressionForm::Switch(of, cases),
            end,
            1 + count_if(last),
        )
    }

    /// `for (q in a) b`
    pub fn for_loop(
        &self,
        q: &Node<WrittenPattern>,
        a: &Node<WrittenExpression>,
        b: &Node<WrittenExpression>,
        at: u32,
    ) -> Result<(Expression<u32>, u32), Memory>
        requires { Walks self.now.parts.depth (F.pre self.now.parts.expressions) (F.post self.now.parts.expressions) (G.pre self.now.parts.declarations) (G.post self.now.parts.declarations) }
        ensures { IfOk result (Stands plain (expression_step (written.For q.now (in_expression a.now) (in_expression b.now))) at) }
    {
        let (pattern, word) = abstract_pattern(self.parts.alloc, q.get(), at, 2)?;
        let (of, close) = self.parts.walk(a, word, 1)?;
        let (body, behind) = self.parts.walk(b, close, 1)?;
        finish(
            self.parts.alloc,
            at,
            ExpressionForm::For(pattern, of, body),
            behind,
            0,
        )
    }

    /// `label x : A a`
    pub fn label(
        &self,
        name: &Name,
        kind: &Option<Node<TypeExpression>>,
        a: &Node<WrittenExpression>,
        at: u32,
    ) -> Result<(Expression<u32>, u32), Memory>
        requires { Walks self.now.parts.depth (F.pre self.now.parts.expressions) (F.post self.now.parts.expressions) (G.pre self.now.parts.declarations) (G.post self.now.parts.declarations) }
        ensures { IfOk result (Stands plain (expression_step (written.Label name.now kind.now (in_expression a.now))) at) }
    {
        let name = Bytes::from_slice(self.parts.alloc, name.as_slice())?;
        let (annotation, middle) = abstract_annotation(self.parts.alloc, kind, at, 2)?;
        let (body, behind) = self.parts.walk(a, middle, 0)?;
        finish(
            self.parts.alloc,
            at,
            ExpressionForm::Label(name, annotation, body),
            behind,
            0,
        )
    }

    /// `try a catch q b`
    pub fn try_catch(
        &self,
        a: &Node<WrittenExpression>,
        q: &Node<WrittenPattern>,
        b: &Node<WrittenExpression>,
        at: u32,
    ) -> Result<(Expression<u32>, u32), Memory>
        requires { Walks self.now.parts.depth (F.pre self.now.parts.expressions) (F.post self.now.parts.expressions) (G.pre self.now.parts.declarations) (G.post self.now.parts.declarations) }
        ensures { IfOk result (Stands plain (expression_step (written.Try (in_expression a.now) q.now (in_expression b.now))) at) }
    {
        let (body, word) = self.parts.walk(a, at, 1)?;
        let (pattern, middle) = abstract_pattern(self.parts.alloc, q.get(), word, 1)?;
        let (handler, behind) = self.parts.walk(b, middle, 0)?;
        finish(
            self.parts.alloc,
            at,
            ExpressionForm::Try(body, pattern, handler),
            behind,
            0,
        )
    }

    /// `func (p) : A { .. }`
    pub fn function(
        &self,
        parameters: &Parameters,
        annotation: &Option<Node<TypeExpression>>,
        equal_sign: bool,
        body: &Node<WrittenExpression>,
        at: u32,
    ) -> Result<(Expression<u32>, u32), Memory>
        requires { Walks self.now.parts.depth (F.pre self.now.parts.expressions) (F.post self.now.parts.expressions) (G.pre self.now.parts.declarations) (G.post self.now.parts.declarations) }
        ensures { IfOk result (Stands plain (expression_step (written.Function parameters.now annotation.now equal_sign (in_expression body.now))) at) }
    {
        let start = number_behind(at, 1)?;
        let (signature, middle) = abstract_signature(
            self.parts.alloc,
            &None,
            parameters,
            annotation,
            equal_sign,
            start,
        )?;
        let (body, behind) = self.parts.walk(body, middle, 0)?;
        finish(
            self.parts.alloc,
            at,
            ExpressionForm::Function(signature, body),
            behind,
            0,
        )
    }

    /// `a<A>(b)`
    pub fn call(
        &self,
        a: &Node<WrittenExpression>,
        types: &Option<Items<Node<TypeExpression>>>,
        arguments: &Items<Node<WrittenExpression>>,
        at: u32,
    ) -> Result<(Expression<u32>, u32), Memory>
        requires { Walks self.now.parts.depth (F.pre self.now.parts.expressions) (F.post self.now.parts.expressions) (G.pre self.now.parts.declarations) (G.post self.now.parts.declarations) }
        ensures { IfOk result (Stands plain (expression_step (written.Call (in_expression a.now) types.now (map in_expression arguments.now))) at) }
    {
        let (function, angle) = self.parts.walk(a, at, 0)?;
        let (types, open) = abstract_type_arguments(self.parts.alloc, types, angle)?;
        let (arguments, close) = self.parts.each(arguments.as_slice(), open, 1)?;
        finish(
            self.parts.alloc,
            at,
            ExpressionForm::Call(function, types, arguments),
            close,
            1,
        )
    }

    /// `[var a, b]`
    pub fn array(
        &self,
        mutable: bool,
        items: &Items<Node<WrittenExpression>>,
        at: u32,
    ) -> Result<(Expression<u32>, u32), Memory>
        requires { Walks self.now.parts.depth (F.pre self.now.parts.expressions) (F.post self.now.parts.expressions) (G.pre self.now.parts.declarations) (G.post self.now.parts.declarations) }
        ensures { IfOk result (Stands plain (expression_step (written.Array mutable (map in_expression items.now))) at) }
    {
        let (items, close) = self
            .parts
            .each(items.as_slice(), at, 1 + count_if(mutable))?;
        finish(
            self.parts.alloc,
            at,
            ExpressionForm::Array(mutable, items),
            close,
            1,
        )
    }

    /// `{ x = a }`
    pub fn object(
        &self,
        fields: &Items<Node<ExpressionField>>,
        last: bool,
        at: u32,
    ) -> Result<(Expression<u32>, u32), Memory>
        requires { Walks self.now.parts.depth (F.pre self.now.parts.expressions) (F.post self.now.parts.expressions) (G.pre self.now.parts.declarations) (G.post self.now.parts.declarations) }
        ensures { IfOk result (Stands plain (expression_step (written.Object (map in_object_field fields.now) last)) at) }
    {
        let (fields, end) = self.parts.fields(fields.as_slice(), at, 1)?;
        finish(
            self.parts.alloc,
            at,
            ExpressionForm::Object(fields),
            end,
            1 + count_if(last),
        )
    }

    /// `{ d; a }`
    pub fn block(
        &self,
        declarations: &Items<Node<WrittenDeclaration>>,
        last: bool,
        at: u32,
    ) -> Result<(Expression<u32>, u32), Memory>
        requires { Walks self.now.parts.depth (F.pre self.now.parts.expressions) (F.post self.now.parts.expressions) (G.pre self.now.parts.declarations) (G.post self.now.parts.declarations) }
        ensures { IfOk result (Stands plain (expression_step (written.Block (map in_declaration declarations.now) last)) at) }
    {
        let (declarations, end) = self.parts.declared(declarations.as_slice(), at, 1)?;
        finish(
            self.parts.alloc,
            at,
            ExpressionForm::Block(declarations),
            end,
            1 + count_if(last),
        )
    }

    /// `object { .. }`
    pub fn object_block(
        &self,
        fields: &Items<Node<DeclarationField>>,
        last: bool,
        at: u32,
    ) -> Result<(Expression<u32>, u32), Memory>
        requires { Walks self.now.parts.depth (F.pre self.now.parts.expressions) (F.post self.now.parts.expressions) (G.pre self.now.parts.declarations) (G.post self.now.parts.declarations) }
        ensures { IfOk result (Stands plain (expression_step (written.ObjectBlock (map in_member fields.now) last)) at) }
    {
        let (fields, end) = self.parts.members(fields.as_slice(), at, 2)?;
        finish(
            self.parts.alloc,
            at,
            ExpressionForm::ObjectBlock(fields),
            end,
            1 + count_if(last),
        )
    }
}
