//! The layers of declarations.
ghost use Rattle.std.specs.Prelude.{IfOk, map};
ghost use Rattle.mo_syntax.specs.declared.declarations.Declaration.TheOpen as written;
ghost use Rattle.typing_rules.specs.AbstractExpressions.{declaration_step, in_declaration, in_expression, in_member};
ghost use Rattle.abstract_tree.specs.TreeView.{plain_declaration_form};
ghost use Rattle.abstract_type_walk.specs.Stands.{Stands};
ghost use Rattle.abstract_parts.specs.TreeWalks.{Walks};

use crate::tree_layers::TreeLayers;
use abstract_parts::{abstract_names, name_behind};
use abstract_pattern_walk::{abstract_pattern, abstract_signature};
use abstract_tree::{DeclarationForm, Expression};
use abstract_type_walk::{abstract_annotation, abstract_type};
use abstract_types::{count_if, number_behind};
use mo_num::Memory;
use mo_syntax::{
    Declaration as WrittenDeclaration, DeclarationField, Expression as WrittenExpression, Items,
    Name, Node, Parameters, Pattern as WrittenPattern, TypeExpression, TypeParameter,
};
use std::alloc::Global;

/// A type definition.
fn type_alias(
    alloc: Global,
    name: &Name,
    names: &Option<Items<Name>>,
    kind: &Node<TypeExpression>,
    at: u32,
) -> Result<(DeclarationForm<u32>, u32), Memory>
    ensures { IfOk result (Stands plain_declaration_form (declaration_step (written.TypeAlias name.now names.now kind.now)) at) }
{
    let name = name_behind(alloc, name, at, 1)?;
    let (parameters, mark) = abstract_names(alloc, names, at, 2)?;
    let (of, behind) = abstract_type(alloc, kind.get(), mark, 1)?;
    Ok((DeclarationForm::TypeAlias(name, parameters, of), behind))
}

impl<
    F: Fn(Global, usize, &WrittenExpression, u32) -> Result<(Expression<u32>, u32), Memory>,
    G: Fn(Global, usize, &WrittenDeclaration, u32) -> Result<(DeclarationForm<u32>, u32), Memory>,
> TreeLayers<F, G> {
    pub(crate) fn declared_layer(
        &self,
        d: &WrittenDeclaration,
        at: u32,
    ) -> Result<(DeclarationForm<u32>, u32), Memory>
        requires { Walks self.now.layers.parts.depth (F.pre self.now.layers.parts.expressions) (F.post self.now.layers.parts.expressions) (G.pre self.now.layers.parts.declarations) (G.post self.now.layers.parts.declarations) }
        ensures { IfOk result (Stands plain_declaration_form (in_declaration d.now) at) }
    {
        match d {
            WrittenDeclaration::Let(q, a) => self.let_in(q, a, at),
            WrittenDeclaration::Var(name, kind, a) => self.var(name, kind, a, at),
            WrittenDeclaration::Func(name, generics, parameters, annotation, equal_sign, body) =>
                self.func(
                    name,
                    generics,
                    parameters,
                    annotation,
                    *equal_sign,
                    body,
                    at,
                ),
            WrittenDeclaration::TypeAlias(name, names, kind) => type_alias(
                self.layers.parts.alloc,
                name,
                names,
                kind,
                at,
            ),
            WrittenDeclaration::Class(name, generics, parameters, fields, last) => self.class(
                name, generics, parameters, fields, *last, at,
            ),
            WrittenDeclaration::NamedObject(name, fields, last) => self.named_object(
                name, fields, *last, at,
            ),
            WrittenDeclaration::Evaluate(a) => self.evaluate(a, at),
        }
    }

    fn let_in(
        &self,
        q: &Node<WrittenPattern>,
        a: &Node<WrittenExpression>,
        at: u32,
    ) -> Result<(DeclarationForm<u32>, u32), Memory>
        requires { Walks self.now.layers.parts.depth (F.pre self.now.layers.parts.expressions) (F.post self.now.layers.parts.expressions) (G.pre self.now.layers.parts.declarations) (G.post self.now.layers.parts.declarations) }
        ensures { IfOk result (Stands plain_declaration_form (declaration_step (written.Let q.now (in_expression a.now))) at) }
    {
        let (pattern, mark) = abstract_pattern(self.layers.parts.alloc, q.get(), at, 1)?;
        let (value, behind) = self.layers.parts.walk(a, mark, 1)?;
        Ok((DeclarationForm::Let(pattern, value), behind))
    }

    fn var(
        &self,
        name: &Name,
        kind: &Option<Node<TypeExpression>>,
        a: &Node<WrittenExpression>,
        at: u32,
    ) -> Result<(DeclarationForm<u32>, u32), Memory>
        requires { Walks self.now.layers.parts.depth (F.pre self.now.layers.parts.expressions) (F.post self.now.layers.parts.expressions) (G.pre self.now.layers.parts.declarations) (G.post self.now.layers.parts.declarations) }
        ensures { IfOk result (Stands plain_declaration_form (declaration_step (written.Var name.now kind.now (in_expression a.now))) at) }
    {
        let name = name_behind(self.layers.parts.alloc, name, at, 1)?;
        let (annotation, mark) = abstract_annotation(self.layers.parts.alloc, kind, at, 2)?;
        let (value, behind) = self.layers.parts.walk(a, mark, 1)?;
        Ok((DeclarationForm::Var(false, name, annotation, value), behind))
    }

    fn func(
        &self,
        name: &Name,
        generics: &Option<Items<TypeParameter>>,
        parameters: &Parameters,
        annotation: &Option<Node<TypeExpression>>,
        equal_sign: bool,
        body: &Node<WrittenExpression>,
        at: u32,
    ) -> Result<(DeclarationForm<u32>, u32), Memory>
        requires { Walks self.now.layers.parts.depth (F.pre self.now.layers.parts.expressions) (F.post self.now.layers.parts.expressions) (G.pre self.now.layers.parts.declarations) (G.post self.now.layers.parts.declarations) }
        ensures { IfOk result (Stands plain_declaration_form (declaration_step (written.Func name.now generics.now parameters.now annotation.now equal_sign (in_expression body.now))) at) }
    {
        let name = name_behind(self.layers.parts.alloc, name, at, 1)?;
        let (signature, middle) = abstract_signature(
            self.layers.parts.alloc,
            generics,
            parameters,
            annotation,
            equal_sign,
            number_behind(at, 2)?,
        )?;
        let (body, behind) = self.layers.parts.walk(body, middle, 0)?;
        Ok((DeclarationForm::Func(name, signature, body), behind))
    }

    fn class(
        &self,
        name: &Name,
        generics: &Option<Items<TypeParameter>>,
        parameters: &Parameters,
        fields: &Items<Node<DeclarationField>>,
        last: bool,
        at: u32,
    ) -> Result<(DeclarationForm<u32>, u32), Memory>
        requires { Walks self.now.layers.parts.depth (F.pre self.now.layers.parts.expressions) (F.post self.now.layers.parts.expressions) (G.pre self.now.layers.parts.declarations) (G.post self.now.layers.parts.declarations) }
        ensures { IfOk result (Stands plain_declaration_form (declaration_step (written.Class name.now generics.now parameters.now (map in_member fields.now) last)) at) }
    {
        let name = name_behind(self.layers.parts.alloc, name, at, 1)?;
        let (signature, brace) = abstract_signature(
            self.layers.parts.alloc,
            generics,
            parameters,
            &None,
            false,
            number_behind(at, 2)?,
        )?;
        let (fields, end) = self.layers.parts.members(fields.as_slice(), brace, 1)?;
        let behind = number_behind(end, 1 + count_if(last))?;
        Ok((DeclarationForm::Class(name, signature, fields), behind))
    }

    fn named_object(
        &self,
        name: &Name,
        fields: &Items<Node<DeclarationField>>,
        last: bool,
        at: u32,
    ) -> Result<(DeclarationForm<u32>, u32), Memory>
        requires { Walks self.now.layers.parts.depth (F.pre self.now.layers.parts.expressions) (F.post self.now.layers.parts.expressions) (G.pre self.now.layers.parts.declarations) (G.post self.now.layers.parts.declarations) }
        ensures { IfOk result (Stands plain_declaration_form (declaration_step (written.NamedObject name.now (map in_member fields.now) last)) at) }
    {
        let name = name_behind(self.layers.parts.alloc, name, at, 1)?;
        let (fields, end) = self.layers.parts.members(fields.as_slice(), at, 3)?;
        let behind = number_behind(end, 1 + count_if(last))?;
        Ok((DeclarationForm::NamedObject(name, fields), behind))
    }

    fn evaluate(
        &self,
        a: &Node<WrittenExpression>,
        at: u32,
    ) -> Result<(DeclarationForm<u32>, u32), Memory>
        requires { Walks self.now.layers.parts.depth (F.pre self.now.layers.parts.expressions) (F.post self.now.layers.parts.expressions) (G.pre self.now.layers.parts.declarations) (G.post self.now.layers.parts.declarations) }
        ensures { IfOk result (Stands plain_declaration_form (declaration_step (written.Evaluate (in_expression a.now))) at) }
    {
        let (of, behind) = self.layers.parts.walk(a, at, 0)?;
        Ok((DeclarationForm::Evaluate(of), behind))
    }
}
