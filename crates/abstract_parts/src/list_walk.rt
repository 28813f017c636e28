//! Lists in expressions and declarations, with a mark between each two, and what stands in them.
ghost use Rattle.std.specs.Prelude.{◌≡◌, ◌+◌, IfOk, map, option_map};
ghost use Rattle.typing_rules.specs.AbstractExpressions as rules;
ghost use Rattle.typing_rules.specs.AbstractExpressions.{in_case, in_declaration, in_expression, in_member, in_object_field};
ghost use Rattle.typing_rules.specs.Spans.{listed_size};
ghost use Rattle.abstract_tree.specs.TreeView.{plain, plain_case, plain_declaration, plain_field};
ghost use Rattle.abstract_type_walk.specs.Stands.{Lists, Stands};
ghost use Rattle.abstract_parts.specs.TreeWalks.{AreDeclarations, IsFieldValue, Walks, in_block, in_object};

use crate::forms::{LeafForm, leaf_form};
use crate::tree_walk::TreeWalk;
use abstract_pattern_walk::abstract_pattern;
use abstract_tree::{
    Case, Declaration, DeclarationForm, Expression, ObjectField, make_declaration, make_expression,
};
use abstract_type_walk::abstract_annotation;
use abstract_types::{count_if, number_behind, placed_name};
use mo_num::Memory;
use mo_syntax::{
    Case as WrittenCase, Declaration as WrittenDeclaration, DeclarationField,
    Expression as WrittenExpression, ExpressionField, Items, Name, Node, Visibility,
};
use std::alloc::Global;

/// How many words say who sees a field.
fn word_count(visibility: Option<Visibility>) -> u32
    ensures { result ≡ rules.visibility_size visibility }
{
    match visibility {
        None => 0,
        Some(_) => 1,
    }
}

fn is_public(visibility: Option<Visibility>) -> bool
    ensures { result ≡ rules.is_public visibility }
{
    match visibility {
        Some(Visibility::Public) => true,
        Some(Visibility::Private) => false,
        None => false,
    }
}

impl<
    F: Fn(Global, usize, &WrittenExpression, u32) -> Result<(Expression<u32>, u32), Memory>,
    G: Fn(Global, usize, &WrittenDeclaration, u32) -> Result<(DeclarationForm<u32>, u32), Memory>,
> TreeWalk<F, G> {
    /// Expressions, with a mark between each two.
    pub fn each(
        &self,
        items: &[Node<WrittenExpression>],
        at: u32,
        tokens: u32,
    ) -> Result<(Items<Expression<u32>>, u32), Memory>
        requires { Walks self.now.depth (F.pre self.now.expressions) (F.post self.now.expressions) (G.pre self.now.declarations) (G.post self.now.declarations) }
        ensures { IfOk result (Lists plain (map in_expression items.now) (at + tokens)) }
    {
        let mut next = number_behind(at, tokens)?;
        let mut mark = 0;
        let mut made = Items::new(self.alloc);
        for one in items {
            let (item, behind) = self.walk(one, next, mark)?;
            made.push(item)?;
            next = behind;
            mark = 1;
        }
        Ok((made, next))
    }

    /// The cases of a `switch`.
    pub fn cases(
        &self,
        cases: &[Node<WrittenCase>],
        at: u32,
        tokens: u32,
    ) -> Result<(Items<Case<u32>>, u32), Memory>
        requires { Walks self.now.depth (F.pre self.now.expressions) (F.post self.now.expressions) (G.pre self.now.declarations) (G.post self.now.declarations) }
        ensures { IfOk result (Lists plain_case (map in_case cases.now) (at + tokens)) }
    {
        let mut next = number_behind(at, tokens)?;
        let mut mark = 0;
        let mut made = Items::new(self.alloc);
        for one in cases {
            let (case, behind) = self.case(one.get(), next, mark)?;
            made.push(case)?;
            next = behind;
            mark = 1;
        }
        Ok((made, next))
    }

    fn case(&self, case: &WrittenCase, at: u32, tokens: u32) -> Result<(Case<u32>, u32), Memory>
        requires { Walks self.now.depth (F.pre self.now.expressions) (F.post self.now.expressions) (G.pre self.now.declarations) (G.post self.now.declarations) }
        ensures { IfOk result (Stands plain_case (in_case case.now) (at + tokens)) }
    {
        let word = number_behind(at, tokens)?;
        let (pattern, middle) = abstract_pattern(self.alloc, case.pattern.get(), word, 1)?;
        let (body, behind) = self.walk(&case.body, middle, 0)?;
        Ok((Case { pattern, body }, behind))
    }

    /// The fields of an object.
    pub fn fields(
        &self,
        fields: &[Node<ExpressionField>],
        at: u32,
        tokens: u32,
    ) -> Result<(Items<ObjectField<u32>>, u32), Memory>
        requires { Walks self.now.depth (F.pre self.now.expressions) (F.post self.now.expressions) (G.pre self.now.declarations) (G.post self.now.declarations) }
        ensures { IfOk result (Lists plain_field (map in_object_field fields.now) (at + tokens)) }
    {
        let mut next = number_behind(at, tokens)?;
        let mut mark = 0;
        let mut made = Items::new(self.alloc);
        for one in fields {
            let (field, behind) = self.field(one.get(), next, mark)?;
            made.push(field)?;
            next = behind;
            mark = 1;
        }
        Ok((made, next))
    }

    fn field(
        &self,
        field: &ExpressionField,
        at: u32,
        tokens: u32,
    ) -> Result<(ObjectField<u32>, u32), Memory>
        requires { Walks self.now.depth (F.pre self.now.expressions) (F.post self.now.expressions) (G.pre self.now.declarations) (G.post self.now.declarations) }
        ensures { IfOk result (Stands plain_field (in_object_field field.now) (at + tokens)) }
    {
        let place = number_behind(number_behind(at, tokens)?, count_if(field.mutable))?;
        let name = placed_name(self.alloc, &field.name, place)?;
        let (annotation, mark) = abstract_annotation(self.alloc, &field.annotation, place, 1)?;
        let (value, behind) = self.value(&field.name, &field.value, place, mark)?;
        let field = ObjectField {
            mutable: field.mutable,
            name,
            annotation,
            value,
        };
        Ok((field, behind))
    }

    // A field without a value has that of its name.
    fn value(
        &self,
        name: &Name,
        value: &Option<Node<WrittenExpression>>,
        place: u32,
        mark: u32,
    ) -> Result<(Expression<u32>, u32), Memory>
        requires { Walks self.now.depth (F.pre self.now.expressions) (F.post self.now.expressions) (G.pre self.now.declarations) (G.post self.now.declarations) }
        ensures { IfOk result (IsFieldValue name.now place (option_map in_expression value.now) mark) }
    {
        match value {
            None => {
                let name = leaf_form(self.alloc, LeafForm::Name(name))?;
                Ok((make_expression(self.alloc, place, name)?, mark))
            }
            Some(a) => self.walk(a, mark, 1),
        }
    }

    /// The declarations of a block.
    pub fn declared(
        &self,
        declarations: &[Node<WrittenDeclaration>],
        at: u32,
        tokens: u32,
    ) -> Result<(Items<Declaration<u32>>, u32), Memory>
        requires { Walks self.now.depth (F.pre self.now.expressions) (F.post self.now.expressions) (G.pre self.now.declarations) (G.post self.now.declarations) }
        ensures { IfOk result (AreDeclarations (rules.declarations (map in_declaration declarations.now) (at + tokens)) (listed_size (map in_declaration declarations.now)) (at + tokens)) }
    {
        let mut next = number_behind(at, tokens)?;
        let mut mark = 0;
        let mut made = Items::new(self.alloc);
        for one in declarations {
            let (declaration, behind) = self.in_block(one, next, mark)?;
            made.push(declaration)?;
            next = behind;
            mark = 1;
        }
        Ok((made, next))
    }

    fn in_block(
        &self,
        d: &Node<WrittenDeclaration>,
        at: u32,
        tokens: u32,
    ) -> Result<(Declaration<u32>, u32), Memory>
        requires { Walks self.now.depth (F.pre self.now.expressions) (F.post self.now.expressions) (G.pre self.now.declarations) (G.post self.now.declarations) }
        ensures { IfOk result (Stands plain_declaration (in_block (in_declaration d.now)) (at + tokens)) }
    {
        let place = number_behind(at, tokens)?;
        let (form, behind) = self.walk_declared(d, place, 0)?;
        Ok((make_declaration(self.alloc, false, place, form)?, behind))
    }

    /// The fields of an object, class or actor, with their words.
    pub fn members(
        &self,
        fields: &[Node<DeclarationField>],
        at: u32,
        tokens: u32,
    ) -> Result<(Items<Declaration<u32>>, u32), Memory>
        requires { Walks self.now.depth (F.pre self.now.expressions) (F.post self.now.expressions) (G.pre self.now.declarations) (G.post self.now.declarations) }
        ensures { IfOk result (AreDeclarations (rules.members (map in_member fields.now) (at + tokens)) (listed_size (map in_member fields.now)) (at + tokens)) }
    {
        let mut next = number_behind(at, tokens)?;
        let mut mark = 0;
        let mut made = Items::new(self.alloc);
        for one in fields {
            let (field, behind) = self.visible(one.get(), next, mark)?;
            made.push(field)?;
            next = behind;
            mark = 1;
        }
        Ok((made, next))
    }

    fn visible(
        &self,
        field: &DeclarationField,
        at: u32,
        tokens: u32,
    ) -> Result<(Declaration<u32>, u32), Memory>
        requires { Walks self.now.depth (F.pre self.now.expressions) (F.post self.now.expressions) (G.pre self.now.declarations) (G.post self.now.declarations) }
        ensures { IfOk result (Stands plain_declaration (in_object (in_member field.now)) (at + tokens)) }
    {
        let place = number_behind(at, tokens)?;
        let words = word_count(field.visibility);
        let (form, behind) = self.walk_declared(&field.declaration, place, words)?;
        let made = make_declaration(self.alloc, is_public(field.visibility), place, form)?;
        Ok((made, behind))
    }
}
