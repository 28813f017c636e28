//! The layers of patterns: each is walked over by the walk over the patterns in it. `at` is the number of a token, and what is asked
//! for stands so many tokens behind it.
ghost use Rattle.std.specs.Prelude.{◌≢◌, ◌≡◌, ◌+◌, ◌∷◌, [], IfOk, map, option_map, length};
ghost use Rattle.mo_syntax.specs.declared.patterns.Pattern.TheOpen as written;
ghost use Rattle.typing_rules.specs.AbstractSyntax as syntax;
ghost use Rattle.typing_rules.specs.AbstractPatterns.{in_pattern, in_pattern_field, pattern_step};
ghost use Rattle.abstract_types.specs.PatternView.{plain, plain_field, plain_form};
ghost use Rattle.abstract_type_walk.specs.Stands.{Is, Lists, Stands};
ghost use Rattle.abstract_pattern_walk.specs.PatternWalks.{Walks};

use abstract_type_walk::abstract_type;
use abstract_types::{
    Pattern, PatternField, PatternForm, copied_literal, count_if, make_pattern, number_behind,
    placed_name,
};
use mo_num::{Bytes, Memory};
use mo_syntax::{Items, Name, Node, Pattern as WrittenPattern, PatternField as WrittenField};
use std::alloc::Global;

/// The pattern of this form, and the number of the token behind so many more.
fn finish(
    alloc: Global,
    at: u32,
    form: PatternForm<u32>,
    last: u32,
    tokens: u32,
) -> Result<(Pattern<u32>, u32), Memory>
    ensures { IfOk result (Is plain (syntax.pattern at (plain_form form)) (last + tokens)) }
{
    let behind = number_behind(last, tokens)?;
    Ok((make_pattern(alloc, at, form)?, behind))
}

/// The pattern of a name alone.
fn variable(alloc: Global, name: &Name, at: u32) -> Result<Pattern<u32>, Memory>
    ensures { IfOk result (λ made. plain made ≡ syntax.pattern at (syntax.Variable name.now.bytes)) }
{
    let name = Bytes::from_slice(alloc, name.as_slice())?;
    make_pattern(alloc, at, PatternForm::Variable(name))
}

/// The pattern of a name alone, where it is the first parameter and the only one.
pub(crate) fn only_variable(
    alloc: Global,
    name: &Name,
    at: u32,
) -> Result<Items<Pattern<u32>>, Memory>
    ensures { IfOk result (λ made. map plain made ≡ syntax.pattern at (syntax.Variable name.now.bytes) ∷ []) }
{
    let mut made = Items::new(alloc);
    made.push(variable(alloc, name, at)?)?;
    Ok(made)
}

// A layer takes the walk over the layers below as a parameter, so that each function is proved by itself.
#[derive(Clone, Copy)]
pub(crate) struct PatternWalk<F> {
    pub alloc: Global,
    pub depth: usize,
    pub patterns: F,
}

impl<F: Fn(Global, usize, &WrittenPattern, u32) -> Result<(Pattern<u32>, u32), Memory>> PatternWalk<
    F,
> {
    fn walk(
        &self,
        q: &Node<WrittenPattern>,
        at: u32,
        tokens: u32,
    ) -> Result<(Pattern<u32>, u32), Memory>
        requires { Walks self.now.depth (F.pre self.now.patterns) (F.post self.now.patterns) }
        ensures { IfOk result (Stands plain (in_pattern q.now) (at + tokens)) }
    {
        (self.patterns)(self.alloc, self.depth, q.get(), number_behind(at, tokens)?)
    }

    pub(crate) fn layer(&self, q: &WrittenPattern, at: u32) -> Result<(Pattern<u32>, u32), Memory>
        requires { Walks self.now.depth (F.pre self.now.patterns) (F.post self.now.patterns) }
        ensures { IfOk result (Stands plain (in_pattern q.now) at) }
    {
        match q {
            WrittenPattern::Annotated(q, a) => {
                let (pattern, colon) = self.walk(q, at, 0)?;
                let (annotation, behind) = abstract_type(self.alloc, a.get(), colon, 1)?;
                finish(
                    self.alloc,
                    at,
                    PatternForm::Annotated(pattern, annotation),
                    behind,
                    0,
                )
            }
            WrittenPattern::Alternative(q, r) => {
                let (left, word) = self.walk(q, at, 0)?;
                let (right, behind) = self.walk(r, word, 1)?;
                finish(
                    self.alloc,
                    at,
                    PatternForm::Alternative(left, right),
                    behind,
                    0,
                )
            }
            WrittenPattern::Optional(q) => {
                let (of, behind) = self.walk(q, at, 1)?;
                finish(self.alloc, at, PatternForm::Optional(of), behind, 0)
            }
            WrittenPattern::Tagged(name, payload) => self.tagged(name, payload, at),
            WrittenPattern::Variable(name) => {
                let name = Bytes::from_slice(self.alloc, name.as_slice())?;
                finish(self.alloc, at, PatternForm::Variable(name), at, 1)
            }
            WrittenPattern::Wildcard => finish(self.alloc, at, PatternForm::Wildcard, at, 1),
            WrittenPattern::Constant(minus, literal) => {
                let literal = copied_literal(self.alloc, literal)?;
                let form = PatternForm::Constant(*minus, literal);
                finish(self.alloc, at, form, at, 1 + count_if(*minus))
            }
            WrittenPattern::Parenthesized(items) => self.parenthesized(items.as_slice(), at),
            WrittenPattern::Object(fields, last) => self.object(fields, *last, at),
        }
    }

    fn tagged(
        &self,
        name: &Name,
        payload: &Option<Node<WrittenPattern>>,
        at: u32,
    ) -> Result<(Pattern<u32>, u32), Memory>
        requires { Walks self.now.depth (F.pre self.now.patterns) (F.post self.now.patterns) }
        ensures { IfOk result (Stands plain (pattern_step (written.Tagged name.now (option_map in_pattern payload.now))) at) }
    {
        let name = Bytes::from_slice(self.alloc, name.as_slice())?;
        match payload {
            None => finish(self.alloc, at, PatternForm::Tag(name), at, 2),
            Some(q) => {
                let (of, behind) = self.walk(q, at, 2)?;
                finish(self.alloc, at, PatternForm::Tagged(name, of), behind, 0)
            }
        }
    }

    // One pattern in parentheses is that pattern itself.
    fn parenthesized(
        &self,
        items: &[Node<WrittenPattern>],
        at: u32,
    ) -> Result<(Pattern<u32>, u32), Memory>
        requires { Walks self.now.depth (F.pre self.now.patterns) (F.post self.now.patterns) }
        ensures { IfOk result (Stands plain (pattern_step (written.Parenthesized (map in_pattern items.now))) at) }
    {
        match items {
            [item] => {
                let (made, close) = self.walk(item, at, 1)?;
                Ok((made, number_behind(close, 1)?))
            }
            several => self.tuple(several, at),
        }
    }

    fn tuple(&self, items: &[Node<WrittenPattern>], at: u32) -> Result<(Pattern<u32>, u32), Memory>
        requires walks { Walks self.now.depth (F.pre self.now.patterns) (F.post self.now.patterns) }
        requires several { length items.now ≢ 1 }
        ensures { IfOk result (Stands plain (pattern_step (written.Parenthesized (map in_pattern items.now))) at) }
    {
        let (items, close) = self.each(items, at, 1)?;
        finish(self.alloc, at, PatternForm::Tuple(items), close, 1)
    }

    pub(crate) fn object(
        &self,
        fields: &Items<Node<WrittenField>>,
        last: bool,
        at: u32,
    ) -> Result<(Pattern<u32>, u32), Memory>
        requires { Walks self.now.depth (F.pre self.now.patterns) (F.post self.now.patterns) }
        ensures { IfOk result (Stands plain (pattern_step (written.Object (map in_pattern_field fields.now) last)) at) }
    {
        let (fields, end) = self.fields(fields.as_slice(), at, 1)?;
        finish(
            self.alloc,
            at,
            PatternForm::Object(fields),
            end,
            1 + count_if(last),
        )
    }

    fn field(
        &self,
        field: &WrittenField,
        at: u32,
        tokens: u32,
    ) -> Result<(PatternField<u32>, u32), Memory>
        requires { Walks self.now.depth (F.pre self.now.patterns) (F.post self.now.patterns) }
        ensures { IfOk result (Stands plain_field (in_pattern_field field.now) (at + tokens)) }
    {
        let place = number_behind(at, tokens)?;
        let name = placed_name(self.alloc, &field.name, place)?;
        match &field.pattern {
            None => {
                let pattern = variable(self.alloc, &field.name, place)?;
                Ok((PatternField { name, pattern }, number_behind(place, 1)?))
            }
            Some(q) => {
                let (pattern, behind) = self.walk(q, place, 2)?;
                Ok((PatternField { name, pattern }, behind))
            }
        }
    }

    // ---- lists, with a mark between each two

    pub(crate) fn each(
        &self,
        patterns: &[Node<WrittenPattern>],
        at: u32,
        tokens: u32,
    ) -> Result<(Items<Pattern<u32>>, u32), Memory>
        requires { Walks self.now.depth (F.pre self.now.patterns) (F.post self.now.patterns) }
        ensures { IfOk result (Lists plain (map in_pattern patterns.now) (at + tokens)) }
    {
        let mut next = number_behind(at, tokens)?;
        let mut mark = 0;
        let mut made = Items::new(self.alloc);
        for one in patterns {
            let (pattern, behind) = self.walk(one, next, mark)?;
            made.push(pattern)?;
            next = behind;
            mark = 1;
        }
        Ok((made, next))
    }

    fn fields(
        &self,
        fields: &[Node<WrittenField>],
        at: u32,
        tokens: u32,
    ) -> Result<(Items<PatternField<u32>>, u32), Memory>
        requires { Walks self.now.depth (F.pre self.now.patterns) (F.post self.now.patterns) }
        ensures { IfOk result (Lists plain_field (map in_pattern_field fields.now) (at + tokens)) }
    {
        let mut next = number_behind(at, tokens)?;
        let mut mark = 0;
        let mut made = Items::new(self.alloc);
        for one in fields {
            let (field, behind) = self.field(one.get(), next, mark)?;
            made.push(field)?;
            next = behind;
            mark = 1;
        }
        Ok((made, next))
    }
}
