//! The layers of types: each is walked over by the walk over the types in it. `at` is the number of a token, and what is asked for
//! stands so many tokens behind it.
ghost use Rattle.std.specs.Prelude.{◌≢◌, ◌≡◌, ◌∷◌, ◌+◌, [], IfOk, map, option_map, length};
ghost use Rattle.mo_syntax.specs.declared.types.TypeExpression.TheOpen as written;
ghost use Rattle.typing_rules.specs.AbstractSyntax as syntax;
ghost use Rattle.typing_rules.specs.AbstractTypes.{in_type, in_type_field, in_type_item, in_type_method, in_type_tag, sharing_size, type_span, type_span_of, type_step};
ghost use Rattle.abstract_types.specs.TypeView.{type_field, type_form, type_node};
ghost use Rattle.abstract_type_walk.specs.Stands.{Is, Lists, Stands};
ghost use Rattle.abstract_type_walk.specs.TypeWalks.{AreArguments, AreParameters, Walks};

use abstract_types::{
    TypeField, TypeForm, TypeNode, count_if, make_node, number_behind, placed_name,
};
use mo_num::{Bytes, Memory};
use mo_syntax::{
    Items, Node, Sharing, TypeExpression, TypeField as WrittenField, TypeItem, TypeMethod, TypeTag,
};
use std::alloc::Global;

/// How many words stand before a function type.
fn sharing_words(sharing: Sharing) -> u32
    ensures { result ≡ sharing_size sharing }
{
    match sharing {
        Sharing::Local => 0,
        Sharing::Shared => 1,
        Sharing::SharedQuery => 2,
    }
}

/// The type of this form, and the number of the token behind so many more.
fn finish(
    alloc: Global,
    at: u32,
    form: TypeForm,
    last: u32,
    tokens: u32,
) -> Result<(TypeNode, u32), Memory>
    ensures { IfOk result (Is type_node (syntax.node at (type_form form)) (last + tokens)) }
{
    let behind = number_behind(last, tokens)?;
    Ok((make_node(alloc, at, form)?, behind))
}

/// The list of this type alone.
fn only(alloc: Global, node: TypeNode) -> Result<Items<TypeNode>, Memory>
    ensures { IfOk result (λ made. made ≡ node ∷ []) }
{
    let mut made = Items::new(alloc);
    made.push(node)?;
    Ok(made)
}

// A layer takes the walk over the layers below as a parameter, so that each function is proved by itself.
#[derive(Clone, Copy)]
pub(crate) struct TypeWalk<F> {
    pub alloc: Global,
    pub depth: usize,
    pub types: F,
}

impl<F: Fn(Global, usize, &TypeExpression, u32) -> Result<(TypeNode, u32), Memory>> TypeWalk<F> {
    fn walk(
        &self,
        a: &Node<TypeExpression>,
        at: u32,
        tokens: u32,
    ) -> Result<(TypeNode, u32), Memory>
        requires { Walks self.now.depth (F.pre self.now.types) (F.post self.now.types) }
        ensures { IfOk result (Stands type_node (in_type a.now) (at + tokens)) }
    {
        (self.types)(self.alloc, self.depth, a.get(), number_behind(at, tokens)?)
    }

    pub(crate) fn layer(&self, a: &TypeExpression, at: u32) -> Result<(TypeNode, u32), Memory>
        requires { Walks self.now.depth (F.pre self.now.types) (F.post self.now.types) }
        ensures { IfOk result (Stands type_node (in_type a.now) at) }
    {
        match a {
            TypeExpression::Function(sharing, a, b) => self.function(*sharing, a, b, at),
            TypeExpression::Optional(a) => {
                let (of, behind) = self.walk(a, at, 1)?;
                finish(self.alloc, at, TypeForm::Optional(of), behind, 0)
            }
            TypeExpression::Async(a) => {
                let (of, behind) = self.walk(a, at, 1)?;
                finish(self.alloc, at, TypeForm::Async(of), behind, 0)
            }
            TypeExpression::Named(name, arguments) => {
                let name = Bytes::from_slice(self.alloc, name.as_slice())?;
                let (arguments, behind) = self.arguments(arguments, at)?;
                finish(self.alloc, at, TypeForm::Use(name, arguments), behind, 0)
            }
            TypeExpression::Parenthesized(items) => self.parenthesized(items.as_slice(), at),
            TypeExpression::Array(mutable, a) => {
                let (of, close) = self.walk(a, at, 1 + count_if(*mutable))?;
                finish(self.alloc, at, TypeForm::Array(*mutable, of), close, 1)
            }
            TypeExpression::Object(word, fields, last) => {
                let (fields, end) = self.fields(fields.as_slice(), at, 1 + count_if(*word))?;
                finish(
                    self.alloc,
                    at,
                    TypeForm::Object(fields),
                    end,
                    1 + count_if(*last),
                )
            }
            TypeExpression::EmptyVariant => {
                finish(
                    self.alloc,
                    at,
                    TypeForm::Variant(Items::new(self.alloc)),
                    at,
                    3,
                )
            }
            TypeExpression::Variant(tags, last) => {
                let (tags, end) = self.tags(tags.as_slice(), at, 1)?;
                finish(
                    self.alloc,
                    at,
                    TypeForm::Variant(tags),
                    end,
                    1 + count_if(*last),
                )
            }
            TypeExpression::Actor(methods, last) => {
                let (methods, end) = self.methods(methods.as_slice(), at, 2)?;
                finish(
                    self.alloc,
                    at,
                    TypeForm::Actor(methods),
                    end,
                    1 + count_if(*last),
                )
            }
        }
    }

    fn function(
        &self,
        sharing: Sharing,
        a: &Node<TypeExpression>,
        b: &Node<TypeExpression>,
        at: u32,
    ) -> Result<(TypeNode, u32), Memory>
        requires { Walks self.now.depth (F.pre self.now.types) (F.post self.now.types) }
        ensures { IfOk result (Stands type_node (type_span_of (type_step (written.Function sharing (type_span a.now) (type_span b.now)))) at) }
    {
        let (parameters, arrow) = self.parameters(a, number_behind(at, sharing_words(sharing))?)?;
        let (of, behind) = self.walk(b, arrow, 1)?;
        finish(
            self.alloc,
            at,
            TypeForm::Function(sharing, parameters, of),
            behind,
            0,
        )
    }

    // The outermost parentheses before `->` are the list of parameters.
    fn parameters(
        &self,
        a: &Node<TypeExpression>,
        at: u32,
    ) -> Result<(Items<TypeNode>, u32), Memory>
        requires { Walks self.now.depth (F.pre self.now.types) (F.post self.now.types) }
        ensures { IfOk result (AreParameters (type_span a.now) at) }
    {
        match a.get() {
            TypeExpression::Parenthesized(items) => {
                let (made, close) = self.items(items.as_slice(), at, 1)?;
                Ok((made, number_behind(close, 1)?))
            }
            _ => {
                let (node, behind) = self.walk(a, at, 0)?;
                Ok((only(self.alloc, node)?, behind))
            }
        }
    }

    // The arguments in `< >` behind a name, where these stand.
    fn arguments(
        &self,
        arguments: &Option<Items<Node<TypeExpression>>>,
        at: u32,
    ) -> Result<(Items<TypeNode>, u32), Memory>
        requires { Walks self.now.depth (F.pre self.now.types) (F.post self.now.types) }
        ensures { IfOk result (AreArguments (option_map (map type_span) arguments.now) (at + 1)) }
    {
        match arguments {
            None => Ok((Items::new(self.alloc), number_behind(at, 1)?)),
            Some(arguments) => {
                let (made, close) = self.each(arguments.as_slice(), at, 2)?;
                Ok((made, number_behind(close, 1)?))
            }
        }
    }

    // One type in parentheses is that type itself.
    fn parenthesized(&self, items: &[Node<TypeItem>], at: u32) -> Result<(TypeNode, u32), Memory>
        requires { Walks self.now.depth (F.pre self.now.types) (F.post self.now.types) }
        ensures { IfOk result (Stands type_node (type_span_of (type_step (written.Parenthesized (map in_type_item items.now)))) at) }
    {
        match items {
            [item] => {
                let (made, close) = self.item(item.get(), at, 1)?;
                Ok((made, number_behind(close, 1)?))
            }
            several => self.tuple(several, at),
        }
    }

    fn tuple(&self, items: &[Node<TypeItem>], at: u32) -> Result<(TypeNode, u32), Memory>
        requires walks { Walks self.now.depth (F.pre self.now.types) (F.post self.now.types) }
        requires several { length items.now ≢ 1 }
        ensures { IfOk result (Stands type_node (type_span_of (type_step (written.Parenthesized (map in_type_item items.now)))) at) }
    {
        let (items, close) = self.items(items, at, 1)?;
        finish(self.alloc, at, TypeForm::Tuple(items), close, 1)
    }

    // ---- items

    fn item(&self, item: &TypeItem, at: u32, tokens: u32) -> Result<(TypeNode, u32), Memory>
        requires { Walks self.now.depth (F.pre self.now.types) (F.post self.now.types) }
        ensures { IfOk result (Stands type_node (in_type_item item.now) (at + tokens)) }
    {
        let place = number_behind(at, tokens)?;
        match &item.name {
            None => self.walk(&item.annotation, place, 0),
            Some(_) => self.walk(&item.annotation, place, 2),
        }
    }

    fn field(&self, field: &WrittenField, at: u32, tokens: u32) -> Result<(TypeField, u32), Memory>
        requires { Walks self.now.depth (F.pre self.now.types) (F.post self.now.types) }
        ensures { IfOk result (Stands type_field (in_type_field field.now) (at + tokens)) }
    {
        let place = number_behind(number_behind(at, tokens)?, count_if(field.mutable))?;
        let name = placed_name(self.alloc, &field.name, place)?;
        let (of, behind) = self.walk(&field.annotation, place, 2)?;
        Ok((TypeField::Field(field.mutable, name, of), behind))
    }

    fn method(&self, method: &TypeMethod, at: u32, tokens: u32) -> Result<(TypeField, u32), Memory>
        requires { Walks self.now.depth (F.pre self.now.types) (F.post self.now.types) }
        ensures { IfOk result (Stands type_field (in_type_method method.now) (at + tokens)) }
    {
        let place = number_behind(at, tokens)?;
        let name = placed_name(self.alloc, &method.name, place)?;
        let (of, behind) = self.walk(&method.annotation, place, 2)?;
        Ok((TypeField::Field(false, name, of), behind))
    }

    fn tag(&self, tag: &TypeTag, at: u32, tokens: u32) -> Result<(TypeField, u32), Memory>
        requires { Walks self.now.depth (F.pre self.now.types) (F.post self.now.types) }
        ensures { IfOk result (Stands type_field (in_type_tag tag.now) (at + tokens)) }
    {
        let place = number_behind(number_behind(at, tokens)?, 1)?;
        let name = placed_name(self.alloc, &tag.name, place)?;
        match &tag.payload {
            None => Ok((TypeField::EmptyTag(name), number_behind(place, 1)?)),
            Some(a) => {
                let (of, behind) = self.walk(a, place, 2)?;
                Ok((TypeField::Field(false, name, of), behind))
            }
        }
    }

    // ---- lists, with a mark between each two

    pub(crate) fn each(
        &self,
        types: &[Node<TypeExpression>],
        at: u32,
        tokens: u32,
    ) -> Result<(Items<TypeNode>, u32), Memory>
        requires { Walks self.now.depth (F.pre self.now.types) (F.post self.now.types) }
        ensures { IfOk result (Lists type_node (map in_type types.now) (at + tokens)) }
    {
        let mut next = number_behind(at, tokens)?;
        let mut mark = 0;
        let mut made = Items::new(self.alloc);
        for one in types {
            let (node, behind) = self.walk(one, next, mark)?;
            made.push(node)?;
            next = behind;
            mark = 1;
        }
        Ok((made, next))
    }

    fn items(
        &self,
        items: &[Node<TypeItem>],
        at: u32,
        tokens: u32,
    ) -> Result<(Items<TypeNode>, u32), Memory>
        requires { Walks self.now.depth (F.pre self.now.types) (F.post self.now.types) }
        ensures { IfOk result (Lists type_node (map in_type_item items.now) (at + tokens)) }
    {
        let mut next = number_behind(at, tokens)?;
        let mut mark = 0;
        let mut made = Items::new(self.alloc);
        for one in items {
            let (node, behind) = self.item(one.get(), next, mark)?;
            made.push(node)?;
            next = behind;
            mark = 1;
        }
        Ok((made, next))
    }

    fn fields(
        &self,
        fields: &[Node<WrittenField>],
        at: u32,
        tokens: u32,
    ) -> Result<(Items<TypeField>, u32), Memory>
        requires { Walks self.now.depth (F.pre self.now.types) (F.post self.now.types) }
        ensures { IfOk result (Lists type_field (map in_type_field fields.now) (at + tokens)) }
    {
        let mut next = number_behind(at, tokens)?;
        let mut mark = 0;
        let mut made = Items::new(self.alloc);
        for one in fields {
            let (field, behind) = self.field(one.get(), next, mark)?;
            made.push(field)?;
            next = behind;
            mark = 1;
        }
        Ok((made, next))
    }

    fn tags(
        &self,
        tags: &[Node<TypeTag>],
        at: u32,
        tokens: u32,
    ) -> Result<(Items<TypeField>, u32), Memory>
        requires { Walks self.now.depth (F.pre self.now.types) (F.post self.now.types) }
        ensures { IfOk result (Lists type_field (map in_type_tag tags.now) (at + tokens)) }
    {
        let mut next = number_behind(at, tokens)?;
        let mut mark = 0;
        let mut made = Items::new(self.alloc);
        for one in tags {
            let (tag, behind) = self.tag(one.get(), next, mark)?;
            made.push(tag)?;
            next = behind;
            mark = 1;
        }
        Ok((made, next))
    }

    fn methods(
        &self,
        methods: &[Node<TypeMethod>],
        at: u32,
        tokens: u32,
    ) -> Result<(Items<TypeField>, u32), Memory>
        requires { Walks self.now.depth (F.pre self.now.types) (F.post self.now.types) }
        ensures { IfOk result (Lists type_field (map in_type_method methods.now) (at + tokens)) }
    {
        let mut next = number_behind(at, tokens)?;
        let mut mark = 0;
        let mut made = Items::new(self.alloc);
        for one in methods {
            let (method, behind) = self.method(one.get(), next, mark)?;
            made.push(method)?;
            next = behind;
            mark = 1;
        }
        Ok((made, next))
    }
}
