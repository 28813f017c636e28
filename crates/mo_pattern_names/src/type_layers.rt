//! The layers of types: each is walked over the walk of the types in it.
ghost use Rattle.std.specs.Prelude.{◌≡◌, ◌++◌, ◌∷◌, [], OnOk, map, option_map};
ghost use Rattle.mo_scopes.specs.Findings.{identifier, label, together, labels, used, each, each_within, within};
ghost use Rattle.mo_scopes.specs.Scopes.{type_meaning};
ghost use Rattle.mo_pattern_names.specs.TypeNames.{in_type, in_type_field, in_type_item, in_type_method, in_type_tag, members, each_item, item_names, item_identifier, item_name};
ghost use Rattle.mo_pattern_names.specs.Walks.{WalksTypes};

use crate::walk::Walk;
use mo_name_table::{Names, push_copy};
use mo_num::Memory;
use mo_scopes::{Findings, Scope, identifier, label, labels, together, used};
use mo_syntax::{Items, Name, Node, TypeExpression, TypeField, TypeItem, TypeMethod, TypeTag};
use std::alloc::Global;

fn labels_together(alloc: Global, names: &[Name], found: &mut Findings) -> Result<(), Memory>
    ensures { OnOk result (found.new ≡ found.old ++ (together names.now ++ labels names.now)) }
{
    together(alloc, names, found)?;
    labels(alloc, names, found)
}

// A use of a type.
fn type_name(name: &Name, scope: &Scope, found: &mut Findings) -> Result<(), Memory>
    ensures { OnOk result (found.new ≡ found.old ++ (identifier name.now ++ used (type_meaning scope.now name.now.bytes) name.now)) }
{
    identifier(name, found)?;
    used(scope.type_meaning(name), name, found)
}

// The name of a part in parentheses, where it has one.
fn named_item(
    alloc: Global,
    name: &Option<Name>,
    names: &mut Names,
    found: &mut Findings,
) -> Result<(), Memory>
    ensures found { OnOk result (found.new ≡ found.old ++ item_identifier name.now) }
    ensures names { OnOk result (names.new ≡ names.old ++ item_name name.now) }
{
    match name {
        None => Ok(()),
        Some(name) => {
            push_copy(alloc, names, name)?;
            identifier(name, found)
        }
    }
}

// A label.
fn named_label(
    alloc: Global,
    name: &Name,
    names: &mut Names,
    found: &mut Findings,
) -> Result<(), Memory>
    ensures found { OnOk result (found.new ≡ found.old ++ label name.now) }
    ensures names { OnOk result (names.new ≡ names.old ++ name.now ∷ []) }
{
    push_copy(alloc, names, name)?;
    label(name, found)
}

/// The walk of one layer. That of the types in it is a parameter, so that each function is proved by itself.
#[derive(Clone, Copy)]
pub(crate) struct TypeLayers<F> {
    pub walk: Walk,
    pub depth: usize,
    pub inner: F,
}

impl<F: Fn(Walk, usize, &TypeExpression, &Scope, &mut Findings) -> Result<(), Memory>> TypeLayers<
    F,
> {
    fn part(&self, a: &TypeExpression, scope: &Scope, found: &mut Findings) -> Result<(), Memory>
        requires { WalksTypes self.now.depth (F.pre self.now.inner) (F.post self.now.inner) }
        ensures { OnOk result (found.new ≡ found.old ++ in_type a.now scope.now) }
    {
        (self.inner)(self.walk, self.depth, a, scope, found)
    }

    #[tactic(auto, unfolding(crate::specs::TypeNames::in_type, crate::specs::TypeNames::in_type_field, crate::specs::TypeNames::in_type_item, crate::specs::TypeNames::in_type_method, crate::specs::TypeNames::in_type_tag))]
    pub(crate) fn type_expression(
        &self,
        a: &TypeExpression,
        scope: &Scope,
        found: &mut Findings,
    ) -> Result<(), Memory>
        requires { WalksTypes self.now.depth (F.pre self.now.inner) (F.post self.now.inner) }
        ensures { OnOk result (found.new ≡ found.old ++ in_type a.now scope.now) }
    {
        match a {
            TypeExpression::Function(_, a, b) => self.both(a.get(), b.get(), scope, found),
            TypeExpression::Optional(a) => self.part(a.get(), scope, found),
            TypeExpression::Async(a) => self.part(a.get(), scope, found),
            TypeExpression::Array(_, a) => self.part(a.get(), scope, found),
            TypeExpression::Named(name, arguments) => self.named(name, arguments, scope, found),
            TypeExpression::Parenthesized(items) => self.items(items.as_slice(), scope, found),
            TypeExpression::Object(_, fields, _) => self.fields(fields.as_slice(), scope, found),
            TypeExpression::EmptyVariant => Ok(()),
            TypeExpression::Variant(tags, _) => self.tags(tags.as_slice(), scope, found),
            TypeExpression::Actor(methods, _) => self.methods(methods.as_slice(), scope, found),
        }
    }

    fn both(
        &self,
        a: &TypeExpression,
        b: &TypeExpression,
        scope: &Scope,
        found: &mut Findings,
    ) -> Result<(), Memory>
        requires { WalksTypes self.now.depth (F.pre self.now.inner) (F.post self.now.inner) }
        ensures { OnOk result (found.new ≡ found.old ++ (in_type a.now scope.now ++ in_type b.now scope.now)) }
    {
        self.part(a, scope, found)?;
        self.part(b, scope, found)
    }

    fn named(
        &self,
        name: &Name,
        arguments: &Option<Items<Node<TypeExpression>>>,
        scope: &Scope,
        found: &mut Findings,
    ) -> Result<(), Memory>
        requires { WalksTypes self.now.depth (F.pre self.now.inner) (F.post self.now.inner) }
        ensures { OnOk result (found.new ≡ found.old ++ (identifier name.now ++ (used (type_meaning scope.now name.now.bytes) name.now ++ each_within (option_map (map in_type) arguments.now) scope.now))) }
    {
        type_name(name, scope, found)?;
        self.arguments(arguments, scope, found)
    }

    pub(crate) fn arguments(
        &self,
        arguments: &Option<Items<Node<TypeExpression>>>,
        scope: &Scope,
        found: &mut Findings,
    ) -> Result<(), Memory>
        requires { WalksTypes self.now.depth (F.pre self.now.inner) (F.post self.now.inner) }
        ensures { OnOk result (found.new ≡ found.old ++ each_within (option_map (map in_type) arguments.now) scope.now) }
    {
        match arguments {
            None => Ok(()),
            Some(types) => self.types(types.as_slice(), scope, found),
        }
    }

    fn types(
        &self,
        types: &[Node<TypeExpression>],
        scope: &Scope,
        found: &mut Findings,
    ) -> Result<(), Memory>
        requires { WalksTypes self.now.depth (F.pre self.now.inner) (F.post self.now.inner) }
        ensures { OnOk result (found.new ≡ found.old ++ each (map in_type types.now) scope.now) }
    {
        for one in types {
            self.part(one.get(), scope, found)?;
        }
        Ok(())
    }

    fn items(
        &self,
        items: &[Node<TypeItem>],
        scope: &Scope,
        found: &mut Findings,
    ) -> Result<(), Memory>
        requires { WalksTypes self.now.depth (F.pre self.now.inner) (F.post self.now.inner) }
        ensures { OnOk result (found.new ≡ found.old ++ (each_item (map in_type_item items.now) scope.now ++ together (item_names (map in_type_item items.now)))) }
    {
        let mut names = Names::new(self.walk.alloc);
        for one in items {
            self.item(one.get(), scope, &mut names, found)?;
        }
        together(self.walk.alloc, names.as_slice(), found)
    }

    fn named_part(
        &self,
        name: &Option<Name>,
        a: &TypeExpression,
        scope: &Scope,
        names: &mut Names,
        found: &mut Findings,
    ) -> Result<(), Memory>
        requires { WalksTypes self.now.depth (F.pre self.now.inner) (F.post self.now.inner) }
        ensures found { OnOk result (found.new ≡ found.old ++ (item_identifier name.now ++ in_type a.now scope.now)) }
        ensures names { OnOk result (names.new ≡ names.old ++ item_name name.now) }
    {
        named_item(self.walk.alloc, name, names, found)?;
        self.part(a, scope, found)
    }

    #[tactic(auto, unfolding(crate::specs::TypeNames::in_type, crate::specs::TypeNames::in_type_field, crate::specs::TypeNames::in_type_item, crate::specs::TypeNames::in_type_method, crate::specs::TypeNames::in_type_tag))]
    fn item(
        &self,
        item: &TypeItem,
        scope: &Scope,
        names: &mut Names,
        found: &mut Findings,
    ) -> Result<(), Memory>
        requires { WalksTypes self.now.depth (F.pre self.now.inner) (F.post self.now.inner) }
        ensures found { OnOk result (found.new ≡ found.old ++ (in_type_item item.now).finds scope.now) }
        ensures names { OnOk result (names.new ≡ names.old ++ (in_type_item item.now).names) }
    {
        self.named_part(&item.name, item.annotation.get(), scope, names, found)
    }

    fn labelled(
        &self,
        name: &Name,
        a: &TypeExpression,
        scope: &Scope,
        names: &mut Names,
        found: &mut Findings,
    ) -> Result<(), Memory>
        requires { WalksTypes self.now.depth (F.pre self.now.inner) (F.post self.now.inner) }
        ensures found { OnOk result (found.new ≡ found.old ++ (label name.now ++ in_type a.now scope.now)) }
        ensures names { OnOk result (names.new ≡ names.old ++ name.now ∷ []) }
    {
        named_label(self.walk.alloc, name, names, found)?;
        self.part(a, scope, found)
    }

    fn fields(
        &self,
        fields: &[Node<TypeField>],
        scope: &Scope,
        found: &mut Findings,
    ) -> Result<(), Memory>
        requires { WalksTypes self.now.depth (F.pre self.now.inner) (F.post self.now.inner) }
        ensures { OnOk result (found.new ≡ found.old ++ members (map in_type_field fields.now) scope.now) }
    {
        let mut names = Names::new(self.walk.alloc);
        for one in fields {
            self.field(one.get(), scope, &mut names, found)?;
        }
        labels_together(self.walk.alloc, names.as_slice(), found)
    }

    #[tactic(auto, unfolding(crate::specs::TypeNames::in_type, crate::specs::TypeNames::in_type_field, crate::specs::TypeNames::in_type_item, crate::specs::TypeNames::in_type_method, crate::specs::TypeNames::in_type_tag))]
    fn field(
        &self,
        field: &TypeField,
        scope: &Scope,
        names: &mut Names,
        found: &mut Findings,
    ) -> Result<(), Memory>
        requires { WalksTypes self.now.depth (F.pre self.now.inner) (F.post self.now.inner) }
        ensures found { OnOk result (found.new ≡ found.old ++ (in_type_field field.now).finds scope.now) }
        ensures names { OnOk result (names.new ≡ names.old ++ (in_type_field field.now).name ∷ []) }
    {
        self.labelled(&field.name, field.annotation.get(), scope, names, found)
    }

    fn methods(
        &self,
        methods: &[Node<TypeMethod>],
        scope: &Scope,
        found: &mut Findings,
    ) -> Result<(), Memory>
        requires { WalksTypes self.now.depth (F.pre self.now.inner) (F.post self.now.inner) }
        ensures { OnOk result (found.new ≡ found.old ++ members (map in_type_method methods.now) scope.now) }
    {
        let mut names = Names::new(self.walk.alloc);
        for one in methods {
            self.method(one.get(), scope, &mut names, found)?;
        }
        labels_together(self.walk.alloc, names.as_slice(), found)
    }

    #[tactic(auto, unfolding(crate::specs::TypeNames::in_type, crate::specs::TypeNames::in_type_field, crate::specs::TypeNames::in_type_item, crate::specs::TypeNames::in_type_method, crate::specs::TypeNames::in_type_tag))]
    fn method(
        &self,
        method: &TypeMethod,
        scope: &Scope,
        names: &mut Names,
        found: &mut Findings,
    ) -> Result<(), Memory>
        requires { WalksTypes self.now.depth (F.pre self.now.inner) (F.post self.now.inner) }
        ensures found { OnOk result (found.new ≡ found.old ++ (in_type_method method.now).finds scope.now) }
        ensures names { OnOk result (names.new ≡ names.old ++ (in_type_method method.now).name ∷ []) }
    {
        self.labelled(&method.name, method.annotation.get(), scope, names, found)
    }

    fn tags(
        &self,
        tags: &[Node<TypeTag>],
        scope: &Scope,
        found: &mut Findings,
    ) -> Result<(), Memory>
        requires { WalksTypes self.now.depth (F.pre self.now.inner) (F.post self.now.inner) }
        ensures { OnOk result (found.new ≡ found.old ++ members (map in_type_tag tags.now) scope.now) }
    {
        let mut names = Names::new(self.walk.alloc);
        for one in tags {
            self.tag(one.get(), scope, &mut names, found)?;
        }
        labels_together(self.walk.alloc, names.as_slice(), found)
    }

    fn payload(
        &self,
        payload: &Option<Node<TypeExpression>>,
        scope: &Scope,
        found: &mut Findings,
    ) -> Result<(), Memory>
        requires { WalksTypes self.now.depth (F.pre self.now.inner) (F.post self.now.inner) }
        ensures { OnOk result (found.new ≡ found.old ++ within (option_map in_type payload.now) scope.now) }
    {
        match payload {
            None => Ok(()),
            Some(payload) => self.part(payload.get(), scope, found),
        }
    }

    fn tagged(
        &self,
        name: &Name,
        payload: &Option<Node<TypeExpression>>,
        scope: &Scope,
        names: &mut Names,
        found: &mut Findings,
    ) -> Result<(), Memory>
        requires { WalksTypes self.now.depth (F.pre self.now.inner) (F.post self.now.inner) }
        ensures found { OnOk result (found.new ≡ found.old ++ (label name.now ++ within (option_map in_type payload.now) scope.now)) }
        ensures names { OnOk result (names.new ≡ names.old ++ name.now ∷ []) }
    {
        named_label(self.walk.alloc, name, names, found)?;
        self.payload(payload, scope, found)
    }

    #[tactic(auto, unfolding(crate::specs::TypeNames::in_type, crate::specs::TypeNames::in_type_field, crate::specs::TypeNames::in_type_item, crate::specs::TypeNames::in_type_method, crate::specs::TypeNames::in_type_tag))]
    fn tag(
        &self,
        tag: &TypeTag,
        scope: &Scope,
        names: &mut Names,
        found: &mut Findings,
    ) -> Result<(), Memory>
        requires { WalksTypes self.now.depth (F.pre self.now.inner) (F.post self.now.inner) }
        ensures found { OnOk result (found.new ≡ found.old ++ (in_type_tag tag.now).finds scope.now) }
        ensures names { OnOk result (names.new ≡ names.old ++ (in_type_tag tag.now).name ∷ []) }
    {
        self.tagged(&tag.name, &tag.payload, scope, names, found)
    }
}
