//! The terms of written types.
ghost use Rattle.std.specs.Prelude.{◌≡◌, ℕ, [], IfOk, OnOk, map, option_map};
ghost use Rattle.typing_rules.specs.AbstractSyntax as syntax;
ghost use Rattle.typing_rules.specs.AbstractTypes.{type_nodes};
ghost use Rattle.typing_rules.specs.TypeScopes as rules;
ghost use Rattle.type_definitions.specs.Tables.{Makes};
ghost use Rattle.met_types.specs.States.{Kept};
ghost use Rattle.definition_rules.specs.Bounds.{Same};
ghost use Rattle.abstract_types.specs.TypeView.{type_field, type_node};
ghost use Rattle.type_scopes.specs.Scopes.{seen};
ghost use Rattle.written_types.specs.Written.{awaited, Interned, Is, promised, sort_of, Wrote, WroteEach, WroteField, WroteFields};

use crate::forms::{
    actor, array, function, future, mutable_array, object, optional, shared, tuple, variant,
};
use crate::names::used;
use abstract_types::{PlacedName, TypeField, TypeForm, TypeNode};
use met_types::Types;
use mo_num::{Bytes, Memory, Sequence};
use mo_syntax::Sharing;
use mo_types::{Field, Sort};
use type_scopes::TypeScope;
use type_terms::{Form, TermId};

/// A field of this name.
fn labelled(
    types: &Types,
    name: &PlacedName,
    mutable: bool,
    part: TermId,
) -> Result<Field<TermId>, Memory>
    ensures { IfOk result (λ made. made ≡ record { label = name.now.bytes; mutable = mutable; part = part }) }
{
    Ok(Field {
        label: Bytes::from_slice(types.terms().allocator(), name.bytes.as_slice())?,
        mutable,
        part,
    })
}

/// The type of a tag that is written without one.
fn unit(types: &mut Types) -> Result<TermId, Memory>
    requires { Kept types.old }
    ensures { IfOk result (Interned types.old types.new (Form.Tuple [])) }
{
    let nothing = Sequence::new(types.terms().allocator());
    tuple(types, nothing)
}

/// How a function is called.
fn sort_of(sharing: Sharing) -> Sort
    ensures { result ≡ sort_of sharing }
{
    match sharing {
        Sharing::Local => Sort::Local,
        Sharing::Shared => Sort::Shared,
        Sharing::SharedQuery => Sort::Query,
    }
}

/// The type `T` of `async T`.
pub fn awaited(of: &TypeNode) -> Option<&TypeNode>
    ensures { option_map (λ n. type_node n.now) result ≡ awaited (type_node of.now) }
{
    match of.form.get() {
        TypeForm::Async(promised) => Some(promised),
        TypeForm::Function(_, _, _) => None,
        TypeForm::Optional(_) => None,
        TypeForm::Use(_, _) => None,
        TypeForm::Tuple(_) => None,
        TypeForm::Array(_, _) => None,
        TypeForm::Object(_) => None,
        TypeForm::Variant(_) => None,
        TypeForm::Actor(_) => None,
    }
}

/// What a shared function promises.
fn promised(sharing: Sharing, of: &TypeNode) -> Option<&TypeNode>
    ensures { option_map (λ n. type_node n.now) result ≡ promised sharing (type_node of.now) }
{
    match sharing {
        Sharing::Local => None,
        Sharing::Shared => awaited(of),
        Sharing::SharedQuery => awaited(of),
    }
}

// A type of at most so many levels. One of more levels than there are addresses is none that memory holds.
#[cycle(within)]
fn term_within(
    scope: &TypeScope,
    types: &mut Types,
    depth: usize,
    node: &TypeNode,
) -> Result<TermId, Memory>
    requires { Kept types.old }
    ensures { IfOk result (Wrote types.old types.new (rules.term (seen scope.now) (type_node node.now))) }
{
    if depth == 0 {
        return Err(Memory);
    }
    match node.form.get() {
        TypeForm::Function(sharing, parameters, of) => function_within(
            scope,
            types,
            depth - 1,
            *sharing,
            parameters.as_slice(),
            of,
        ),
        TypeForm::Optional(of) => {
            let of = term_within(scope, types, depth - 1, of)?;
            optional(types, of)
        }
        TypeForm::Async(of) => {
            let of = term_within(scope, types, depth - 1, of)?;
            future(types, of)
        }
        TypeForm::Use(name, arguments) => {
            let arguments = each_within(scope, types, depth - 1, arguments.as_slice())?;
            used(scope, types, name.as_slice(), arguments.as_slice())
        }
        TypeForm::Tuple(items) => {
            let items = each_within(scope, types, depth - 1, items.as_slice())?;
            tuple(types, items)
        }
        TypeForm::Array(mutable, of) => {
            let of = term_within(scope, types, depth - 1, of)?;
            if *mutable {
                mutable_array(types, of)
            } else {
                array(types, of)
            }
        }
        TypeForm::Object(fields) => {
            let fields = fields_within(scope, types, depth - 1, fields.as_slice())?;
            object(types, fields)
        }
        TypeForm::Variant(tags) => {
            let tags = fields_within(scope, types, depth - 1, tags.as_slice())?;
            variant(types, tags)
        }
        TypeForm::Actor(methods) => {
            let methods = fields_within(scope, types, depth - 1, methods.as_slice())?;
            actor(types, methods)
        }
    }
}

/// A function's type. That of a shared function has `async T` as its result.
#[cycle(within)]
fn function_within(
    scope: &TypeScope,
    types: &mut Types,
    depth: usize,
    sharing: Sharing,
    parameters: &[TypeNode],
    of: &TypeNode,
) -> Result<TermId, Memory>
    requires { Kept types.old }
    ensures { IfOk result (λ made. (at : ℕ) → Wrote types.old types.new (rules.term (seen scope.now) (syntax.node at (syntax.Function sharing (type_nodes (map type_node parameters.now)) (type_node of.now)))) made) }
{
    let parameters = each_within(scope, types, depth, parameters)?;
    match promised(sharing, of) {
        Some(promised) => {
            let sort = sort_of(sharing);
            let promised = term_within(scope, types, depth, promised)?;
            shared(types, sort, parameters, promised)
        }
        None => {
            let of = term_within(scope, types, depth, of)?;
            function(types, parameters, of)
        }
    }
}

#[cycle(within)]
fn each_within(
    scope: &TypeScope,
    types: &mut Types,
    depth: usize,
    nodes: &[TypeNode],
) -> Result<Sequence<TermId>, Memory>
    requires { Kept types.old }
    ensures { IfOk result (WroteEach types.old types.new (map (λ n. rules.term (seen scope.now) (type_node n)) nodes.now)) }
{
    let mut made = Vec::with_capacity(types.terms().allocator(), nodes.len())?;
    for node in nodes {
        made.push(term_within(scope, types, depth, node)?)?;
    }
    Ok(Sequence::from_vec(made))
}

#[cycle(within)]
fn field_within(
    scope: &TypeScope,
    types: &mut Types,
    depth: usize,
    field: &TypeField,
) -> Result<Field<TermId>, Memory>
    requires { Kept types.old }
    ensures { IfOk result (WroteField types.old types.new (seen scope.now) (type_field field.now)) }
{
    match field {
        TypeField::Field(mutable, name, of) => {
            let part = term_within(scope, types, depth, of)?;
            labelled(types, name, *mutable, part)
        }
        TypeField::EmptyTag(name) => {
            let part = unit(types)?;
            labelled(types, name, false, part)
        }
    }
}

#[cycle(within)]
fn fields_within(
    scope: &TypeScope,
    types: &mut Types,
    depth: usize,
    fields: &[TypeField],
) -> Result<Sequence<Field<TermId>>, Memory>
    requires { Kept types.old }
    ensures { IfOk result (WroteFields types.old types.new (seen scope.now) (map type_field fields.now)) }
{
    let mut made = Vec::with_capacity(types.terms().allocator(), fields.len())?;
    for field in fields {
        made.push(field_within(scope, types, depth, field)?)?;
    }
    Ok(Sequence::from_vec(made))
}

/// The term that a written type stands for: Motoko language manual, section "Types". It recurses as deep as the type is written,
/// and types have no more levels than the parser lets pass.
pub fn term(scope: &TypeScope, types: &mut Types, node: &TypeNode) -> Result<TermId, Memory>
    requires { Kept types.old }
    ensures same { OnOk result (Same types.old types.new) }
    ensures made { IfOk result (λ id. Makes types.old.forms (Is (rules.term (seen scope.now) (type_node node.now)) id) id types.new.forms) }
{
    term_within(scope, types, usize::MAX, node)
}
