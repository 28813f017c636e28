//! The abstract syntax of a program.
ghost use Rattle.std.specs.Prelude.{◌≡◌, ◌+◌, IfOk, None, Some, map};
ghost use Rattle.typing_rules.specs.AbstractExpressions as rules;
ghost use Rattle.typing_rules.specs.AbstractExpressions.{in_expression, signature_span};
ghost use Rattle.typing_rules.specs.AbstractPrograms.{abstract, in_context, in_field, in_prefix, in_sort, method_span};
ghost use Rattle.mo_syntax.specs.declared.program.ActorField.TheVariants as field;
ghost use Rattle.mo_syntax.specs.declared.program.Context.TheVariants as context;
ghost use Rattle.abstract_type_walk.specs.Stands.{Stands};
ghost use Rattle.abstract_programs.specs.ProgramWalks.{AreImports, IsActorName, IsContext, IsPrefix};
ghost use Rattle.abstract_tree.specs.TreeView.{declarations, plain_declaration, plain_program};
ghost use Rattle.abstract_parts.specs.TreeWalks.{in_object};

use abstract_expression_walk::{abstract_declaration, abstract_expression};
use abstract_pattern_walk::{abstract_object_pattern, abstract_pattern, abstract_public_signature};
use abstract_tree::{Declaration, DeclarationForm, Import, Program, make_declaration};
use abstract_type_walk::abstract_annotation;
use abstract_types::{Pattern, count_if, number_behind, placed_name};
use mo_num::{Bytes, Memory};
use mo_syntax::{
    ActorField, Context, Declaration as WrittenDeclaration, Expression as WrittenExpression,
    Import as WrittenImport, Items, Name, Node, PatternField, SharedFunction, SharedPrefix,
    SharedSort, Tree, TypeExpression,
};
use std::alloc::Global;

fn object_context(
    alloc: Global,
    fields: &Items<Node<PatternField>>,
    last: bool,
    at: u32,
) -> Result<(Option<Pattern<u32>>, u32), Memory>
    ensures { IfOk result (IsContext (in_context (Some (context.Object fields.now last))) at) }
{
    let (pattern, behind) = abstract_object_pattern(alloc, fields, last, at)?;
    Ok((Some(pattern), behind))
}

/// The pattern of the context of a call, where it stands.
fn abstract_context(
    alloc: Global,
    context: &Option<Context>,
    at: u32,
) -> Result<(Option<Pattern<u32>>, u32), Memory>
    ensures { IfOk result (IsContext (in_context context.now) at) }
{
    match context {
        None => Ok((None, at)),
        Some(Context::Parenthesized(q)) => {
            let (pattern, close) = abstract_pattern(alloc, q.get(), at, 1)?;
            Ok((Some(pattern), number_behind(close, 1)?))
        }
        Some(Context::Object(fields, last)) => object_context(alloc, fields, *last, at),
    }
}

/// How many words stand before `func`, and whether `query` is one of them.
fn sort_words(sort: SharedSort) -> (u32, bool)
    ensures words { result.0 ≡ (in_sort sort None).words }
    ensures query { result.1 ≡ (in_sort sort None).query }
{
    match sort {
        SharedSort::Shared => (1, false),
        SharedSort::SharedQuery => (2, true),
        SharedSort::Query => (1, true),
    }
}

/// What stands before `func`: whether it is a query, and the pattern of the context.
fn abstract_prefix(
    alloc: Global,
    prefix: &Option<SharedPrefix>,
    at: u32,
) -> Result<(bool, Option<Pattern<u32>>, u32), Memory>
    ensures { IfOk result (IsPrefix (in_prefix prefix.now) at) }
{
    match prefix {
        None => Ok((false, None, at)),
        Some(prefix) => {
            let (words, query) = sort_words(prefix.sort);
            let (context, behind) = abstract_context(
                alloc,
                &prefix.context,
                number_behind(at, words)?,
            )?;
            Ok((query, context, behind))
        }
    }
}

/// A public function of the actor.
fn method(
    alloc: Global,
    written: &SharedFunction,
    at: u32,
) -> Result<(Declaration<u32>, u32), Memory>
    ensures { IfOk result (Stands plain_declaration (in_object (method_span (in_prefix written.now.prefix) written.now.name (signature_span None written.now.parameters (Some written.now.result) written.now.equal_sign) (in_expression written.now.body))) at) }
{
    let (query, context, word) = abstract_prefix(alloc, &written.prefix, number_behind(at, 1)?)?;
    let place = number_behind(word, 1)?;
    let name = placed_name(alloc, &written.name, place)?;
    let (signature, middle) = abstract_public_signature(
        alloc,
        &written.parameters,
        &written.result,
        written.equal_sign,
        number_behind(place, 1)?,
    )?;
    let (body, behind) = abstract_expression(alloc, written.body.get(), middle, 0)?;
    let form = DeclarationForm::Method(query, context, name, signature, body);
    Ok((make_declaration(alloc, true, at, form)?, behind))
}

/// A function that the system calls.
fn system_function(
    alloc: Global,
    name: &Name,
    equal_sign: bool,
    body: &Node<WrittenExpression>,
    at: u32,
) -> Result<(Declaration<u32>, u32), Memory>
    ensures { IfOk result (Stands plain_declaration (in_object (in_field (field.System name.now equal_sign body.now))) at) }
{
    let name = placed_name(alloc, name, number_behind(at, 2)?)?;
    let (body, behind) = abstract_expression(alloc, body.get(), at, 5 + count_if(equal_sign))?;
    let form = DeclarationForm::System(name, body);
    Ok((make_declaration(alloc, false, at, form)?, behind))
}

/// A declaration of the actor, with `private` before it or not.
fn declared(
    alloc: Global,
    private: bool,
    d: &Node<WrittenDeclaration>,
    at: u32,
) -> Result<(Declaration<u32>, u32), Memory>
    ensures { IfOk result (Stands plain_declaration (in_object (in_field (field.Declared private d.now))) at) }
{
    let (form, behind) = abstract_declaration(alloc, d.get(), at, count_if(private))?;
    Ok((make_declaration(alloc, false, at, form)?, behind))
}

/// A stable variable.
fn stable_variable(
    alloc: Global,
    private: bool,
    name: &Name,
    kind: &Option<Node<TypeExpression>>,
    a: &Node<WrittenExpression>,
    at: u32,
) -> Result<(Declaration<u32>, u32), Memory>
    ensures { IfOk result (Stands plain_declaration (in_object (in_field (field.Stable private name.now kind.now a.now))) at) }
{
    let place = number_behind(at, 2 + count_if(private))?;
    let name = placed_name(alloc, name, place)?;
    let (annotation, mark) = abstract_annotation(alloc, kind, place, 1)?;
    let (value, behind) = abstract_expression(alloc, a.get(), mark, 1)?;
    let form = DeclarationForm::Var(true, name, annotation, value);
    Ok((make_declaration(alloc, false, at, form)?, behind))
}

fn actor_field(
    alloc: Global,
    field: &ActorField,
    at: u32,
) -> Result<(Declaration<u32>, u32), Memory>
    ensures { IfOk result (Stands plain_declaration (in_object (in_field field.now)) at) }
{
    match field {
        ActorField::Public(function) => method(alloc, function.get(), at),
        ActorField::System(name, equal_sign, body) => system_function(
            alloc,
            name,
            *equal_sign,
            body,
            at,
        ),
        ActorField::Declared(private, d) => declared(alloc, *private, d, at),
        ActorField::Stable(private, name, kind, a) => stable_variable(
            alloc, *private, name, kind, a, at,
        ),
    }
}

/// The field behind so many tokens.
fn field_behind(
    alloc: Global,
    field: &Node<ActorField>,
    at: u32,
    tokens: u32,
) -> Result<(Declaration<u32>, u32), Memory>
    ensures { IfOk result (Stands plain_declaration (in_object (in_field field.now)) (at + tokens)) }
{
    actor_field(alloc, field.get(), number_behind(at, tokens)?)
}

fn actor_fields(
    alloc: Global,
    fields: &[Node<ActorField>],
    at: u32,
    tokens: u32,
) -> Result<Items<Declaration<u32>>, Memory>
    ensures { IfOk result (λ made. declarations (map plain_declaration made) ≡ rules.members (map in_field fields.now) (at + tokens)) }
{
    let mut next = number_behind(at, tokens)?;
    let mut mark = 0;
    let mut made = Items::new(alloc);
    for one in fields {
        let (field, behind) = field_behind(alloc, one, next, mark)?;
        made.push(field)?;
        next = behind;
        mark = 1;
    }
    Ok(made)
}

fn import(alloc: Global, written: &WrittenImport) -> Result<Import, Memory>
    ensures { IfOk result (λ made. (made.name ≡ written.now.name.bytes) × (made.path ≡ written.now.path.bytes)) }
{
    Ok(Import {
        name: Bytes::from_slice(alloc, written.name.as_slice())?,
        path: Bytes::from_slice(alloc, written.path.as_slice())?,
    })
}

/// The imports, and how many tokens they are.
fn abstract_imports(
    alloc: Global,
    written: &[Node<WrittenImport>],
) -> Result<(Items<Import>, u32), Memory>
    ensures { IfOk result (AreImports written.now) }
{
    let mut made = Items::new(alloc);
    let mut next = 0;
    for one in written {
        made.push(import(alloc, one.get())?)?;
        next = number_behind(next, 4 + count_if(one.get().equal_sign))?;
    }
    Ok((made, next))
}

/// The actor's name, where it has one, and how many tokens it is.
fn actor_name(alloc: Global, name: &Option<Name>) -> Result<(Option<Bytes>, u32), Memory>
    ensures { IfOk result (IsActorName name.now) }
{
    match name {
        None => Ok((None, 0)),
        Some(name) => Ok((Some(Bytes::from_slice(alloc, name.as_slice())?), 1)),
    }
}

/// The abstract syntax of the program. The recursion is as deep as the tree.
pub fn abstract_program(alloc: Global, tree: &Tree) -> Result<Program<u32>, Memory>
    ensures { IfOk result (λ made. plain_program made ≡ abstract tree.now) }
{
    let (imports, word) = abstract_imports(alloc, tree.imports.as_slice())?;
    let actor = tree.actor.get();
    let (name, words) = actor_name(alloc, &actor.name)?;
    let brace = number_behind(word, 1 + words + count_if(actor.equal_sign))?;
    let fields = actor_fields(alloc, actor.fields.as_slice(), brace, 1)?;
    Ok(Program {
        imports,
        name,
        fields,
    })
}
