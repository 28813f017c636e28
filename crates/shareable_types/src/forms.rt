//! What the terms of a table need.
ghost use Rattle.std.specs.Prelude.{◌≡◌, ◌&&◌, ◌+◌, ◌<◌, ◌≤◌, ℕ, Bool, length, map, IfOk, OnOk, Some, slice_get};
ghost use Rattle.mo_types.specs.Heads.{map_option};
ghost use Rattle.mo_types.specs.Sub.{Each};
ghost use Rattle.type_terms.specs.Layouts.{parts};
ghost use Rattle.type_terms.specs.Tables.{PartsBelow};
ghost use Rattle.type_definitions.specs.Definitions.{definition_of};
ghost use Rattle.type_definitions.specs.Outcomes.{argument_in};
ghost use Rattle.shareable_types.specs.Sharing.{all, allowed, is_sent};
ghost use Rattle.shareable_types.specs.Settled.{Knows, allowed_at, needed_at};
ghost use Rattle.shareable_types.specs.Parts.{argument_allowed, constant_fields, fields_allowed, form_allowed, parts_allowed};

use crate::needs::Needs;
use mo_num::Memory;
use mo_types::{Field, Sort};
use std::alloc::Global;
use std::slice;
use type_definitions::{Definition, Definitions};
use type_terms::{Form, TermId, Terms};

/// What a part needs besides.
fn add_part(needs: &mut Needs, known: &[Needs], part: TermId) -> Result<(), Memory>
    requires { part.index < length known.now }
    ensures { OnOk result ((x : ℕ → Bool) → allowed x needs.new ≡ (allowed x needs.old && allowed_at x known.now part)) }
{
    needs.add(&known[part.index() as usize])
}

/// What the parts need besides.
fn add_parts(needs: &mut Needs, known: &[Needs], parts: &[TermId]) -> Result<(), Memory>
    requires { Each (λ p. p.index < length known.now) parts.now }
    ensures { OnOk result ((x : ℕ → Bool) → allowed x needs.new ≡ (allowed x needs.old && parts_allowed x known.now parts.now)) }
{
    for part in parts {
        add_part(needs, known, *part)?;
    }
    Ok(())
}

/// What the types of the fields need besides.
fn add_fields(needs: &mut Needs, known: &[Needs], fields: &[Field<TermId>]) -> Result<(), Memory>
    requires { Each (λ p. p.index < length known.now) (map (λ f. f.part) fields.now) }
    ensures { OnOk result ((x : ℕ → Bool) → allowed x needs.new ≡ (allowed x needs.old && fields_allowed x known.now fields.now)) }
{
    for field in fields {
        add_part(needs, known, field.part)?;
    }
    Ok(())
}

/// Whether no field is a `var` field.
fn are_constant(fields: &[Field<TermId>]) -> bool
    ensures { result ≡ constant_fields fields.now }
{
    for field in fields {
        if field.mutable {
            return false;
        }
    }
    true
}

/// The argument of a parameter of a definition.
fn argument_at(
    definition: Option<&Definition>,
    arguments: &[TermId],
    parameter: u32,
) -> Option<TermId>
    ensures { result ≡ argument_in (map_option (λ d. d.now) definition.entry) arguments.now parameter }
{
    match definition {
        Some(definition) => match definition.parameters.find(parameter) {
            Some(place) => arguments.get(place).copied(),
            None => None,
        },
        None => None,
    }
}

/// What the arguments need that a definition needs.
fn add_arguments(
    needs: &mut Needs,
    known: &[Needs],
    definition: Option<&Definition>,
    arguments: &[TermId],
    parameters: &[u32],
) -> Result<(), Memory>
    requires { Each (λ p. p.index < length known.now) arguments.now }
    ensures { OnOk result ((x : ℕ → Bool) → allowed x needs.new ≡ (allowed x needs.old && all (argument_allowed x known.now (map_option (λ d. d.now) definition.entry) arguments.now) parameters.now)) }
{
    for parameter in parameters {
        if let Some(argument) = argument_at(definition, arguments, *parameter) {
            add_part(needs, known, argument)?;
        }
    }
    Ok(())
}

/// What the use of a name needs.
fn of_use(
    alloc: Global,
    definitions: &Definitions,
    needed: &[Needs],
    known: &[Needs],
    at: u32,
    arguments: &[TermId],
) -> Result<Needs, Memory>
    requires { Each (λ p. p.index < length known.now) arguments.now }
    ensures { IfOk result (λ made. (x : ℕ → Bool) → allowed x made ≡ allowed (argument_allowed x known.now (definition_of definitions.now at) arguments.now) (needed_at definitions.now.names needed.now at)) }
{
    let mut made = Needs::nothing(alloc);
    if let Some(place) = definitions.names().find(at) {
        if let Some(needs) = needed.get(place) {
            if needs.never {
                return Ok(Needs::never(alloc));
            }
            add_arguments(
                &mut made,
                known,
                definitions.find(at),
                arguments,
                needs.parameters.as_slice(),
            )?;
        }
    }
    Ok(made)
}

/// What the parts need.
fn of_parts(alloc: Global, known: &[Needs], parts: &[TermId]) -> Result<Needs, Memory>
    requires { Each (λ p. p.index < length known.now) parts.now }
    ensures { IfOk result (λ made. (x : ℕ → Bool) → allowed x made ≡ parts_allowed x known.now parts.now) }
{
    let mut made = Needs::nothing(alloc);
    add_parts(&mut made, known, parts)?;
    Ok(made)
}

/// What the types of the fields need.
fn of_fields(alloc: Global, known: &[Needs], fields: &[Field<TermId>]) -> Result<Needs, Memory>
    requires { Each (λ p. p.index < length known.now) (map (λ f. f.part) fields.now) }
    ensures { IfOk result (λ made. (x : ℕ → Bool) → allowed x made ≡ fields_allowed x known.now fields.now) }
{
    let mut made = Needs::nothing(alloc);
    add_fields(&mut made, known, fields)?;
    Ok(made)
}

/// What an object of these fields needs.
fn of_object(alloc: Global, known: &[Needs], fields: &[Field<TermId>]) -> Result<Needs, Memory>
    requires { Each (λ p. p.index < length known.now) (map (λ f. f.part) fields.now) }
    ensures { IfOk result (λ made. (x : ℕ → Bool) → allowed x made ≡ (constant_fields fields.now && fields_allowed x known.now fields.now)) }
{
    if !are_constant(fields) {
        return Ok(Needs::never(alloc));
    }
    of_fields(alloc, known, fields)
}

/// Whether functions of the sort may be sent.
fn is_sent(sort: Sort) -> bool
    ensures { result ≡ is_sent sort }
{
    match sort {
        Sort::Local => false,
        Sort::Shared | Sort::Query => true,
    }
}

/// Nothing, where it is so in any case, and else nothing makes it so.
fn of_any_case(alloc: Global, is_so: bool) -> Needs
    ensures { (x : ℕ → Bool) → allowed x result ≡ is_so }
{
    if is_so {
        Needs::nothing(alloc)
    } else {
        Needs::never(alloc)
    }
}

/// What a form needs, where this is known of its parts.
#[tactic(auto, unfolding(type_terms::specs::Layouts::layout))]
fn of_form(
    alloc: Global,
    any: bool,
    definitions: &Definitions,
    needed: &[Needs],
    known: &[Needs],
    form: &Form,
) -> Result<Needs, Memory>
    requires { Each (λ p. p.index < length known.now) (parts form.now) }
    ensures { IfOk result (λ made. (x : ℕ → Bool) → allowed x made ≡ form_allowed any definitions.now needed.now known.now x form.now) }
{
    match form {
        Form::Any => Ok(of_any_case(alloc, any)),
        Form::Optional(part) | Form::Array(part) => of_parts(alloc, known, slice::from_ref(part)),
        Form::Tuple(parts) => of_parts(alloc, known, parts.as_slice()),
        Form::Object(fields) => of_object(alloc, known, fields.as_slice()),
        Form::Variant(tags) => of_fields(alloc, known, tags.as_slice()),
        Form::Shared(sort, _, _) => Ok(of_any_case(alloc, is_sent(*sort))),
        Form::Parameter(at) => Needs::parameter(alloc, *at),
        Form::Use(at, arguments) => of_use(
            alloc,
            definitions,
            needed,
            known,
            *at,
            arguments.as_slice(),
        ),
        Form::Error | Form::MutableArray(_) | Form::Function(_, _) | Form::Async(_) => {
            Ok(Needs::never(alloc))
        }
        _ => Ok(Needs::nothing(alloc)),
    }
}

/// What is known of terms is known of one more.
fn know_one(
    known: &mut Vec<Needs>,
    any: bool,
    terms: &Terms,
    definitions: &Definitions,
    needed: &[Needs],
    form: &Form,
) -> Result<(), Memory>
    requires there { slice_get terms.now (length known.old.items) ≡ Some form.now }
    requires below { PartsBelow (length known.old.items) form.now }
    requires knows { Knows any definitions.now needed.now terms.now known.old.items }
    ensures knows { OnOk result (Knows any definitions.now needed.now terms.now known.new.items) }
    ensures longer { OnOk result (length known.new.items ≡ length known.old.items + 1) }
{
    let needs = of_form(
        terms.allocator(),
        any,
        definitions,
        needed,
        known.as_slice(),
        form,
    )?;
    known.push(needs)?;
    Ok(())
}

/// What is known of terms is known of all up to this number.
pub(crate) fn know(
    known: &mut Vec<Needs>,
    any: bool,
    terms: &Terms,
    definitions: &Definitions,
    needed: &[Needs],
    number: usize,
) -> Result<(), Memory>
    requires number { number ≤ length terms.now }
    requires knows { Knows any definitions.now needed.now terms.now known.old.items }
    ensures knows { OnOk result (Knows any definitions.now needed.now terms.now known.new.items) }
    ensures many { OnOk result (number ≤ length known.new.items) }
{
    while known.len() < number {
        match terms.get_index(known.len()) {
            Some(form) => know_one(known, any, terms, definitions, needed, form)?,
            None => unreachable!(),
        }
    }
    Ok(())
}
