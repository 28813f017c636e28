//! Types put in the place of type parameters.
ghost use Rattle.std.specs.Prelude.{◌≡◌, IfOk, length, slice_get, Some};
ghost use Rattle.mo_types.specs.Sub.{Each};
ghost use Rattle.type_terms.specs.Layouts.{parts};
ghost use Rattle.type_terms.specs.Parted.{with_parts};
ghost use Rattle.type_definitions.specs.Tables.{IsTermOf, Makes, MakesParts, Within};
ghost use Rattle.type_definitions.specs.Putting.{ArePut, IsPut};

use crate::Arguments;
use mo_num::{Memory, Sequence};
use type_terms::{Form, TermId, Terms};

/// What is put in the place of a parameter.
fn put_parameter(
    terms: &mut Terms,
    arguments: &Arguments<'_>,
    at: u32,
    id: TermId,
) -> Result<TermId, Memory>
    requires within { Within terms.old id }
    requires parameter { slice_get terms.old id.index ≡ Some (Form.Parameter at) }
    requires arguments { Each (Within terms.old) arguments.now.arguments.now }
    ensures { IfOk result (λ made. Makes terms.old (IsPut arguments.now.parameters.now arguments.now.arguments.now arguments.now.others_stay id made) made terms.new) }
{
    match arguments.find(at) {
        Some(argument) => Ok(argument),
        None if arguments.others_stay => Ok(id),
        None => terms.intern(Form::Bottom),
    }
}

/// The term of a form with other parts.
fn put_back(terms: &mut Terms, form: &Form, others: &[TermId]) -> Result<TermId, Memory>
    requires number { length others.now ≡ length (parts form.now) }
    requires within { Each (Within terms.old) others.now }
    ensures { IfOk result (λ made. Makes terms.old (IsTermOf (with_parts form.now others.now) made) made terms.new) }
{
    let form = form.with_parts(terms.allocator(), others)?;
    terms.intern(form)
}

/// The arguments put into each type.
#[cycle(put)]
fn put_in_parts(
    terms: &mut Terms,
    arguments: &Arguments<'_>,
    depth: usize,
    parts: &[TermId],
) -> Result<Sequence<TermId>, Memory>
    requires within { Each (Within terms.old) parts.now }
    requires arguments { Each (Within terms.old) arguments.now.arguments.now }
    ensures { IfOk result (λ made. MakesParts terms.old parts.now (ArePut arguments.now.parameters.now arguments.now.arguments.now arguments.now.others_stay parts.now made) made terms.new) }
{
    let mut made = Vec::with_capacity(terms.allocator(), parts.len())?;
    for part in parts {
        made.push(put_in_part(terms, arguments, depth, *part)?)?;
    }
    Ok(Sequence::from_vec(made))
}

// A type of at most so many levels. One of more levels than there are addresses is none that memory holds.
#[cycle(put)]
fn put_in_part(
    terms: &mut Terms,
    arguments: &Arguments<'_>,
    depth: usize,
    id: TermId,
) -> Result<TermId, Memory>
    requires within { Within terms.old id }
    requires arguments { Each (Within terms.old) arguments.now.arguments.now }
    ensures { IfOk result (λ made. Makes terms.old (IsPut arguments.now.parameters.now arguments.now.arguments.now arguments.now.others_stay id made) made terms.new) }
{
    if depth == 0 {
        return Err(Memory);
    }
    let form = terms.form(id).copy(terms.allocator())?;
    if let Form::Parameter(at) = &form {
        return put_parameter(terms, arguments, *at, id);
    }
    let parts = form.parts(terms.allocator())?;
    let others = put_in_parts(terms, arguments, depth - 1, parts.as_slice())?;
    put_back(terms, &form, others.as_slice())
}

/// The arguments put into a type. It recurses as deep as the type is written: types that are written have no more levels than
/// the parser lets pass.
pub fn put_in(terms: &mut Terms, arguments: &Arguments<'_>, id: TermId) -> Result<TermId, Memory>
    requires within { Within terms.old id }
    requires arguments { Each (Within terms.old) arguments.now.arguments.now }
    ensures { IfOk result (λ made. Makes terms.old (IsPut arguments.now.parameters.now arguments.now.arguments.now arguments.now.others_stay id made) made terms.new) }
{
    put_in_part(terms, arguments, usize::MAX, id)
}
