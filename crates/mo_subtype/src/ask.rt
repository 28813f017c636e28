//! The questions that a question leads to.
ghost use Rattle.std.specs.Prelude.{◌≡◌, ◌&&◌, ◌||◌, IfOk, IfSome, Some, nat_eq};
ghost use Rattle.mo_types.specs.Heads.{is_any, is_null, map_option, opt_of};
ghost use Rattle.mo_types.specs.Layout.{kind_number, sort_number};
ghost use Rattle.mo_subtype.specs.Labels.{Indexes};
ghost use Rattle.mo_subtype.specs.Certificate.{Adds};
ghost use Rattle.mo_subtype.specs.Questions.{
  both_ways,
  field_questions,
  fields_questions,
  found_questions,
  func_questions,
  head_questions,
  is_some_of,
  number_below,
  one,
  pair,
  parts_questions,
  questions,
  tag_questions,
  tags_questions,
  variable_questions,
  when,
  with_some,
};

use crate::Pair;
use crate::labels::{Index, find, index_for};
use mo_num::{Kind, Memory};
use mo_types::{Field, Node, Sort, TypeId, kind_number, sort_number};

/// Whether each number of the one kind is one of the other.
fn number_below(low: Kind, high: Kind) -> bool
    ensures { result ≡ number_below low high }
{
    let below = kind_number(low);
    let above = kind_number(high);
    below == above || (below == 0 && above == 1)
}

/// No question, where the condition holds.
fn when(holds: bool, out: &mut Vec<Pair>) -> bool
    ensures { Adds (when holds) result out.old.items out.new.items }
{
    holds
}

fn ask_one(low: TypeId, high: TypeId, out: &mut Vec<Pair>) -> Result<bool, Memory>
    ensures { IfOk result (λ yes. Adds (one low high) yes out.old.items out.new.items) }
{
    out.push(Pair { low, high })?;
    Ok(true)
}

fn ask_both_ways(a: TypeId, b: TypeId, out: &mut Vec<Pair>) -> Result<bool, Memory>
    ensures { IfOk result (λ yes. Adds (both_ways a b) yes out.old.items out.new.items) }
{
    out.push(Pair { low: a, high: b })?;
    out.push(Pair { low: b, high: a })?;
    Ok(true)
}

/// Part by part, where there are as many on both sides.
fn ask_parts(low: &[TypeId], high: &[TypeId], out: &mut Vec<Pair>) -> Result<bool, Memory>
    ensures { IfOk result (λ yes. Adds (parts_questions low.now high.now) yes out.old.items out.new.items) }
{
    if low.len() != high.len() {
        return Ok(false);
    }
    for i in 0..low.len() {
        out.push(Pair {
            low: low[i],
            high: high[i],
        })?;
    }
    Ok(true)
}

/// Whether the one field stands where the other is asked.
fn ask_field(low: &Field, high: &Field, out: &mut Vec<Pair>) -> Result<bool, Memory>
    ensures { IfOk result (λ yes. Adds (field_questions low.now high.now low.now.mutable high.now.mutable) yes out.old.items out.new.items) }
{
    if low.mutable != high.mutable {
        Ok(false)
    } else if low.mutable {
        ask_both_ways(low.part, high.part, out)
    } else {
        ask_one(low.part, high.part, out)
    }
}

/// The field of the same label, if there is one, stands where this one is asked.
fn ask_found(
    low: &[Field],
    index: &Option<Index<'_>>,
    field: &Field,
    out: &mut Vec<Pair>,
) -> Result<bool, Memory>
    requires { IfSome index.now (λ i. Indexes i low.now) }
    ensures { IfOk result (λ yes. Adds (found_questions low.now field.now) yes out.old.items out.new.items) }
{
    match find(low, index, field.label.as_slice()) {
        Some(found) => ask_field(found, field, out),
        None => Ok(false),
    }
}

/// Each field above is there below.
fn ask_each_field(
    low: &[Field],
    index: &Option<Index<'_>>,
    high: &[Field],
    out: &mut Vec<Pair>,
) -> Result<bool, Memory>
    requires { IfSome index.now (λ i. Indexes i low.now) }
    ensures { IfOk result (λ yes. Adds (fields_questions low.now high.now) yes out.old.items out.new.items) }
{
    for field in high {
        if !ask_found(low, index, field, out)? {
            return Ok(false);
        }
    }
    Ok(true)
}

/// As `ask_each_field`, with an index of the fields below where they are many.
fn ask_fields(low: &[Field], high: &[Field], out: &mut Vec<Pair>) -> Result<bool, Memory>
    ensures { IfOk result (λ yes. Adds (fields_questions low.now high.now) yes out.old.items out.new.items) }
{
    let index = index_for(*out.allocator(), low, high.len())?;
    ask_each_field(low, &index, high, out)
}

/// The tag of the same label, if there is one, stands above this one.
fn ask_tag(
    high: &[Field],
    index: &Option<Index<'_>>,
    tag: &Field,
    out: &mut Vec<Pair>,
) -> Result<bool, Memory>
    requires { IfSome index.now (λ i. Indexes i high.now) }
    ensures { IfOk result (λ yes. Adds (tag_questions high.now tag.now) yes out.old.items out.new.items) }
{
    match find(high, index, tag.label.as_slice()) {
        Some(found) => ask_one(tag.part, found.part, out),
        None => Ok(false),
    }
}

/// Each tag below is there above.
fn ask_each_tag(
    low: &[Field],
    high: &[Field],
    index: &Option<Index<'_>>,
    out: &mut Vec<Pair>,
) -> Result<bool, Memory>
    requires { IfSome index.now (λ i. Indexes i high.now) }
    ensures { IfOk result (λ yes. Adds (tags_questions low.now high.now) yes out.old.items out.new.items) }
{
    for tag in low {
        if !ask_tag(high, index, tag, out)? {
            return Ok(false);
        }
    }
    Ok(true)
}

/// As `ask_each_tag`, with an index of the tags above where they are many.
fn ask_tags(low: &[Field], high: &[Field], out: &mut Vec<Pair>) -> Result<bool, Memory>
    ensures { IfOk result (λ yes. Adds (tags_questions low.now high.now) yes out.old.items out.new.items) }
{
    let index = index_for(*out.allocator(), high, low.len())?;
    ask_each_tag(low, high, &index, out)
}

/// The sorts are equal, the parameters go the other way, the results go the same way.
fn ask_func(
    sort: Sort,
    parameters: &[TypeId],
    results: &[TypeId],
    high: (Sort, &[TypeId], &[TypeId]),
    out: &mut Vec<Pair>,
) -> Result<bool, Memory>
    ensures { IfOk result (λ yes. Adds (func_questions sort parameters.now results.now (high.entry.0, high.entry.1.now, high.entry.2.now)) yes out.old.items out.new.items) }
{
    if sort_number(sort) != sort_number(high.0) {
        return Ok(false);
    }
    if !ask_parts(high.1, parameters, out)? {
        return Ok(false);
    }
    ask_parts(results, high.2, out)
}

/// A type parameter is below itself, and where its bound is.
fn ask_variable(
    number: u32,
    bound: TypeId,
    high: TypeId,
    other: Option<u32>,
    out: &mut Vec<Pair>,
) -> Result<bool, Memory>
    ensures { IfOk result (λ yes. Adds (variable_questions bound high other number) yes out.old.items out.new.items) }
{
    match other {
        Some(other) if other == number => Ok(when(true, out)),
        _ => ask_one(bound, high, out),
    }
}

fn ask_number(kind: Kind, other: Option<Kind>, out: &mut Vec<Pair>) -> bool
    ensures { Adds (with_some other (λ j. when (number_below kind j))) result out.old.items out.new.items }
{
    match other {
        Some(other) => when(number_below(kind, other), out),
        None => false,
    }
}

fn ask_part(part: TypeId, other: Option<&TypeId>, out: &mut Vec<Pair>) -> Result<bool, Memory>
    ensures { IfOk result (λ yes. Adds (with_some (map_option (λ b. b.now) other.entry) (λ b. one part b)) yes out.old.items out.new.items) }
{
    match other {
        Some(other) => ask_one(part, *other, out),
        None => Ok(false),
    }
}

fn ask_equal_part(part: TypeId, other: Option<&TypeId>, out: &mut Vec<Pair>) -> Result<bool, Memory>
    ensures { IfOk result (λ yes. Adds (with_some (map_option (λ b. b.now) other.entry) (λ b. both_ways part b)) yes out.old.items out.new.items) }
{
    match other {
        Some(other) => ask_both_ways(part, *other, out),
        None => Ok(false),
    }
}

fn ask_tuple(
    parts: &[TypeId],
    other: Option<&[TypeId]>,
    out: &mut Vec<Pair>,
) -> Result<bool, Memory>
    ensures { IfOk result (λ yes. Adds (with_some (map_option (λ b. b.now) other.entry) (parts_questions parts.now)) yes out.old.items out.new.items) }
{
    match other {
        Some(other) => ask_parts(parts, other, out),
        None => Ok(false),
    }
}

fn ask_object(
    fields: &[Field],
    other: Option<&[Field]>,
    out: &mut Vec<Pair>,
) -> Result<bool, Memory>
    ensures { IfOk result (λ yes. Adds (with_some (map_option (λ b. b.now) other.entry) (fields_questions fields.now)) yes out.old.items out.new.items) }
{
    match other {
        Some(other) => ask_fields(fields, other, out),
        None => Ok(false),
    }
}

fn ask_variant(tags: &[Field], other: Option<&[Field]>, out: &mut Vec<Pair>) -> Result<bool, Memory>
    ensures { IfOk result (λ yes. Adds (with_some (map_option (λ b. b.now) other.entry) (tags_questions tags.now)) yes out.old.items out.new.items) }
{
    match other {
        Some(other) => ask_tags(tags, other, out),
        None => Ok(false),
    }
}

fn ask_call(
    sort: Sort,
    parameters: &[TypeId],
    results: &[TypeId],
    other: Option<(Sort, &[TypeId], &[TypeId])>,
    out: &mut Vec<Pair>,
) -> Result<bool, Memory>
    ensures { IfOk result (λ yes. Adds (with_some (map_option (λ r. (r.0, r.1.now, r.2.now)) other.entry) (func_questions sort parameters.now results.now)) yes out.old.items out.new.items) }
{
    match other {
        Some(other) => ask_func(sort, parameters, results, other, out),
        None => Ok(false),
    }
}

/// By the form below.
fn ask_head(x: &Node, y: &Node, high: TypeId, out: &mut Vec<Pair>) -> Result<bool, Memory>
    ensures { IfOk result (λ yes. Adds (head_questions high x.now y.now) yes out.old.items out.new.items) }
{
    match x {
        Node::Number(kind) => Ok(ask_number(*kind, y.number_of(), out)),
        Node::Bool => Ok(when(y.is_bool(), out)),
        Node::Char => Ok(when(y.is_char(), out)),
        Node::Text => Ok(when(y.is_text(), out)),
        Node::Blob => Ok(when(y.is_blob(), out)),
        Node::Principal => Ok(when(y.is_principal(), out)),
        Node::Error => Ok(when(y.is_error(), out)),
        Node::Null => Ok(when(takes_null(y), out)),
        Node::Any => Ok(false),
        Node::Bottom => Ok(when(true, out)),
        Node::Opt(part) => ask_part(*part, y.opt_of(), out),
        Node::Array(part) => ask_part(*part, y.array_of(), out),
        Node::MutArray(part) => ask_equal_part(*part, y.mut_array_of(), out),
        Node::Tuple(parts) => ask_tuple(parts.as_slice(), y.tuple_of(), out),
        Node::Object(fields) => ask_object(fields.as_slice(), y.object_of(), out),
        Node::Actor(fields) => ask_object(fields.as_slice(), y.actor_of(), out),
        Node::Variant(tags) => ask_variant(tags.as_slice(), y.variant_of(), out),
        Node::Func(sort, parameters, results) => ask_call(
            *sort,
            parameters.as_slice(),
            results.as_slice(),
            y.func_of(),
            out,
        ),
        Node::Async(part) => ask_part(*part, y.async_of(), out),
        Node::Variable(number, bound) => {
            ask_variable(*number, *bound, high, y.variable_of(), out)
        }
    }
}

/// Whether null is a value of the type.
fn takes_null(y: &Node) -> bool
    ensures { result ≡ (is_null y.now || is_some_of (opt_of y.now)) }
{
    match y {
        Node::Null | Node::Opt(_) => true,
        _ => false,
    }
}

/// The questions of a pair, from the heads of its types, at the end of the list; false where the heads rule it out.
#[tactic(auto, unfolding(crate::specs::Questions::questions))]
pub(crate) fn ask(x: &Node, y: &Node, high: TypeId, out: &mut Vec<Pair>) -> Result<bool, Memory>
    ensures { IfOk result (λ yes. Adds (questions high x.now y.now) yes out.old.items out.new.items) }
{
    if y.is_any() {
        Ok(when(true, out))
    } else {
        ask_head(x, y, high, out)
    }
}
