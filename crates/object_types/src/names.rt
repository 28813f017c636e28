//! The types that the names of a pattern have, as fields (Motoko language manual, "Objects").
ghost use Rattle.std.specs.Prelude.{◌≡◌, ◌++◌, ◌∷◌, [], IfOk, OnOk, map, option_map};
ghost use Rattle.mo_types.specs.declared.node.Field.{Field};
ghost use Rattle.typing_rules.specs.DeclaredTypes.{fields_fields, pattern_fields, patterns_fields};
ghost use Rattle.met_types.specs.States.{Kept};
ghost use Rattle.type_scopes.specs.Scopes.{seen};
ghost use Rattle.abstract_types.specs.PatternView.{fields, listed, plain, plain_field};
ghost use Rattle.object_types.specs.Adding.{Adds, name_of};

use abstract_types::{Pattern, PatternField, PatternForm};
use declared_types::written;
use met_types::Types;
use mo_num::{Bytes, Memory};
use mo_types::Field;
use type_scopes::TypeScope;
use type_terms::TermId;
use written_kinds::bottom;

/// Adds a field of this name and type.
pub(crate) fn push_field(
    types: &Types,
    made: &mut Vec<Field<TermId>>,
    label: &[u8],
    mutable: bool,
    part: TermId,
) -> Result<(), Memory>
    ensures { OnOk result (made.new.items ≡ made.old.items ++ record { label = label.now; mutable = mutable; part = part } ∷ []) }
{
    let label = Bytes::from_slice(types.terms().allocator(), label)?;
    made.push(Field {
        label,
        mutable,
        part,
    })?;
    Ok(())
}

/// The name that a pattern is.
fn name_of(q: &Pattern<u32>) -> Option<&Bytes>
    ensures { option_map (λ x. x.now) result ≡ name_of (plain q.now) }
{
    match q.form.get() {
        PatternForm::Variable(name) => Some(name),
        PatternForm::Annotated(_, _) => None,
        PatternForm::Alternative(_, _) => None,
        PatternForm::Optional(_) => None,
        PatternForm::Tag(_) => None,
        PatternForm::Tagged(_, _) => None,
        PatternForm::Wildcard => None,
        PatternForm::Constant(_, _) => None,
        PatternForm::Tuple(_) => None,
        PatternForm::Object(_) => None,
    }
}

// Those of a pattern of at most so many levels. One of more levels than there are addresses is none that memory holds.
#[cycle(names)]
fn push_within(
    scope: &TypeScope,
    types: &mut Types,
    depth: usize,
    q: &Pattern<u32>,
    made: &mut Vec<Field<TermId>>,
) -> Result<(), Memory>
    requires { Kept types.old }
    ensures { OnOk result (Adds types.old types.new (pattern_fields (seen scope.now) (plain q.now)) made.old.items made.new.items) }
{
    if depth == 0 {
        return Err(Memory);
    }
    match q.form.get() {
        PatternForm::Annotated(inner, annotation) => match name_of(inner) {
            Some(name) => {
                let part = written(scope, types, annotation)?;
                push_field(types, made, name.as_slice(), false, part)
            }
            None => push_within(scope, types, depth - 1, inner, made),
        },
        PatternForm::Optional(inner) => push_within(scope, types, depth - 1, inner, made),
        PatternForm::Tagged(_, inner) => push_within(scope, types, depth - 1, inner, made),
        PatternForm::Variable(name) => {
            let part = bottom(types)?;
            push_field(types, made, name.as_slice(), false, part)
        }
        PatternForm::Tuple(items) => push_each(scope, types, depth - 1, items.as_slice(), made),
        PatternForm::Object(list) => push_fields(scope, types, depth - 1, list.as_slice(), made),
        PatternForm::Alternative(_, _) => Ok(()),
        PatternForm::Tag(_) => Ok(()),
        PatternForm::Wildcard => Ok(()),
        PatternForm::Constant(_, _) => Ok(()),
    }
}

#[cycle(names)]
fn push_each(
    scope: &TypeScope,
    types: &mut Types,
    depth: usize,
    patterns: &[Pattern<u32>],
    made: &mut Vec<Field<TermId>>,
) -> Result<(), Memory>
    requires { Kept types.old }
    ensures { OnOk result (Adds types.old types.new (patterns_fields (seen scope.now) (listed (map plain patterns.now))) made.old.items made.new.items) }
{
    for q in patterns {
        push_within(scope, types, depth, q, made)?;
    }
    Ok(())
}

#[cycle(names)]
fn push_fields(
    scope: &TypeScope,
    types: &mut Types,
    depth: usize,
    list: &[PatternField<u32>],
    made: &mut Vec<Field<TermId>>,
) -> Result<(), Memory>
    requires { Kept types.old }
    ensures { OnOk result (Adds types.old types.new (fields_fields (seen scope.now) (fields (map plain_field list.now))) made.old.items made.new.items) }
{
    for field in list {
        push_within(scope, types, depth, &field.pattern, made)?;
    }
    Ok(())
}

/// Adds the names of a pattern, with the types that are written directly at them. It recurses as deep as the pattern.
pub(crate) fn push_pattern(
    scope: &TypeScope,
    types: &mut Types,
    q: &Pattern<u32>,
    made: &mut Vec<Field<TermId>>,
) -> Result<(), Memory>
    requires { Kept types.old }
    ensures { OnOk result (Adds types.old types.new (pattern_fields (seen scope.now) (plain q.now)) made.old.items made.new.items) }
{
    push_within(scope, types, usize::MAX, q, made)
}
