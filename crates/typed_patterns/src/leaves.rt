//! Patterns without patterns inside.
ghost use Rattle.typing_rules.specs.AbstractSyntax as syntax;
ghost use Rattle.typing_rules.specs.Spans.{literal_of};
ghost use Rattle.typing_rules.specs.TypeScopes.{TypeScope};
ghost use Rattle.met_types.specs.States.{IsReached};
ghost use Rattle.proper_types.specs.Passing.{Ready};
ghost use Rattle.typed_patterns.specs.Binding.{Pushes, stands};
ghost use Rattle.typed_patterns.specs.Making.{pattern_in};

use crate::head::{literal_on, needs_unit, tag_part};
use crate::making::{constant, tag, variable};
use abstract_types::Pattern;
use met_types::Types;
use mo_num::Bytes;
use mo_syntax::Literal;
use shareable_types::Sharing;
use type_judgements::Refusal;
use value_scopes::{Bound, Note, ValueScope};

/// `#a`, where the tag's type is `()`.
pub(crate) fn tag_stands(
    types: &Types,
    sharing: &Sharing,
    names: &ValueScope,
    note: Note,
    name: &Bytes,
) -> Result<Pattern<Note>, Refusal>
    requires { Ready types.now sharing.now }
    ensures { (s : TypeScope) → Pushes (stands s (syntax.pattern note.at (syntax.Tag name.now)) note.kind) types.now types.now sharing.now names.now names.now pattern_in result }
{
    let of = tag_part(types, note.at, note.kind, name.as_slice())?;
    needs_unit(types, note.at, of)?;
    Ok(tag(types.terms().allocator(), note, name)?)
}

/// A name, which is bound.
pub(crate) fn variable_stands(
    types: &Types,
    sharing: &Sharing,
    names: &mut ValueScope,
    note: Note,
    name: &Bytes,
) -> Result<Pattern<Note>, Refusal>
    requires ready { Ready types.now sharing.now }
    requires reached { IsReached types.now note.kind }
    ensures { (s : TypeScope) → Pushes (stands s (syntax.pattern note.at (syntax.Variable name.now)) note.kind) types.now types.now sharing.now names.old names.new pattern_in result }
{
    let alloc = types.terms().allocator();
    names.push(name.as_slice(), Bound::constant(alloc, note.kind))?;
    Ok(variable(alloc, note, name)?)
}

/// A literal, with `-` before it or not.
pub(crate) fn constant_stands(
    types: &Types,
    sharing: &Sharing,
    names: &ValueScope,
    note: Note,
    minus: bool,
    literal: &Literal,
) -> Result<Pattern<Note>, Refusal>
    requires { Ready types.now sharing.now }
    ensures { (s : TypeScope) → Pushes (stands s (syntax.pattern note.at (syntax.Constant minus (literal_of literal.now))) note.kind) types.now types.now sharing.now names.now names.now pattern_in result }
{
    literal_on(types, note.at, minus, literal, note.kind)?;
    Ok(constant(types.terms().allocator(), note, minus, literal)?)
}
