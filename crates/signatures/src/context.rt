//! The contexts of public functions.
ghost use Rattle.std.specs.Prelude.{option_map};
ghost use Rattle.abstract_types.specs.PatternView.{plain};
ghost use Rattle.type_scopes.specs.Scopes.{seen};
ghost use Rattle.proper_types.specs.Passing.{Ready};
ghost use Rattle.typed_patterns.specs.Binding.{Pushes};
ghost use Rattle.typed_patterns.specs.Making.{pattern_in};
ghost use Rattle.signatures.specs.Taking.{context_in, context_of, context_stands};

use crate::kinds::context;
use abstract_types::Pattern;
use met_types::Types;
use shareable_types::Sharing;
use type_judgements::{Refusal, meets};
use type_scopes::TypeScope;
use typed_patterns::stands;
use value_scopes::{Note, ValueScope};

fn context_stands(
    scope: &TypeScope,
    types: &mut Types,
    sharing: &mut Sharing,
    names: &mut ValueScope,
    pattern: &Pattern<u32>,
) -> Result<Pattern<Note>, Refusal>
    requires { Ready types.old sharing.old }
    ensures { Pushes (context_stands (seen scope.now) (plain pattern.now)) types.old types.new sharing.new names.old names.new pattern_in result }
{
    let kind = context(types)?;
    meets(types, kind)?;
    stands(scope, types, sharing, names, pattern, kind)
}

/// Whether the pattern of a public function's context stands on `{ caller : Principal }`, where there is one: Motoko language
/// manual, section "Shared functions". It gives the pattern with the types of its parts, and binds its names.
pub fn context_of(
    scope: &TypeScope,
    types: &mut Types,
    sharing: &mut Sharing,
    names: &mut ValueScope,
    pattern: &Option<Pattern<u32>>,
) -> Result<Option<Pattern<Note>>, Refusal>
    requires { Ready types.old sharing.old }
    ensures { Pushes (context_of (seen scope.now) (option_map plain pattern.now)) types.old types.new sharing.new names.old names.new context_in result }
{
    match pattern {
        None => Ok(None),
        Some(pattern) => Ok(Some(context_stands(scope, types, sharing, names, pattern)?)),
    }
}
