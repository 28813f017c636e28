//! The parameters of functions.
ghost use Rattle.std.specs.Prelude.{◌≡◌, IfOk, IfSome, map, slice_get};
ghost use Rattle.mo_types.specs.Sub.{Each};
ghost use Rattle.met_types.specs.States.{IsReached};
ghost use Rattle.abstract_types.specs.PatternView.{plain};
ghost use Rattle.type_scopes.specs.Scopes.{seen};
ghost use Rattle.proper_types.specs.Passing.{Ready};
ghost use Rattle.typed_patterns.specs.Binding.{Pushes};
ghost use Rattle.signatures.specs.Taking.{one_in, parameter, parameters, taken_in};

use crate::written::kind_of;
use abstract_types::Pattern;
use met_types::Types;
use mo_num::Sequence;
use mo_syntax::Items;
use shareable_types::Sharing;
use type_judgements::Refusal;
use type_scopes::TypeScope;
use type_terms::TermId;
use typed_patterns::stands;
use value_scopes::{Note, ValueScope};

/// The parameters of a function: their types, and themselves with the types of their parts.
pub struct Taken {
    pub kinds: Sequence<TermId>,
    pub patterns: Items<Pattern<Note>>,
}

// Written here, so that it is proved here, and not again in each crate that lets parameters go.
impl Drop for Taken {
    fn drop(self) {
        let Taken {
            kinds: _kinds,
            patterns: _patterns,
        } = self;
    }
}

impl Taken {
    /// The types of the parameters, and themselves.
    pub fn into_parts(self) -> (Sequence<TermId>, Items<Pattern<Note>>)
        ensures { result ≡ (self.kinds, self.patterns) }
    {
        let Taken { kinds, patterns } = self;
        (kinds, patterns)
    }
}

/// One parameter.
struct One {
    kind: TermId,
    pattern: Pattern<Note>,
}

/// The type that is wanted of a parameter.
fn wanted_at(wanted: &[TermId], i: usize) -> Option<TermId>
    ensures { result ≡ slice_get wanted.now i }
{
    wanted.get(i).copied()
}

fn parameter(
    scope: &TypeScope,
    types: &mut Types,
    sharing: &mut Sharing,
    names: &mut ValueScope,
    pattern: &Pattern<u32>,
    wanted: Option<TermId>,
) -> Result<One, Refusal>
    requires ready { Ready types.old sharing.old }
    requires reached { IfSome wanted (IsReached types.old) }
    ensures reached { IfOk result (λ made. IsReached types.new made.kind) }
    ensures judged { Pushes (parameter (seen scope.now) (plain pattern.now) wanted) types.old types.new sharing.new names.old names.new one_in result }
{
    let kind = kind_of(scope, types, sharing, pattern, wanted)?;
    let pattern = stands(scope, types, sharing, names, pattern, kind)?;
    Ok(One { kind, pattern })
}

/// Whether parameters stand on their types: Motoko language manual, section "Functions". Each is annotated, or has the type in its
/// place among those that are wanted. It gives their types, and themselves with the types of their parts, and binds their names in
/// front of the others. `False` names the first condition that is false, and its place; the names are then of no use.
pub fn parameters(
    scope: &TypeScope,
    types: &mut Types,
    sharing: &mut Sharing,
    names: &mut ValueScope,
    patterns: &[Pattern<u32>],
    wanted: &[TermId],
) -> Result<Taken, Refusal>
    requires ready { Ready types.old sharing.old }
    requires reached { Each (IsReached types.old) wanted.now }
    ensures reached { IfOk result (λ made. Each (IsReached types.new) made.kinds) }
    ensures judged { Pushes (parameters (seen scope.now) (map plain patterns.now) wanted.now) types.old types.new sharing.new names.old names.new taken_in result }
{
    let alloc = types.terms().allocator();
    let mut kinds = Sequence::new(alloc);
    let mut made = Items::new(alloc);
    for pattern in patterns {
        let wanted = wanted_at(wanted, kinds.len());
        let One { kind, pattern } = parameter(scope, types, sharing, names, pattern, wanted)?;
        kinds.push(kind)?;
        made.push(pattern)?;
    }
    Ok(Taken {
        kinds,
        patterns: made,
    })
}
