//! The names that parameters and contexts bind.
ghost use Rattle.std.specs.Prelude.{IfOk, OnOk, map, option_map};
ghost use Rattle.mo_types.specs.Sub.{Each};
ghost use Rattle.met_types.specs.States.{IsReached};
ghost use Rattle.abstract_types.specs.PatternView.{plain};
ghost use Rattle.signatures.specs.Taking.{context_in, taken_in};
ghost use Rattle.judging.specs.declared.site.Site.{Site};
ghost use Rattle.judging.specs.Parts.{Ready, Sound};
ghost use Rattle.scope_judging.specs.Binding.{Binds};
ghost use Rattle.signature_judging.specs.Rules.{context_of, parameters};

use abstract_types::Pattern;
use judging::Checker;
use signatures::Taken;
use type_judgements::Refusal;
use type_terms::TermId;
use value_scopes::{Note, Scopes};

/// Whether parameters stand on their types: Motoko language manual, section "Functions". Each is annotated, or has the type in its
/// place among those that are wanted. It gives their types, and themselves with the types of their parts, and binds their names in
/// front of the others. `False` names the first condition that is false, and its place; the names are then of no use.
pub fn parameters(
    checker: &mut Checker,
    scopes: &mut Scopes,
    patterns: &[Pattern<u32>],
    wanted: &[TermId],
) -> Result<Taken, Refusal>
    requires sound { Sound checker.old scopes.old }
    requires reached { Each (IsReached checker.old.types) wanted.now }
    ensures reached { IfOk result (λ made. Each (IsReached checker.new.types) made.kinds) }
    ensures binds { Binds taken_in (parameters (map plain patterns.now) wanted.now) scopes.old checker.old scopes.new checker.new result }
    ensures ready { (x : Site) → Ready checker.old scopes.old x → OnOk result (Ready checker.new scopes.new x) }
{
    signatures::parameters(
        &scopes.types,
        &mut checker.types,
        &mut checker.messages,
        &mut scopes.values,
        patterns,
        wanted,
    )
}

/// Whether the pattern of a public function's context stands on `{ caller : Principal }`, where there is one: Motoko language
/// manual, section "Shared functions". It gives the pattern with the types of its parts, and binds its names in front of the others.
pub fn context_of(
    checker: &mut Checker,
    scopes: &mut Scopes,
    pattern: &Option<Pattern<u32>>,
) -> Result<Option<Pattern<Note>>, Refusal>
    requires { Sound checker.old scopes.old }
    ensures binds { Binds context_in (context_of (option_map plain pattern.now)) scopes.old checker.old scopes.new checker.new result }
    ensures ready { (x : Site) → Ready checker.old scopes.old x → OnOk result (Ready checker.new scopes.new x) }
{
    signatures::context_of(
        &scopes.types,
        &mut checker.types,
        &mut checker.messages,
        &mut scopes.values,
        pattern,
    )
}
