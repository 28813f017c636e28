//! The names that patterns bind.
ghost use Rattle.std.specs.Prelude.{◌≡◌, length, OnOk};
ghost use Rattle.met_types.specs.States.{IsReached};
ghost use Rattle.abstract_types.specs.PatternView.{plain};
ghost use Rattle.value_scopes.specs.declared.scopes.Scopes.{Scopes as Names};
ghost use Rattle.typed_patterns.specs.Binding.{Names as Bound};
ghost use Rattle.typed_patterns.specs.Making.{pattern_in};
ghost use Rattle.judging.specs.declared.site.Site.{Site};
ghost use Rattle.judging.specs.Parts.{Ready, Sound};
ghost use Rattle.scope_judging.specs.Binding.{Binds, under};
ghost use Rattle.scope_judging.specs.Rules.{stands};

use abstract_types::Pattern;
use judging::Checker;
use type_judgements::Refusal;
use type_terms::TermId;
use value_scopes::{Note, Scopes};

/// Whether a pattern stands on a type that is met: Motoko language manual, section "Patterns". It gives the pattern with the type of
/// each part, and binds its names in front of the others. `False` names the first condition that is false, and its place; the names
/// are then of no use.
pub fn stands(
    checker: &mut Checker,
    scopes: &mut Scopes,
    pattern: &Pattern<u32>,
    kind: TermId,
) -> Result<Pattern<Note>, Refusal>
    requires sound { Sound checker.old scopes.old }
    requires reached { IsReached checker.old.types kind }
    ensures binds { Binds pattern_in (stands (plain pattern.now) kind) scopes.old checker.old scopes.new checker.new result }
    ensures ready { (x : Site) → Ready checker.old scopes.old x → OnOk result (Ready checker.new scopes.new x) }
{
    typed_patterns::stands(
        &scopes.types,
        &mut checker.types,
        &mut checker.messages,
        &mut scopes.values,
        pattern,
        kind,
    )
}

/// Takes away the names of values that were bound in front of the outermost ones, which are so many.
pub fn unbind(scopes: &mut Scopes, count: usize)
    ensures { (more : Bound) (c : Names) → scopes.old ≡ under more c → count ≡ length c.values → scopes.new ≡ c }
{
    scopes.values.truncate(count);
}
