//! Callees.
ghost use Rattle.std.specs.Prelude.{map, option_map};
ghost use Rattle.type_definitions.specs.Tables.{Within};
ghost use Rattle.abstract_types.specs.TypeView.{type_node};
ghost use Rattle.abstract_tree.specs.TreeView.{plain};
ghost use Rattle.judging.specs.Answers.{Answers, Judges};
ghost use Rattle.judging.specs.Parts.{Ready};
ghost use Rattle.judging.specs.Views.{kind_reached, typed_in};
ghost use Rattle.instance_rules.specs.Callees.{generic_in};
ghost use Rattle.application_rules.specs.Callees.{at_types, callee, plain_callee};

use abstract_tree::Expression;
use abstract_types::TypeNode;
use instance_rules::{Generic, instance, polymorphic};
use judging::{Checker, Judged, Layer, Part, Site};
use mo_syntax::Items;
use type_judgements::Refusal;
use typing_rules::Condition;
use value_scopes::Scopes;

/// A function with type parameters, at type arguments: all of them are written.
fn at_types(
    site: &Site,
    checker: &mut Checker,
    scopes: &Scopes,
    place: u32,
    generic: Generic,
    types: &Option<Items<TypeNode>>,
) -> Judged
    requires ready { Ready checker.old scopes.now site.now }
    requires within { Within checker.old.types.forms generic.bound.kind }
    ensures { Answers typed_in kind_reached (λ v. at_types site.now.at place (option_map (map type_node) types.now) v (generic_in v.later generic)) scopes.now checker.old scopes.now checker.new result }
{
    match types {
        Some(types) => {
            let kind = instance(checker, scopes, site.at, &generic.bound, types.as_slice())?;
            let callee = Site {
                at: place,
                place: site.place,
                around: site.around,
                wanted: None,
            };
            callee.has(checker, kind, generic.into_form())
        }
        None => Err(Refusal::False(site.at, Condition::TypeArguments)),
    }
}

/// Another callee, for which no type arguments are written.
fn plain_callee<F: Fn(&mut Checker, &mut Scopes, Part<'_>) -> Judged>(
    layer: &Layer<F>,
    checker: &mut Checker,
    scopes: &mut Scopes,
    f: &Expression<u32>,
    types: &Option<Items<TypeNode>>,
) -> Judged
    requires judges { Judges layer.now.depth (F.pre layer.now.judge) (F.post layer.now.judge) }
    requires ready { Ready checker.old scopes.old layer.now.site }
    ensures { Answers typed_in kind_reached (plain_callee layer.now.site (plain f.now) (option_map (map type_node) types.now)) scopes.old checker.old scopes.new checker.new result }
{
    match types {
        Some(types) => {
            let none_written = types.is_empty();
            if none_written {
                layer.part(checker, scopes, f, None)
            } else {
                Err(Refusal::False(layer.site.at, Condition::TypeArguments))
            }
        }
        None => layer.part(checker, scopes, f, None),
    }
}

/// What is called: Motoko language manual, section "Function calls". A function with type parameters takes all its type arguments, and
/// others take none.
pub(crate) fn callee<F: Fn(&mut Checker, &mut Scopes, Part<'_>) -> Judged>(
    layer: &Layer<F>,
    checker: &mut Checker,
    scopes: &mut Scopes,
    f: &Expression<u32>,
    types: &Option<Items<TypeNode>>,
) -> Judged
    requires judges { Judges layer.now.depth (F.pre layer.now.judge) (F.post layer.now.judge) }
    requires ready { Ready checker.old scopes.old layer.now.site }
    ensures { Answers typed_in kind_reached (callee layer.now.site (plain f.now) (option_map (map type_node) types.now)) scopes.old checker.old scopes.new checker.new result }
{
    match polymorphic(&mut checker.types, scopes, f)? {
        Some(generic) => at_types(&layer.site, checker, scopes, f.note, generic, types),
        None => plain_callee(layer, checker, scopes, f, types),
    }
}
