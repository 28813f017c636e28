//! Values of `let` and `var` (Motoko language manual, sections "Let declaration" and "Var declaration").
ghost use Rattle.std.specs.Prelude.{◌≡◌, false, None, Some, OnOk, option_map};
ghost use Rattle.abstract_types.specs.PatternView.{plain as plain_pattern};
ghost use Rattle.abstract_types.specs.TypeView.{type_node};
ghost use Rattle.abstract_tree.specs.TreeView.{plain};
ghost use Rattle.judging.specs.Answers.{Answers, Judges};
ghost use Rattle.judging.specs.Parts.{Ready};
ghost use Rattle.typing_rules.specs.AbstractSyntax as syntax;
ghost use Rattle.order_rules.specs.Entries.{Enters, entry_in, entry_reached, judge_one};
ghost use Rattle.order_rules.specs.Values.{declared_value, value_in, value_reached};

use crate::entries::{Entry, MadeDeclaration};
use crate::patterns::{annotation, around_of};
use abstract_tree::{DeclarationForm, Expression};
use abstract_types::{Pattern, TypeNode};
use judging::{Checker, Judged, Layer, Part};
use scope_judging::{reads, stands};
use type_judgements::Refusal;
use type_terms::TermId;
use value_scopes::{Note, Place, Scopes};

/// A value with the type that is declared of it, which is written or is its own.
pub(crate) struct DeclaredValue {
    pub(crate) kind: TermId,
    pub(crate) value: Expression<Note>,
}

/// A value that fits the type that is written.
fn annotated_value<F: Fn(&mut Checker, &mut Scopes, Part<'_>) -> Judged>(
    layer: &Layer<F>,
    checker: &mut Checker,
    scopes: &mut Scopes,
    written: &TypeNode,
    a: &Expression<u32>,
) -> Result<DeclaredValue, Refusal>
    requires judges { Judges layer.now.depth (F.pre layer.now.judge) (F.post layer.now.judge) }
    requires ready { Ready checker.old scopes.old layer.now.site }
    ensures answer { Answers value_in value_reached (declared_value layer.now.site (Some (type_node written.now)) layer.now.site.place (plain a.now)) scopes.old checker.old scopes.new checker.new result }
    ensures ready { OnOk result (Ready checker.new scopes.new layer.now.site) }
{
    let kind = reads(checker, scopes, written)?;
    let value = layer.part(checker, scopes, a, Some(kind))?;
    Ok(DeclaredValue { kind, value })
}

/// A value that has its own type.
fn own_value<F: Fn(&mut Checker, &mut Scopes, Part<'_>) -> Judged>(
    layer: &Layer<F>,
    checker: &mut Checker,
    scopes: &mut Scopes,
    place: Place,
    a: &Expression<u32>,
) -> Result<DeclaredValue, Refusal>
    requires judges { Judges layer.now.depth (F.pre layer.now.judge) (F.post layer.now.judge) }
    requires ready { Ready checker.old scopes.old layer.now.site }
    requires returns { place.returns ≡ layer.now.site.place.returns }
    ensures answer { Answers value_in value_reached (declared_value layer.now.site None place (plain a.now)) scopes.old checker.old scopes.new checker.new result }
    ensures ready { OnOk result (Ready checker.new scopes.new layer.now.site) }
{
    let value = layer.part_at(checker, scopes, place, a, None)?;
    Ok(DeclaredValue {
        kind: value.note.kind,
        value,
    })
}

/// A value that fits the type that is written, or else stands at this place and has its own type.
pub(crate) fn declared_value<F: Fn(&mut Checker, &mut Scopes, Part<'_>) -> Judged>(
    layer: &Layer<F>,
    checker: &mut Checker,
    scopes: &mut Scopes,
    written: Option<&TypeNode>,
    place: Place,
    a: &Expression<u32>,
) -> Result<DeclaredValue, Refusal>
    requires judges { Judges layer.now.depth (F.pre layer.now.judge) (F.post layer.now.judge) }
    requires ready { Ready checker.old scopes.old layer.now.site }
    requires returns { place.returns ≡ layer.now.site.place.returns }
    ensures answer { Answers value_in value_reached (declared_value layer.now.site (option_map (λ n. type_node n.now) written.entry) place (plain a.now)) scopes.old checker.old scopes.new checker.new result }
    ensures ready { OnOk result (Ready checker.new scopes.new layer.now.site) }
{
    match written {
        Some(written) => annotated_value(layer, checker, scopes, written, a),
        None => own_value(layer, checker, scopes, place, a),
    }
}

/// `let p = a`, at the token of this number: Motoko language manual, section "Let declaration". The names of the pattern are bound.
pub(crate) fn let_entry<F: Fn(&mut Checker, &mut Scopes, Part<'_>) -> Judged>(
    layer: &Layer<F>,
    checker: &mut Checker,
    scopes: &mut Scopes,
    at: u32,
    pattern: &Pattern<u32>,
    a: &Expression<u32>,
) -> Result<Entry, Refusal>
    requires judges { Judges layer.now.depth (F.pre layer.now.judge) (F.post layer.now.judge) }
    requires ready { Ready checker.old scopes.old layer.now.site }
    ensures enters { Enters entry_in entry_reached (judge_one layer.now.site at (syntax.Let (plain_pattern pattern.now) (plain a.now)) false) scopes.old checker.old scopes.new checker.new result }
    ensures ready { OnOk result (Ready checker.new scopes.new layer.now.site) }
{
    let place = layer.site.place.directly(around_of(pattern));
    let of = declared_value(layer, checker, scopes, annotation(pattern), place, a)?;
    let DeclaredValue { kind, value } = of;
    let pattern = stands(checker, scopes, pattern, kind)?;
    let note = Note {
        at,
        kind: value.note.kind,
    };
    let form = DeclarationForm::Let(pattern, value);
    Ok(Entry {
        value: None,
        made: Some(MadeDeclaration { note, form }),
    })
}
