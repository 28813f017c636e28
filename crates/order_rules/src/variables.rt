//! `var` (Motoko language manual, section "Var declaration").
ghost use Rattle.std.specs.Prelude.{◌≡◌, false, IfOk, OnOk, option_map};
ghost use Rattle.typing_rules.specs.declared.condition.Condition.TheVariants as condition;
ghost use Rattle.typing_rules.specs.AbstractSyntax as syntax;
ghost use Rattle.typing_rules.specs.Judgements.{Fine, IsShareable, Needs};
ghost use Rattle.typing_rules.specs.Lists.{Stable};
ghost use Rattle.type_definitions.specs.Meanings.{term};
ghost use Rattle.met_types.specs.States.{IsReached};
ghost use Rattle.abstract_types.specs.TypeView.{annotation, named, type_node};
ghost use Rattle.abstract_tree.specs.TreeView.{plain};
ghost use Rattle.value_scopes.specs.declared.scopes.Scopes.{Scopes as ScopesValue};
ghost use Rattle.judging.specs.Answers.{Answers, Judges};
ghost use Rattle.judging.specs.Parts.{Known, Ready, Sound};
ghost use Rattle.judging.specs.Views.{no_more, nothing};
ghost use Rattle.order_rules.specs.Entries.{Enters, entry_in, entry_reached, judge_one};

use crate::entries::{Entry, MadeDeclaration};
use crate::values::{DeclaredValue, declared_value};
use abstract_tree::{DeclarationForm, Expression};
use abstract_types::{PlacedName, TypeNode};
use judging::{Checker, Judged, Layer, Part};
use mo_num::Memory;
use std::alloc::Global;
use type_copies::{copied_name, copied_type};
use type_judgements::Refusal;
use type_terms::TermId;
use typing_rules::Condition;
use value_scopes::{Bound, Note, Scopes};

/// The condition at the place, that a type is shareable.
fn needs_shareable(at: u32, checker: &mut Checker, kind: TermId) -> Result<(), Refusal>
    requires known { Known checker.old }
    requires kind { IsReached checker.old.types kind }
    ensures { (c : ScopesValue) → Sound checker.old c → Answers nothing no_more (λ v. Needs condition.StableType at (IsShareable (term v.later kind)) Fine) c checker.old c checker.new result }
{
    if checker.messages.is_so(&checker.types, kind)? {
        Ok(())
    } else {
        Err(Refusal::False(at, Condition::StableType))
    }
}

/// The condition at the place, that the type of a variable that is stable is shareable.
fn stable_kind(at: u32, checker: &mut Checker, stable: bool, kind: TermId) -> Result<(), Refusal>
    requires known { Known checker.old }
    requires kind { IsReached checker.old.types kind }
    ensures { (c : ScopesValue) → Sound checker.old c → Answers nothing no_more (λ v. Stable stable at (term v.later kind) Fine) c checker.old c checker.new result }
{
    if stable {
        needs_shareable(at, checker, kind)
    } else {
        Ok(())
    }
}

/// A written type once more, where there is one.
fn copied(alloc: Global, written: &Option<TypeNode>) -> Result<Option<TypeNode>, Memory>
    ensures { IfOk result (λ made. annotation made ≡ annotation written.now) }
{
    match written {
        Some(written) => Ok(Some(copied_type(alloc, written)?)),
        None => Ok(None),
    }
}

/// The type that is written, where there is one.
fn written_at(written: &Option<TypeNode>) -> Option<&TypeNode>
    ensures { option_map (λ n. type_node n.now) result ≡ annotation written.now }
{
    match written {
        Some(written) => Some(written),
        None => None,
    }
}

/// `var x : A = a`, stable or not, at the token of this number: Motoko language manual, section "Var declaration". The name is bound.
pub(crate) fn var_entry<F: Fn(&mut Checker, &mut Scopes, Part<'_>) -> Judged>(
    layer: &Layer<F>,
    checker: &mut Checker,
    scopes: &mut Scopes,
    at: u32,
    stable: bool,
    name: &PlacedName,
    written: &Option<TypeNode>,
    a: &Expression<u32>,
) -> Result<Entry, Refusal>
    requires judges { Judges layer.now.depth (F.pre layer.now.judge) (F.post layer.now.judge) }
    requires ready { Ready checker.old scopes.old layer.now.site }
    ensures enters { Enters entry_in entry_reached (judge_one layer.now.site at (syntax.Var stable (named name.now) (annotation written.now) (plain a.now)) false) scopes.old checker.old scopes.new checker.new result }
    ensures ready { OnOk result (Ready checker.new scopes.new layer.now.site) }
{
    let of = declared_value(
        layer,
        checker,
        scopes,
        written_at(written),
        layer.site.place,
        a,
    )?;
    let DeclaredValue { kind, value } = of;
    stable_kind(at, checker, stable, kind)?;
    let alloc = checker.types.terms().allocator();
    let copy = copied_name(alloc, name)?;
    let annotation = copied(alloc, written)?;
    let bound = Bound::variable(alloc, kind);
    scopes.values.push(name.bytes.as_slice(), bound)?;
    let form = DeclarationForm::Var(stable, copy, annotation, value);
    let note = Note { at, kind };
    Ok(Entry {
        value: None,
        made: Some(MadeDeclaration { note, form }),
    })
}
