//! Declarations in their order (Motoko language manual, sections "Declarations" and "Blocks").
ghost use Rattle.std.specs.Prelude.{◌≡◌, ◌+◌, ◌<◌, ◌==◌, cond, false, None, IfSome, OnOk, option_map};
ghost use Rattle.typing_rules.specs.AbstractSyntax as syntax;
ghost use Rattle.typing_rules.specs.Lists.{EndsList};
ghost use Rattle.type_definitions.specs.Meanings.{term};
ghost use Rattle.met_types.specs.States.{IsReached};
ghost use Rattle.abstract_tree.specs.TreeView.{plain, plain_declaration_form};
ghost use Rattle.value_scopes.specs.declared.scopes.Scopes.{Scopes as ScopesValue};
ghost use Rattle.judging.specs.Answers.{Answers, Judges};
ghost use Rattle.judging.specs.Parts.{Ready, Sound, Wanting};
ghost use Rattle.judging.specs.Views.{judge_at, kind_reached, term_in, typed_in, wanted_in};
ghost use Rattle.list_judging.specs.Judging.{JudgesLists};
ghost use Rattle.order_rules.specs.Entries.{Enters, entry_in, entry_reached, judge_one, judge_order, run_in, run_reached, wanted_of};

use crate::entries::{Entry, MadeDeclaration, MadeRun, push_made};
use crate::objects::object_entry;
use crate::values::let_entry;
use crate::variables::var_entry;
use abstract_tree::{Declaration, DeclarationForm, Expression};
use judging::{Checker, Judged, Layer, Part, Site, meets_unit};
use list_judging::{JudgedList, ListPart, Lists};
use mo_num::Sequence;
use type_judgements::{Refusal, needs_below};
use type_terms::TermId;
use typing_rules::Condition;
use value_scopes::{Note, Scopes};

/// An expression of a list: the last one, of which the same is wanted as of the list, or another, of which () is.
fn expression<F: Fn(&mut Checker, &mut Scopes, Part<'_>) -> Judged>(
    layer: &Layer<F>,
    checker: &mut Checker,
    scopes: &mut Scopes,
    a: &Expression<u32>,
    last: bool,
) -> Judged
    requires judges { Judges layer.now.depth (F.pre layer.now.judge) (F.post layer.now.judge) }
    requires ready { Ready checker.old scopes.old layer.now.site }
    ensures answer { Answers typed_in kind_reached (λ v. judge_at layer.now.site.place (plain a.now) (wanted_of layer.now.site last v) v) scopes.old checker.old scopes.new checker.new result }
    ensures ready { OnOk result (Ready checker.new scopes.new layer.now.site) }
{
    if last {
        layer.as_wanted(checker, scopes, a)
    } else {
        layer.fits_unit(checker, scopes, a)
    }
}

/// An expression, at the token of this number.
fn expression_entry<F: Fn(&mut Checker, &mut Scopes, Part<'_>) -> Judged>(
    layer: &Layer<F>,
    checker: &mut Checker,
    scopes: &mut Scopes,
    at: u32,
    a: &Expression<u32>,
    last: bool,
) -> Result<Entry, Refusal>
    requires judges { Judges layer.now.depth (F.pre layer.now.judge) (F.post layer.now.judge) }
    requires ready { Ready checker.old scopes.old layer.now.site }
    ensures enters { Enters entry_in entry_reached (judge_one layer.now.site at (syntax.Evaluate (plain a.now)) last) scopes.old checker.old scopes.new checker.new result }
    ensures ready { OnOk result (Ready checker.new scopes.new layer.now.site) }
{
    let value = expression(layer, checker, scopes, a, last)?;
    let kind = value.note.kind;
    let note = Note { at, kind };
    let form = DeclarationForm::Evaluate(value);
    Ok(Entry {
        value: Some(kind),
        made: Some(MadeDeclaration { note, form }),
    })
}

/// A declaration that is not evaluated in order.
fn no_entry() -> Entry
    ensures { result ≡ record { value = None; made = None } }
{
    Entry {
        value: None,
        made: None,
    }
}

/// A declaration of a list, and whether it is the last one of a list with a value. Its names are bound.
fn judge_one<
    F: Fn(&mut Checker, &mut Scopes, Part<'_>) -> Judged,
    G: Fn(&mut Checker, &mut Scopes, ListPart<'_>) -> JudgedList,
>(
    lists: &Lists<F, G>,
    checker: &mut Checker,
    scopes: &mut Scopes,
    one: &Declaration<u32>,
    last: bool,
) -> Result<Entry, Refusal>
    requires judges { Judges lists.now.layer.depth (F.pre lists.now.layer.judge) (F.post lists.now.layer.judge) }
    requires lists { JudgesLists lists.now.layer.depth (G.pre lists.now.judge_list) (G.post lists.now.judge_list) }
    requires ready { Ready checker.old scopes.old lists.now.layer.site }
    ensures enters { Enters entry_in entry_reached (judge_one lists.now.layer.site one.now.note (plain_declaration_form one.now.form) last) scopes.old checker.old scopes.new checker.new result }
    ensures ready { OnOk result (Ready checker.new scopes.new lists.now.layer.site) }
{
    let at = one.note;
    match one.form.get() {
        DeclarationForm::Let(pattern, a) => {
            let_entry(&lists.layer, checker, scopes, at, pattern, a)
        }
        DeclarationForm::Var(stable, name, written, a) => var_entry(
            &lists.layer,
            checker,
            scopes,
            at,
            *stable,
            name,
            written,
            a,
        ),
        DeclarationForm::NamedObject(name, fields) => {
            object_entry(lists, checker, scopes, at, name, fields.as_slice())
        }
        DeclarationForm::Evaluate(a) => {
            expression_entry(&lists.layer, checker, scopes, at, a, last)
        }
        DeclarationForm::Func(_, _, _) => Ok(no_entry()),
        DeclarationForm::Method(_, _, _, _, _) => Ok(no_entry()),
        DeclarationForm::System(_, _) => Ok(no_entry()),
        DeclarationForm::TypeAlias(_, _, _) => Ok(no_entry()),
        DeclarationForm::Class(_, _, _) => Ok(no_entry()),
    }
}

/// The type () of a list whose last declaration is no expression, which is below the one that is wanted.
fn no_value(checker: &mut Checker, site: &Site) -> Result<TermId, Refusal>
    requires { Wanting checker.old site.now }
    ensures { (c : ScopesValue) → Sound checker.old c → Answers term_in IsReached (λ v. EndsList site.now.at None (wanted_in v site.now.wanted)) c checker.old c checker.new result }
{
    let unit = meets_unit(checker)?;
    match site.wanted {
        None => Ok(unit),
        Some(wanted) => {
            needs_below(
                checker.types.terms().allocator(),
                &checker.types,
                Condition::Mismatch,
                site.at,
                unit,
                wanted,
            )?;
            Ok(unit)
        }
    }
}

/// The type of a list, whose last declaration has this type, where it is an expression.
fn ends_list(checker: &mut Checker, site: &Site, last: Option<TermId>) -> Result<TermId, Refusal>
    requires wanting { Wanting checker.old site.now }
    requires last { IfSome last (IsReached checker.old.types) }
    ensures { (c : ScopesValue) → Sound checker.old c → Answers term_in IsReached (λ v. EndsList site.now.at (option_map (term v.later) last) (wanted_in v site.now.wanted)) c checker.old c checker.new result }
{
    match last {
        Some(kind) => Ok(kind),
        None => no_value(checker, site),
    }
}

/// Whether the declaration of this place is the last one of a list with a value.
fn is_last(value: bool, len: usize, i: usize) -> bool
    requires { i < len }
    ensures { result ≡ cond value (i + 1 == len) false }
{
    if value { i + 1 == len } else { false }
}

/// The declarations of a list in their order, but not the bodies of its functions and classes: Motoko language manual, sections
/// "Declarations" and "Blocks". It gives the type of the list, and binds the names of its declarations in front of the others. `False`
/// names the first condition that is false; the names are then of no use.
pub fn judge_order<
    F: Fn(&mut Checker, &mut Scopes, Part<'_>) -> Judged,
    G: Fn(&mut Checker, &mut Scopes, ListPart<'_>) -> JudgedList,
>(
    lists: &Lists<F, G>,
    checker: &mut Checker,
    scopes: &mut Scopes,
    value: bool,
    list: &[Declaration<u32>],
) -> Result<MadeRun, Refusal>
    requires judges { Judges lists.now.layer.depth (F.pre lists.now.layer.judge) (F.post lists.now.layer.judge) }
    requires lists { JudgesLists lists.now.layer.depth (G.pre lists.now.judge_list) (G.post lists.now.judge_list) }
    requires ready { Ready checker.old scopes.old lists.now.layer.site }
    ensures enters { Enters (run_in scopes.old lists.now.layer.site.place) run_reached (judge_order lists.now.layer.site value list.now) scopes.old checker.old scopes.new checker.new result }
    ensures ready { OnOk result (Ready checker.new scopes.new lists.now.layer.site) }
{
    let mut made = Sequence::new(checker.types.terms().allocator());
    let mut before = None;
    for i in 0..list.len() {
        let last = is_last(value, list.len(), i);
        let entry = judge_one(lists, checker, scopes, &list[i], last)?;
        let Entry {
            value: kind,
            made: one,
        } = entry;
        before = kind;
        push_made(&mut made, one)?;
    }
    let kind = ends_list(checker, &lists.layer.site, before)?;
    Ok(MadeRun { kind, made })
}
