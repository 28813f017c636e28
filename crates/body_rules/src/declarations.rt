//! The declarations of a list, each with its body (Motoko language manual, section "Declarations").
ghost use Rattle.std.specs.Vec.Iter.{into_iter_items};
ghost use Rattle.std.specs.Prelude.{◌≡◌, List, IfOk, OnOk, map};
ghost use Rattle.typing_rules.specs.AbstractSyntax as syntax;
ghost use Rattle.typing_rules.specs.Lists.{TakesMade};
ghost use Rattle.met_types.specs.States.{Kept};
ghost use Rattle.abstract_types.specs.TypeView.{named, type_node};
ghost use Rattle.abstract_tree.specs.TreeView.{plain_declaration_form};
ghost use Rattle.value_scopes.specs.declared.place.Place.{Place as PlaceValue};
ghost use Rattle.value_scopes.specs.declared.scopes.Scopes.{Scopes as ScopesValue};
ghost use Rattle.order_rules.specs.declared.entries.MadeDeclaration.{MadeDeclaration as Made};
ghost use Rattle.order_rules.specs.Entries.{made_in};
ghost use Rattle.judging.specs.Answers.{Answers, Judges};
ghost use Rattle.judging.specs.Parts.{Ready, Sound};
ghost use Rattle.judging.specs.declared.checker.Checker.{Checker as CheckerValue};
ghost use Rattle.judging.specs.declared.site.Site.{Site as SiteValue};
ghost use Rattle.list_judging.specs.Judging.{JudgesLists};
ghost use Rattle.function_bodies.specs.Bodies.{any_made, body_in, judge_body};

use abstract_tree::{Declaration, DeclarationForm};
use abstract_types::{PlacedName, TypeNode};
use class_bodies::class_body;
use function_bodies::{function_body, method_body, system_body};
use judging::{Checker, Judged, Part};
use list_judging::{JudgedList, ListPart, Lists};
use mo_num::Memory;
use mo_syntax::Items;
use order_rules::MadeDeclaration;
use std::alloc::Global;
use std::vec::IntoIter;
use type_copies::{copied_name, copied_type};
use type_judgements::Refusal;
use typing_rules::Condition;
use value_scopes::{Note, Scopes};
use written_kinds::unit;

/// The next of the declarations that were evaluated. There is one for each in the list.
fn take(rest: &mut IntoIter<MadeDeclaration>) -> Result<MadeDeclaration, Refusal>
    ensures { (c : ScopesValue) → (k : CheckerValue) → Sound k c → Answers (body_in (into_iter_items rest.new)) any_made (λ v. TakesMade (map (made_in v.later) (into_iter_items rest.old))) c k c k result }
{
    match rest.next() {
        Some(one) => Ok(one),
        None => Err(Refusal::False(0, Condition::Mismatch)),
    }
}

/// The names once more.
fn copied_names(alloc: Global, names: &[PlacedName]) -> Result<Items<PlacedName>, Memory>
    ensures { IfOk result (λ made. made ≡ names.now) }
{
    let mut made = Items::new(alloc);
    for one in names {
        made.push(copied_name(alloc, one)?)?;
    }
    Ok(made)
}

/// `type T<U> = A`, at the token of this number, as it is.
fn alias(
    checker: &mut Checker,
    at: u32,
    name: &PlacedName,
    parameters: &[PlacedName],
    of: &TypeNode,
) -> Result<MadeDeclaration, Refusal>
    requires { Kept checker.old.types }
    ensures { (c : ScopesValue) → Sound checker.old c → (rest : List Made) → (y : PlaceValue) → Answers (body_in rest) any_made (judge_body y at (syntax.TypeAlias (named name.now) (map named parameters.now) (type_node of.now)) rest) c checker.old c checker.new result }
{
    let alloc = checker.types.terms().allocator();
    let copy = copied_name(alloc, name)?;
    let names = copied_names(alloc, parameters)?;
    let of = copied_type(alloc, of)?;
    let kind = unit(&mut checker.types)?;
    let note = Note { at, kind };
    let form = DeclarationForm::TypeAlias(copy, names, of);
    Ok(MadeDeclaration { note, form })
}

/// A declaration of a list with its body, where it is a function or class, or as it was evaluated. `rest` are those that were evaluated and
/// are still to be taken.
pub fn judge_declaration<
    F: Fn(&mut Checker, &mut Scopes, Part<'_>) -> Judged,
    G: Fn(&mut Checker, &mut Scopes, ListPart<'_>) -> JudgedList,
>(
    lists: &Lists<F, G>,
    checker: &mut Checker,
    scopes: &mut Scopes,
    one: &Declaration<u32>,
    rest: &mut IntoIter<MadeDeclaration>,
) -> Result<MadeDeclaration, Refusal>
    requires judges { Judges lists.now.layer.depth (F.pre lists.now.layer.judge) (F.post lists.now.layer.judge) }
    requires lists { JudgesLists lists.now.layer.depth (G.pre lists.now.judge_list) (G.post lists.now.judge_list) }
    requires sound { Sound checker.old scopes.old }
    ensures answer { Answers (body_in (into_iter_items rest.new)) any_made (judge_body lists.now.layer.site.place one.now.note (plain_declaration_form one.now.form) (into_iter_items rest.old)) scopes.old checker.old scopes.new checker.new result }
    ensures ready { (x : SiteValue) → Ready checker.old scopes.old x → OnOk result (Ready checker.new scopes.new x) }
{
    let at = one.note;
    match one.form.get() {
        DeclarationForm::Func(name, signature, a) => {
            function_body(&lists.layer, checker, scopes, at, name, signature, a)
        }
        DeclarationForm::Method(query, context, name, signature, a) => method_body(
            &lists.layer,
            checker,
            scopes,
            at,
            *query,
            context,
            name,
            signature,
            a,
        ),
        DeclarationForm::System(name, a) => {
            system_body(&lists.layer, checker, scopes, at, name, a)
        }
        DeclarationForm::TypeAlias(name, parameters, of) => {
            alias(checker, at, name, parameters.as_slice(), of)
        }
        DeclarationForm::Class(name, signature, fields) => class_body(
            lists,
            checker,
            scopes,
            at,
            name,
            signature,
            fields.as_slice(),
        ),
        DeclarationForm::Let(_, _) => take(rest),
        DeclarationForm::Var(_, _, _, _) => take(rest),
        DeclarationForm::NamedObject(_, _) => take(rest),
        DeclarationForm::Evaluate(_) => take(rest),
    }
}
