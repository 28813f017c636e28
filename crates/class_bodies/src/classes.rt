//! Classes (Motoko language manual, section "Class declaration").
ghost use Rattle.std.specs.Prelude.{◌≡◌, List, map};
ghost use Rattle.typing_rules.specs.AbstractSyntax as syntax;
ghost use Rattle.abstract_types.specs.PatternView.{plain, plain_signature};
ghost use Rattle.abstract_types.specs.TypeView.{named};
ghost use Rattle.judging.specs.Answers.{Answers};
ghost use Rattle.judging.specs.Parts.{Sound};
ghost use Rattle.list_judging.specs.Judging.{JudgesLists};
ghost use Rattle.list_judging.specs.Lists.{list_in, list_reached, seen_list};
ghost use Rattle.order_rules.specs.declared.entries.MadeDeclaration.{MadeDeclaration as Made};
ghost use Rattle.function_bodies.specs.Bodies.{any_made, body_in, judge_body};
ghost use Rattle.class_bodies.specs.Classes.{any_fields, class_fields, class_in, class_list, class_parts, class_site, fields_in};

use abstract_tree::{Declaration, DeclarationForm};
use abstract_types::{Pattern, PlacedName, Signature};
use declared_names::push_generics;
use declared_types::class_type;
use judging::{Checker, Site};
use list_judging::{JudgedList, ListPart, Lists, MadeList};
use order_rules::MadeDeclaration;
use public_fields::public_fields;
use scope_judging::unbind;
use signature_judging::{copied_signature, parameters};
use signatures::Taken;
use type_copies::copied_name;
use type_judgements::Refusal;
use value_scopes::{Around, Body, NameStack, Note, Place, Scopes};

/// The parameters of a class, and its fields.
struct Fields {
    taken: Taken,
    list: MadeList,
}

/// The site of the fields of a class, which has no result to return.
fn class_site(at: u32) -> Site
    ensures { result ≡ class_site at }
{
    let place = Place {
        returns: None,
        ends: false,
        body: Body::Local,
        around: Around::Other,
    };
    Site {
        at,
        place,
        around: Around::Other,
        wanted: None,
    }
}

/// The fields of a class, where its type parameters and its parameters are in scope. Neither labels nor `do ?` around the class are seen
/// in them.
fn class_list<F, G: Fn(&mut Checker, &mut Scopes, ListPart<'_>) -> JudgedList>(
    lists: &Lists<F, G>,
    checker: &mut Checker,
    scopes: &mut Scopes,
    at: u32,
    list: &[Declaration<u32>],
) -> JudgedList
    requires lists { JudgesLists lists.now.layer.depth (G.pre lists.now.judge_list) (G.post lists.now.judge_list) }
    requires sound { Sound checker.old scopes.old }
    ensures { Answers list_in list_reached (class_list at list.now) scopes.old checker.old scopes.new checker.new result }
{
    let none = NameStack::new(checker.types.terms().allocator());
    let labels = std::mem::replace(&mut scopes.labels, none);
    let site = class_site(at);
    let made = lists.list_at(checker, scopes, site, false, list);
    scopes.labels = labels;
    made
}

/// The same, where its public fields are such as may be.
fn class_fields<F, G: Fn(&mut Checker, &mut Scopes, ListPart<'_>) -> JudgedList>(
    lists: &Lists<F, G>,
    checker: &mut Checker,
    scopes: &mut Scopes,
    at: u32,
    list: &[Declaration<u32>],
) -> JudgedList
    requires lists { JudgesLists lists.now.layer.depth (G.pre lists.now.judge_list) (G.post lists.now.judge_list) }
    requires sound { Sound checker.old scopes.old }
    ensures { Answers list_in list_reached (class_fields at list.now) scopes.old checker.old scopes.new checker.new result }
{
    public_fields(list)?;
    class_list(lists, checker, scopes, at, list)
}

/// The parameters of a class, and its fields with their names.
fn class_parts<F, G: Fn(&mut Checker, &mut Scopes, ListPart<'_>) -> JudgedList>(
    lists: &Lists<F, G>,
    checker: &mut Checker,
    scopes: &mut Scopes,
    at: u32,
    patterns: &[Pattern<u32>],
    list: &[Declaration<u32>],
) -> Result<Fields, Refusal>
    requires lists { JudgesLists lists.now.layer.depth (G.pre lists.now.judge_list) (G.post lists.now.judge_list) }
    requires sound { Sound checker.old scopes.old }
    ensures { Answers fields_in any_fields (class_parts lists.now.layer.site.place at (map plain patterns.now) list.now) scopes.old checker.old scopes.new checker.new result }
{
    let count = scopes.values.len();
    let taken = parameters(checker, scopes, patterns, &[])?;
    let list = class_fields(lists, checker, scopes, at, list)?;
    unbind(scopes, count);
    Ok(Fields { taken, list })
}

/// A class, where its type parameters are in scope.
fn class_within<F, G: Fn(&mut Checker, &mut Scopes, ListPart<'_>) -> JudgedList>(
    lists: &Lists<F, G>,
    checker: &mut Checker,
    scopes: &mut Scopes,
    at: u32,
    name: &PlacedName,
    signature: &Signature<u32>,
    list: &[Declaration<u32>],
) -> Result<MadeDeclaration, Refusal>
    requires lists { JudgesLists lists.now.layer.depth (G.pre lists.now.judge_list) (G.post lists.now.judge_list) }
    requires sound { Sound checker.old scopes.old }
    ensures { (rest : List Made) → Answers (body_in rest) any_made (class_in lists.now.layer.site.place at (named name.now) (plain_signature signature.now) list.now rest) scopes.old checker.old scopes.new checker.new result }
{
    let copy = copied_name(checker.types.terms().allocator(), name)?;
    let kind = class_type(&scopes.types, &mut checker.types, name)?;
    let parameters = signature.parameters.as_slice();
    let made = class_parts(lists, checker, scopes, at, parameters, list)?;
    let Fields { taken, list } = made;
    let (_kinds, patterns) = taken.into_parts();
    let MadeList {
        kind: _kind,
        declarations,
    } = list;
    let alloc = checker.types.terms().allocator();
    let signature = copied_signature(alloc, signature, patterns)?;
    let note = Note { at, kind };
    let form = DeclarationForm::Class(copy, signature, declarations);
    Ok(MadeDeclaration { note, form })
}

/// `class C<T>(p) { .. }`, at the token of this number: Motoko language manual, section "Class declaration".
pub fn class_body<F, G: Fn(&mut Checker, &mut Scopes, ListPart<'_>) -> JudgedList>(
    lists: &Lists<F, G>,
    checker: &mut Checker,
    scopes: &mut Scopes,
    at: u32,
    name: &PlacedName,
    signature: &Signature<u32>,
    list: &[Declaration<u32>],
) -> Result<MadeDeclaration, Refusal>
    requires lists { JudgesLists lists.now.layer.depth (G.pre lists.now.judge_list) (G.post lists.now.judge_list) }
    requires sound { Sound checker.old scopes.old }
    ensures { (rest : List Made) → Answers (body_in rest) any_made (judge_body lists.now.layer.site.place at (syntax.Class (named name.now) (plain_signature signature.now) (seen_list list.now)) rest) scopes.old checker.old scopes.new checker.new result }
{
    let count = scopes.types.len();
    push_generics(&mut scopes.types, signature.generics.as_slice())?;
    let made = class_within(lists, checker, scopes, at, name, signature, list)?;
    scopes.types.truncate(count);
    Ok(made)
}
