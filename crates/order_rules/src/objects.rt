//! Objects with a name (Motoko language manual, section "Objects").
ghost use Rattle.std.specs.Prelude.{false, OnOk};
ghost use Rattle.typing_rules.specs.AbstractSyntax as syntax;
ghost use Rattle.abstract_types.specs.TypeView.{named};
ghost use Rattle.judging.specs.Parts.{Ready};
ghost use Rattle.list_judging.specs.Judging.{JudgesLists};
ghost use Rattle.list_judging.specs.Lists.{seen_list};
ghost use Rattle.order_rules.specs.Entries.{Enters, entry_in, entry_reached, judge_one};

use crate::entries::{Entry, MadeDeclaration};
use abstract_tree::{Declaration, DeclarationForm};
use abstract_types::PlacedName;
use block_rules::judge_object;
use judging::Checker;
use list_judging::{JudgedList, ListPart, Lists, MadeList};
use type_copies::copied_name;
use type_judgements::{Refusal, meets};
use value_scopes::{Bound, Note, Scopes};

/// `object x { .. }`, at the token of this number: Motoko language manual, section "Objects". The name is bound.
pub(crate) fn object_entry<F, G: Fn(&mut Checker, &mut Scopes, ListPart<'_>) -> JudgedList>(
    lists: &Lists<F, G>,
    checker: &mut Checker,
    scopes: &mut Scopes,
    at: u32,
    name: &PlacedName,
    list: &[Declaration<u32>],
) -> Result<Entry, Refusal>
    requires judges { JudgesLists lists.now.layer.depth (G.pre lists.now.judge_list) (G.post lists.now.judge_list) }
    requires ready { Ready checker.old scopes.old lists.now.layer.site }
    ensures enters { Enters entry_in entry_reached (judge_one lists.now.layer.site at (syntax.NamedObject (named name.now) (seen_list list.now)) false) scopes.old checker.old scopes.new checker.new result }
    ensures ready { OnOk result (Ready checker.new scopes.new lists.now.layer.site) }
{
    let made = judge_object(lists, checker, scopes, at, list)?;
    let MadeList { kind, declarations } = made;
    meets(&mut checker.types, kind)?;
    let alloc = checker.types.terms().allocator();
    let copy = copied_name(alloc, name)?;
    let bound = Bound::constant(alloc, kind);
    scopes.values.push(name.bytes.as_slice(), bound)?;
    let form = DeclarationForm::NamedObject(copy, declarations);
    let note = Note { at, kind };
    Ok(Entry {
        value: None,
        made: Some(MadeDeclaration { note, form }),
    })
}
