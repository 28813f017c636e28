//! The bodies of a list's functions and classes (Motoko language manual, sections "Function declaration" and "Class declaration").
ghost use Rattle.judging.specs.Answers.{Answers, Judges};
ghost use Rattle.judging.specs.Parts.{Ready};
ghost use Rattle.list_judging.specs.Judging.{JudgesLists};
ghost use Rattle.list_judging.specs.Lists.{declarations_in};
ghost use Rattle.list_rules.specs.Lists.{any_list, judge_bodies};

use abstract_tree::Declaration;
use body_rules::judge_declaration;
use judging::{Checker, Judged, Part};
use list_judging::{JudgedList, ListPart, Lists};
use mo_num::Sequence;
use mo_syntax::Items;
use order_rules::MadeDeclaration;
use type_judgements::Refusal;
use value_scopes::{Note, Scopes};

/// The declarations of a list with the bodies of its functions and classes, where these are those that were evaluated.
pub(crate) fn judge_bodies<
    F: Fn(&mut Checker, &mut Scopes, Part<'_>) -> Judged,
    G: Fn(&mut Checker, &mut Scopes, ListPart<'_>) -> JudgedList,
>(
    lists: &Lists<F, G>,
    checker: &mut Checker,
    scopes: &mut Scopes,
    list: &[Declaration<u32>],
    made: Sequence<MadeDeclaration>,
) -> Result<Items<Declaration<Note>>, Refusal>
    requires judges { Judges lists.now.layer.depth (F.pre lists.now.layer.judge) (F.post lists.now.layer.judge) }
    requires lists { JudgesLists lists.now.layer.depth (G.pre lists.now.judge_list) (G.post lists.now.judge_list) }
    requires ready { Ready checker.old scopes.old lists.now.layer.site }
    ensures { Answers declarations_in any_list (judge_bodies lists.now.layer.site.place list.now made) scopes.old checker.old scopes.new checker.new result }
{
    let alloc = checker.types.terms().allocator();
    let mut all = Items::new(alloc);
    let mut rest = made.into_vec().into_iter();
    for i in 0..list.len() {
        let of = &list[i];
        let one = judge_declaration(lists, checker, scopes, of, &mut rest)?;
        let declaration = one.placed(alloc, of.public)?;
        all.push(declaration)?;
    }
    Ok(all)
}
