//! Blocks, and objects as expressions (Motoko language manual, sections "Blocks" and "Objects").
ghost use Rattle.typing_rules.specs.AbstractSyntax as syntax;
ghost use Rattle.judging.specs.Answers.{Answers};
ghost use Rattle.judging.specs.Parts.{Ready};
ghost use Rattle.judging.specs.Views.{kind_reached, rule, typed_in};
ghost use Rattle.list_judging.specs.Judging.{JudgesLists};
ghost use Rattle.list_judging.specs.Lists.{seen_list};

use crate::objects::judge_object;
use abstract_tree::{Declaration, ExpressionForm};
use judging::{Checker, Judged};
use list_judging::{JudgedList, ListPart, Lists, MadeList};
use value_scopes::Scopes;

/// `{ d; a }`: Motoko language manual, section "Blocks". It gives the type of its last expression.
pub fn block<F, G: Fn(&mut Checker, &mut Scopes, ListPart<'_>) -> JudgedList>(
    lists: &Lists<F, G>,
    checker: &mut Checker,
    scopes: &mut Scopes,
    list: &[Declaration<u32>],
) -> Judged
    requires judges { JudgesLists lists.now.layer.depth (G.pre lists.now.judge_list) (G.post lists.now.judge_list) }
    requires ready { Ready checker.old scopes.old lists.now.layer.site }
    ensures { Answers typed_in kind_reached (rule lists.now.layer.site (syntax.Block (seen_list list.now))) scopes.old checker.old scopes.new checker.new result }
{
    let site = lists.layer.site;
    let made = lists.list_at(checker, scopes, site, true, list)?;
    let MadeList { kind, declarations } = made;
    site.gives(checker, kind, ExpressionForm::Block(declarations))
}

/// `object { .. }`: Motoko language manual, section "Objects". It gives the type of an object of its public fields.
pub fn object_block<F, G: Fn(&mut Checker, &mut Scopes, ListPart<'_>) -> JudgedList>(
    lists: &Lists<F, G>,
    checker: &mut Checker,
    scopes: &mut Scopes,
    list: &[Declaration<u32>],
) -> Judged
    requires judges { JudgesLists lists.now.layer.depth (G.pre lists.now.judge_list) (G.post lists.now.judge_list) }
    requires ready { Ready checker.old scopes.old lists.now.layer.site }
    ensures { Answers typed_in kind_reached (rule lists.now.layer.site (syntax.ObjectBlock (seen_list list.now))) scopes.old checker.old scopes.new checker.new result }
{
    let site = lists.layer.site;
    let made = judge_object(lists, checker, scopes, site.at, list)?;
    let MadeList { kind, declarations } = made;
    site.has(checker, kind, ExpressionForm::ObjectBlock(declarations))
}
