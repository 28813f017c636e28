//! Lists of declarations (Motoko language manual, sections "Declarations" and "Blocks").
ghost use Rattle.judging.specs.Answers.{Answers, Judges};
ghost use Rattle.judging.specs.Parts.{Ready};
ghost use Rattle.list_judging.specs.Judging.{JudgesLists};
ghost use Rattle.list_judging.specs.Lists.{judge_list as listed, list_in, list_reached};
ghost use Rattle.order_rules.specs.Entries.{Enters};
ghost use Rattle.list_rules.specs.Lists.{list_bound, listed_in, ordered_in};

use crate::bodies::judge_bodies;
use abstract_tree::Declaration;
use declared_names::push_list;
use judging::{Checker, Judged, Layer, Part};
use list_judging::{JudgedList, ListPart, Lists, MadeList};
use order_rules::{MadeRun, judge_order};
use scope_judging::unbind;
use signature_judging::{definitions_of, signatures};
use type_judgements::Refusal;
use value_scopes::Scopes;

/// What is evaluated in order, and then the bodies. The names of what is evaluated are bound in front of the others.
fn order_and_bodies<
    F: Fn(&mut Checker, &mut Scopes, Part<'_>) -> Judged,
    G: Fn(&mut Checker, &mut Scopes, ListPart<'_>) -> JudgedList,
>(
    lists: &Lists<F, G>,
    checker: &mut Checker,
    scopes: &mut Scopes,
    value: bool,
    list: &[Declaration<u32>],
) -> JudgedList
    requires judges { Judges lists.now.layer.depth (F.pre lists.now.layer.judge) (F.post lists.now.layer.judge) }
    requires lists { JudgesLists lists.now.layer.depth (G.pre lists.now.judge_list) (G.post lists.now.judge_list) }
    requires ready { Ready checker.old scopes.old lists.now.layer.site }
    ensures { Enters list_bound list_reached (ordered_in lists.now.layer.site value list.now) scopes.old checker.old scopes.new checker.new result }
{
    let run = judge_order(lists, checker, scopes, value, list)?;
    let MadeRun { kind, made } = run;
    let declarations = judge_bodies(lists, checker, scopes, list, made)?;
    Ok(MadeList { kind, declarations })
}

/// A list, where the types that it defines are in scope. The names that it binds are taken away again.
fn list_within<
    F: Fn(&mut Checker, &mut Scopes, Part<'_>) -> Judged,
    G: Fn(&mut Checker, &mut Scopes, ListPart<'_>) -> JudgedList,
>(
    lists: &Lists<F, G>,
    checker: &mut Checker,
    scopes: &mut Scopes,
    value: bool,
    list: &[Declaration<u32>],
) -> JudgedList
    requires judges { Judges lists.now.layer.depth (F.pre lists.now.layer.judge) (F.post lists.now.layer.judge) }
    requires lists { JudgesLists lists.now.layer.depth (G.pre lists.now.judge_list) (G.post lists.now.judge_list) }
    requires ready { Ready checker.old scopes.old lists.now.layer.site }
    ensures { Answers list_in list_reached (listed_in lists.now.layer.site value list.now) scopes.old checker.old scopes.new checker.new result }
{
    let count = scopes.values.len();
    definitions_of(checker, scopes, list)?;
    signatures(checker, scopes, list)?;
    let made = order_and_bodies(lists, checker, scopes, value, list)?;
    unbind(scopes, count);
    Ok(made)
}

/// A list with the types that it defines, whose names are taken away again.
fn whole_list<
    F: Fn(&mut Checker, &mut Scopes, Part<'_>) -> Judged,
    G: Fn(&mut Checker, &mut Scopes, ListPart<'_>) -> JudgedList,
>(
    lists: &Lists<F, G>,
    checker: &mut Checker,
    scopes: &mut Scopes,
    value: bool,
    list: &[Declaration<u32>],
) -> JudgedList
    requires judges { Judges lists.now.layer.depth (F.pre lists.now.layer.judge) (F.post lists.now.layer.judge) }
    requires lists { JudgesLists lists.now.layer.depth (G.pre lists.now.judge_list) (G.post lists.now.judge_list) }
    requires ready { Ready checker.old scopes.old lists.now.layer.site }
    ensures { Answers list_in list_reached (listed lists.now.layer.site value list.now) scopes.old checker.old scopes.new checker.new result }
{
    let count = scopes.types.len();
    push_list(&mut scopes.types, list)?;
    let made = list_within(lists, checker, scopes, value, list)?;
    scopes.types.truncate(count);
    Ok(made)
}

/// A list of declarations, by the judging of its parts and of the lists in it, which have at most so many levels. It has the value of its
/// last expression or has none: Motoko language manual, sections "Declarations" and "Blocks". `False` names the first condition that is
/// false, and its place. The names in scope are as they were, where the list is given.
pub fn listed_by<
    F: Fn(&mut Checker, &mut Scopes, Part<'_>) -> Judged,
    G: Fn(&mut Checker, &mut Scopes, ListPart<'_>) -> JudgedList,
>(
    checker: &mut Checker,
    scopes: &mut Scopes,
    part: ListPart<'_>,
    depth: usize,
    judge: F,
    judge_list: G,
) -> JudgedList
    requires judges { Judges depth (F.pre judge) (F.post judge) }
    requires lists { JudgesLists depth (G.pre judge_list) (G.post judge_list) }
    requires ready { Ready checker.old scopes.old part.site }
    ensures { Answers list_in list_reached (listed part.entry.site part.entry.value part.entry.declarations.now) scopes.old checker.old scopes.new checker.new result }
{
    let site = part.site;
    let layer = Layer { depth, site, judge };
    let lists = Lists { layer, judge_list };
    whole_list(&lists, checker, scopes, part.value, part.declarations)
}
