//! The recursion over expressions and lists of declarations.
ghost use Rattle.abstract_tree.specs.TreeView.{plain};
ghost use Rattle.judging.specs.Answers.{Answers};
ghost use Rattle.judging.specs.Parts.{Entering, Ready};
ghost use Rattle.judging.specs.Views.{judge, kind_reached, typed_in};
ghost use Rattle.list_judging.specs.Lists.{judge_list as listed, list_in, list_reached};

use abstract_tree::Declaration;
use expression_rules::judged_by;
use judging::{Checker, Judged, Part, Site};
use list_judging::{JudgedList, ListPart};
use list_rules::listed_by;
use type_judgements::Refusal;
use value_scopes::Scopes;

// An expression of at most so many levels. One of more levels than there are addresses is none that memory holds.
#[cycle(tree_judging)]
fn expression_within(checker: &mut Checker, scopes: &mut Scopes, part: Part<'_>) -> Judged
    requires { Entering checker.old scopes.old part.place part.wanted }
    ensures { Answers typed_in kind_reached (judge part.entry.place (plain part.entry.expression.now) part.entry.wanted) scopes.old checker.old scopes.new checker.new result }
{
    if part.depth == 0 {
        return Err(Refusal::Memory);
    }
    judged_by(
        checker,
        scopes,
        part,
        part.depth - 1,
        expression_within,
        list_within,
    )
}

// The same of a list of declarations.
#[cycle(tree_judging)]
fn list_within(checker: &mut Checker, scopes: &mut Scopes, part: ListPart<'_>) -> JudgedList
    requires { Ready checker.old scopes.old part.site }
    ensures { Answers list_in list_reached (listed part.entry.site part.entry.value part.entry.declarations.now) scopes.old checker.old scopes.new checker.new result }
{
    if part.depth == 0 {
        return Err(Refusal::Memory);
    }
    listed_by(
        checker,
        scopes,
        part,
        part.depth - 1,
        expression_within,
        list_within,
    )
}

/// A list of declarations that stands there, which has the value of its last expression or has none: Motoko language manual, sections
/// "Declarations" and "Blocks". The recursion is as deep as the list.
pub fn judge_list(
    checker: &mut Checker,
    scopes: &mut Scopes,
    site: Site,
    value: bool,
    declarations: &[Declaration<u32>],
) -> JudgedList
    requires { Ready checker.old scopes.old site }
    ensures { Answers list_in list_reached (listed site value declarations.now) scopes.old checker.old scopes.new checker.new result }
{
    let part = ListPart {
        depth: usize::MAX,
        site,
        value,
        declarations,
    };
    list_within(checker, scopes, part)
}
