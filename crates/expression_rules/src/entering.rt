//! An expression, by the judging of its parts.
ghost use Rattle.std.specs.Prelude.{◌≡◌, IfErr, IfSome, OnOk, option_map};
ghost use Rattle.type_definitions.specs.Meanings.{term};
ghost use Rattle.type_definitions.specs.Tables.{Within};
ghost use Rattle.met_types.specs.States.{Goes, IsReached, Kept};
ghost use Rattle.type_judgements.specs.Judged.{Judged as Comes};
ghost use Rattle.type_judgements.specs.LeftBehind.{LeavesOn};
ghost use Rattle.abstract_tree.specs.TreeView.{plain};
ghost use Rattle.judging.specs.Answers.{Answers, Judges};
ghost use Rattle.judging.specs.Parts.{Entering};
ghost use Rattle.judging.specs.Views.{judge as judgement, kind_reached, nothing, typed_in};
ghost use Rattle.list_judging.specs.Judging.{JudgesLists};
ghost use Rattle.expression_rules.specs.Entered.{site_of, wanted_met};

use crate::forms::by_form;
use judging::{Checker, Judged, Layer, Part, Site};
use list_judging::{JudgedList, ListPart, Lists};
use met_types::Types;
use type_judgements::{Refusal, meets};
use type_terms::TermId;
use value_scopes::{Around, Scopes};

/// The type that is wanted is met, where there is one.
fn meets_wanted(types: &mut Types, wanted: Option<TermId>) -> Result<(), Refusal>
    requires kept { Kept types.old }
    requires within { IfSome wanted (Within types.old.forms) }
    ensures kept { OnOk result (Kept types.new) }
    ensures goes { OnOk result (Goes types.old types.new) }
    ensures left { IfErr result (LeavesOn types.old types.new) }
    ensures reached { OnOk result (IfSome wanted (IsReached types.new)) }
    ensures judged { Comes (λ later. wanted_met (option_map (term later) wanted)) types.old types.new nothing result }
{
    match wanted {
        Some(kind) => meets(types, kind),
        None => Ok(()),
    }
}

/// Where the rule of the expression is applied.
fn site_of(part: &Part<'_>) -> Site
    ensures { result ≡ site_of part.now.place part.now.expression.now.note part.now.wanted }
{
    Site {
        at: part.expression.note,
        place: part.place.directly(Around::Other),
        around: part.place.around,
        wanted: part.wanted,
    }
}

/// An expression, by the judging of its parts and of its lists of declarations, which have at most so many levels. The type that is wanted
/// of it is met first: Motoko language manual, section "Expressions".
pub fn judged_by<
    F: Fn(&mut Checker, &mut Scopes, Part<'_>) -> Judged,
    G: Fn(&mut Checker, &mut Scopes, ListPart<'_>) -> JudgedList,
>(
    checker: &mut Checker,
    scopes: &mut Scopes,
    part: Part<'_>,
    depth: usize,
    judge: F,
    judge_list: G,
) -> Judged
    requires judges { Judges depth (F.pre judge) (F.post judge) }
    requires lists { JudgesLists depth (G.pre judge_list) (G.post judge_list) }
    requires entering { Entering checker.old scopes.old part.place part.wanted }
    ensures { Answers typed_in kind_reached (judgement part.entry.place (plain part.entry.expression.now) part.entry.wanted) scopes.old checker.old scopes.new checker.new result }
{
    meets_wanted(&mut checker.types, part.wanted)?;
    let site = site_of(&part);
    let layer = Layer { depth, site, judge };
    let lists = Lists { layer, judge_list };
    by_form(&lists, checker, scopes, part.expression.form.get())
}
