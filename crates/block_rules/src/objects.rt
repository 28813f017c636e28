//! Objects with declarations (Motoko language manual, section "Objects").
ghost use Rattle.std.specs.Prelude.{◌≡◌, None, OnOk};
ghost use Rattle.judging.specs.declared.site.Site.{Site as SiteValue};
ghost use Rattle.judging.specs.Answers.{Answers};
ghost use Rattle.judging.specs.Parts.{Ready, Sound};
ghost use Rattle.judging.specs.Views.{term_in};
ghost use Rattle.scope_judging.specs.Rules.{kind_within};
ghost use Rattle.list_judging.specs.Judging.{JudgesLists};
ghost use Rattle.list_judging.specs.Lists.{list_in};
ghost use Rattle.block_rules.specs.Objects.{judge_object, object_kind, object_within};

use abstract_tree::Declaration;
use declared_names::push_list;
use judging::{Checker, Site};
use list_judging::{JudgedList, ListPart, Lists, MadeList};
use object_types::object_type;
use public_fields::public_fields;
use type_judgements::Refusal;
use type_terms::TermId;
use value_scopes::Scopes;

/// The type of an object with these fields, which need not be met yet.
fn object_kind(
    checker: &mut Checker,
    scopes: &mut Scopes,
    list: &[Declaration<u32>],
) -> Result<TermId, Refusal>
    requires { Sound checker.old scopes.old }
    ensures { Answers term_in kind_within (object_kind list.now) scopes.old checker.old scopes.new checker.new result }
{
    let count = scopes.types.len();
    push_list(&mut scopes.types, list)?;
    let kind = object_type(&mut scopes.types, &mut checker.types, list)?;
    scopes.types.truncate(count);
    Ok(kind)
}

/// The site of the fields of an object, of whose last expression nothing is wanted.
fn fields_site(site: &Site, at: u32) -> Site
    ensures { result ≡ record site.now { at = at; wanted = None } }
{
    Site {
        at,
        wanted: None,
        ..*site
    }
}

/// The fields of an object at the token of this number, with the type of the object, which is not met yet: Motoko language manual,
/// section "Objects". `False` names the first condition that is false.
pub fn judge_object<F, G: Fn(&mut Checker, &mut Scopes, ListPart<'_>) -> JudgedList>(
    lists: &Lists<F, G>,
    checker: &mut Checker,
    scopes: &mut Scopes,
    at: u32,
    list: &[Declaration<u32>],
) -> JudgedList
    requires judges { JudgesLists lists.now.layer.depth (G.pre lists.now.judge_list) (G.post lists.now.judge_list) }
    requires ready { Ready checker.old scopes.old lists.now.layer.site }
    ensures answer { Answers list_in object_within (judge_object lists.now.layer.site.place at list.now) scopes.old checker.old scopes.new checker.new result }
    ensures ready { (x : SiteValue) → Ready checker.old scopes.old x → OnOk result (Ready checker.new scopes.new x) }
{
    public_fields(list)?;
    let site = fields_site(&lists.layer.site, at);
    let made = lists.list_at(checker, scopes, site, false, list)?;
    let MadeList {
        kind: _kind,
        declarations,
    } = made;
    let kind = object_kind(checker, scopes, list)?;
    Ok(MadeList { kind, declarations })
}
