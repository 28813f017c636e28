//! Lists of declarations as parts of what is judged.
ghost use Rattle.std.specs.Prelude.{OnOk};
ghost use Rattle.judging.specs.declared.site.Site.{Site as SiteValue};
ghost use Rattle.judging.specs.Answers.{Answers};
ghost use Rattle.judging.specs.Parts.{Ready};
ghost use Rattle.list_judging.specs.Judging.{JudgesLists};
ghost use Rattle.list_judging.specs.Lists.{judge_list, list_in, list_reached};

use abstract_tree::Declaration;
use judging::{Checker, Layer, Site};
use mo_syntax::Items;
use type_judgements::Refusal;
use type_terms::TermId;
use value_scopes::{Note, Scopes};

/// A list of declarations that is judged: where it stands, with the type that is wanted of its last expression, and whether it has the
/// value of that expression, as a block has. It has at most so many levels.
#[derive(Clone, Copy)]
pub struct ListPart<'a> {
    pub depth: usize,
    pub site: Site,
    pub value: bool,
    pub declarations: &'a [Declaration<u32>],
}

/// A list with the type that it gives.
pub struct MadeList {
    pub kind: TermId,
    pub declarations: Items<Declaration<Note>>,
}

/// A list with its type, or why it is not typed.
pub type JudgedList = Result<MadeList, Refusal>;

/// What a rule that has lists is given: the judging of its parts, and that of lists. Both are parameters, so that each rule is proved by
/// itself.
#[derive(Clone, Copy)]
pub struct Lists<F, G> {
    pub layer: Layer<F>,
    pub judge_list: G,
}

impl<F, G: Fn(&mut Checker, &mut Scopes, ListPart<'_>) -> JudgedList> Lists<F, G> {
    /// A list that stands there: Motoko language manual, sections "Declarations" and "Blocks".
    pub fn list_at(
        &self,
        checker: &mut Checker,
        scopes: &mut Scopes,
        site: Site,
        value: bool,
        declarations: &[Declaration<u32>],
    ) -> JudgedList
        requires judges { JudgesLists self.now.layer.depth (G.pre self.now.judge_list) (G.post self.now.judge_list) }
        requires ready { Ready checker.old scopes.old site }
        ensures answer { Answers list_in list_reached (judge_list site value declarations.now) scopes.old checker.old scopes.new checker.new result }
        ensures ready { (x : SiteValue) → Ready checker.old scopes.old x → OnOk result (Ready checker.new scopes.new x) }
    {
        let part = ListPart {
            depth: self.layer.depth,
            site,
            value,
            declarations,
        };
        (self.judge_list)(checker, scopes, part)
    }
}
