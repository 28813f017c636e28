//! How lists of parts are judged.
ghost use Rattle.std.specs.Prelude.{◌≡◌, OnOk, Some, map, slice_get};
ghost use Rattle.mo_types.specs.Sub.{Each};
ghost use Rattle.typing_rules.specs.Expressions.{JudgeEach};
ghost use Rattle.type_definitions.specs.Meanings.{term};
ghost use Rattle.type_definitions.specs.Tables.{Within};
ghost use Rattle.abstract_tree.specs.TreeView.{listed, plain};
ghost use Rattle.judging.specs.Answers.{Answers, Judges};
ghost use Rattle.judging.specs.Parts.{Ready};
ghost use Rattle.judging.specs.Views.{context, definitions, each_in, each_reached};

use crate::checker::Checker;
use crate::layer::{Judged, Layer, Part};
use abstract_tree::Expression;
use mo_syntax::Items;
use type_judgements::Refusal;
use type_terms::TermId;
use value_scopes::{Note, Scopes};

fn wanted_at(wanted: &[TermId], i: usize) -> Option<TermId>
    ensures { result ≡ slice_get wanted.now i }
{
    wanted.get(i).copied()
}

impl<F: Fn(&mut Checker, &mut Scopes, Part<'_>) -> Judged> Layer<F> {
    /// Parts in turn, of which these types are wanted, as far as there are such.
    pub fn each(
        &self,
        checker: &mut Checker,
        scopes: &mut Scopes,
        parts: &[Expression<u32>],
        wanted: &[TermId],
    ) -> Result<Items<Expression<Note>>, Refusal>
        requires judges { Judges self.now.depth (F.pre self.now.judge) (F.post self.now.judge) }
        requires ready { Ready checker.old scopes.old self.now.site }
        requires wanted { Each (Within checker.old.types.forms) wanted.now }
        ensures answer { Answers each_in each_reached (λ v. JudgeEach (definitions v) (context v self.now.site.place) (listed (map plain parts.now)) (map (λ id. Some (term v.later id)) wanted.now)) scopes.old checker.old scopes.new checker.new result }
        ensures ready { OnOk result (Ready checker.new scopes.new self.now.site) }
    {
        let mut made = Items::new(checker.types.terms().allocator());
        for i in 0..parts.len() {
            let part = self.part(checker, scopes, &parts[i], wanted_at(wanted, i))?;
            made.push(part)?;
        }
        Ok(made)
    }
}
