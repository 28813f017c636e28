//! How the parts of an expression are judged.
ghost use Rattle.std.specs.Prelude.{◌≡◌, [], IfSome, OnOk, Some};
ghost use Rattle.type_terms.specs.Layouts.{parts};
ghost use Rattle.typing_rules.specs.Terms as terms;
ghost use Rattle.type_definitions.specs.Meanings.{term, term_of};
ghost use Rattle.type_definitions.specs.Tables.{Within};
ghost use Rattle.abstract_tree.specs.TreeView.{plain};
ghost use Rattle.judging.specs.Answers.{Answers, Judges};
ghost use Rattle.judging.specs.Parts.{Ready};
ghost use Rattle.judging.specs.Views.{is_labelled, judge, judge_at, kind_reached, loop_in, typed_in};

use crate::checker::{Checker, unit};
use crate::site::Site;
use abstract_tree::Expression;
use type_judgements::Refusal;
use type_terms::{Form, TermId};
use value_scopes::{Around, Note, Place, Scopes};

/// An expression that is judged: where it stands, and the type that is wanted of it. It has at most so many levels.
#[derive(Clone, Copy)]
pub struct Part<'a> {
    pub depth: usize,
    pub place: Place,
    pub expression: &'a Expression<u32>,
    pub wanted: Option<TermId>,
}

/// An expression with its type at each node, or why it is not typed.
pub type Judged = Result<Expression<Note>, Refusal>;

/// What a rule is given: where the expression stands, and the judging of its parts. This is a parameter, so that each rule is proved by itself.
#[derive(Clone, Copy)]
pub struct Layer<F> {
    pub depth: usize,
    pub site: Site,
    pub judge: F,
}

fn is_labelled(around: Around) -> bool
    ensures { result ≡ is_labelled around }
{
    matches!(around, Around::Labelled)
}

impl<F: Fn(&mut Checker, &mut Scopes, Part<'_>) -> Judged> Layer<F> {
    /// A part that stands elsewhere in the same body, of which this type is wanted, or none.
    pub fn part_at(
        &self,
        checker: &mut Checker,
        scopes: &mut Scopes,
        place: Place,
        expression: &Expression<u32>,
        wanted: Option<TermId>,
    ) -> Judged
        requires judges { Judges self.now.depth (F.pre self.now.judge) (F.post self.now.judge) }
        requires ready { Ready checker.old scopes.old self.now.site }
        requires returns { place.returns ≡ self.now.site.place.returns }
        requires wanted { IfSome wanted (Within checker.old.types.forms) }
        ensures answer { Answers typed_in kind_reached (judge place (plain expression.now) wanted) scopes.old checker.old scopes.new checker.new result }
        ensures ready { OnOk result (Ready checker.new scopes.new self.now.site) }
    {
        let part = Part {
            depth: self.depth,
            place,
            expression,
            wanted,
        };
        (self.judge)(checker, scopes, part)
    }

    /// A part, of which this type is wanted, or none.
    pub fn part(
        &self,
        checker: &mut Checker,
        scopes: &mut Scopes,
        expression: &Expression<u32>,
        wanted: Option<TermId>,
    ) -> Judged
        requires judges { Judges self.now.depth (F.pre self.now.judge) (F.post self.now.judge) }
        requires ready { Ready checker.old scopes.old self.now.site }
        requires wanted { IfSome wanted (Within checker.old.types.forms) }
        ensures answer { Answers typed_in kind_reached (judge self.now.site.place (plain expression.now) wanted) scopes.old checker.old scopes.new checker.new result }
        ensures ready { OnOk result (Ready checker.new scopes.new self.now.site) }
    {
        self.part_at(checker, scopes, self.site.place, expression, wanted)
    }

    /// A part, of which the same is wanted as of the whole.
    pub fn as_wanted(
        &self,
        checker: &mut Checker,
        scopes: &mut Scopes,
        expression: &Expression<u32>,
    ) -> Judged
        requires judges { Judges self.now.depth (F.pre self.now.judge) (F.post self.now.judge) }
        requires ready { Ready checker.old scopes.old self.now.site }
        ensures answer { Answers typed_in kind_reached (judge self.now.site.place (plain expression.now) self.now.site.wanted) scopes.old checker.old scopes.new checker.new result }
        ensures ready { OnOk result (Ready checker.new scopes.new self.now.site) }
    {
        self.part(checker, scopes, expression, self.site.wanted)
    }

    /// A part, of which a type without parts is wanted.
    pub fn fits(
        &self,
        checker: &mut Checker,
        scopes: &mut Scopes,
        expression: &Expression<u32>,
        wanted: Form,
    ) -> Judged
        requires judges { Judges self.now.depth (F.pre self.now.judge) (F.post self.now.judge) }
        requires ready { Ready checker.old scopes.old self.now.site }
        requires plain { parts wanted ≡ [] }
        ensures answer { Answers typed_in kind_reached (λ v. judge_at self.now.site.place (plain expression.now) (Some (term_of (term v.later) wanted)) v) scopes.old checker.old scopes.new checker.new result }
        ensures ready { OnOk result (Ready checker.new scopes.new self.now.site) }
    {
        let wanted = checker.types.intern(wanted)?;
        self.part(checker, scopes, expression, Some(wanted))
    }

    /// A part of which () is wanted.
    pub fn fits_unit(
        &self,
        checker: &mut Checker,
        scopes: &mut Scopes,
        expression: &Expression<u32>,
    ) -> Judged
        requires judges { Judges self.now.depth (F.pre self.now.judge) (F.post self.now.judge) }
        requires ready { Ready checker.old scopes.old self.now.site }
        ensures answer { Answers typed_in kind_reached (judge_at self.now.site.place (plain expression.now) (Some terms.unit)) scopes.old checker.old scopes.new checker.new result }
        ensures ready { OnOk result (Ready checker.new scopes.new self.now.site) }
    {
        let wanted = unit(checker);
        self.fits(checker, scopes, expression, wanted)
    }

    /// A part of which Bool is wanted.
    pub fn fits_boolean(
        &self,
        checker: &mut Checker,
        scopes: &mut Scopes,
        expression: &Expression<u32>,
    ) -> Judged
        requires judges { Judges self.now.depth (F.pre self.now.judge) (F.post self.now.judge) }
        requires ready { Ready checker.old scopes.old self.now.site }
        ensures answer { Answers typed_in kind_reached (judge_at self.now.site.place (plain expression.now) (Some terms.Boolean)) scopes.old checker.old scopes.new checker.new result }
        ensures ready { OnOk result (Ready checker.new scopes.new self.now.site) }
    {
        self.fits(checker, scopes, expression, Form::Boolean)
    }

    /// A part of which Error is wanted.
    pub fn fits_error(
        &self,
        checker: &mut Checker,
        scopes: &mut Scopes,
        expression: &Expression<u32>,
    ) -> Judged
        requires judges { Judges self.now.depth (F.pre self.now.judge) (F.post self.now.judge) }
        requires ready { Ready checker.old scopes.old self.now.site }
        ensures answer { Answers typed_in kind_reached (judge_at self.now.site.place (plain expression.now) (Some terms.Error)) scopes.old checker.old scopes.new checker.new result }
        ensures ready { OnOk result (Ready checker.new scopes.new self.now.site) }
    {
        self.fits(checker, scopes, expression, Form::Error)
    }

    /// The body of a loop, of which () is wanted. A label directly around the loop may be continued in it.
    pub fn loop_body(
        &self,
        checker: &mut Checker,
        scopes: &mut Scopes,
        body: &Expression<u32>,
    ) -> Judged
        requires judges { Judges self.now.depth (F.pre self.now.judge) (F.post self.now.judge) }
        requires ready { Ready checker.old scopes.old self.now.site }
        ensures answer { Answers typed_in kind_reached (loop_in self.now.site (plain body.now)) scopes.old checker.old scopes.new checker.new result }
        ensures ready { OnOk result (Ready checker.new scopes.new self.now.site) }
    {
        if is_labelled(self.site.around) {
            let was = scopes.labels.set_loop(true);
            let made = self.fits_unit(checker, scopes, body)?;
            scopes.labels.set_loop(was);
            Ok(made)
        } else {
            self.fits_unit(checker, scopes, body)
        }
    }
}
