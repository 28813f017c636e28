//! Where an expression stands, and how its rule ends.
ghost use Rattle.std.specs.Prelude.{◌≡◌, List, [], length, map, OnOk};
ghost use Rattle.mo_types.specs.Sub.{Each};
ghost use Rattle.type_terms.specs.Layouts.{parts};
ghost use Rattle.type_terms.specs.Tables.{PartsBelow};
ghost use Rattle.type_terms.specs.declared.form.Form.{Form as FormValue};
ghost use Rattle.typing_rules.specs.AbstractSyntax.{Form as RuleForm};
ghost use Rattle.typing_rules.specs.declared.condition.Condition.TheVariants as condition;
ghost use Rattle.typing_rules.specs.Judgements.{Fine, Gives, IsBelow, Meets, Needs};
ghost use Rattle.typing_rules.specs.Terms as terms;
ghost use Rattle.typing_rules.specs.TypedTrees.{Note as RuleNote, typed};
ghost use Rattle.typing_rules.specs.Ends.{Branches, Has, Leaves};
ghost use Rattle.type_definitions.specs.Meanings.{term, term_of};
ghost use Rattle.type_definitions.specs.Tables.{Within};
ghost use Rattle.met_types.specs.States.{Goes, IsReached, Kept};
ghost use Rattle.value_scopes.specs.declared.scopes.Scopes.{Scopes};
ghost use Rattle.judging.specs.Answers.{Answers};
ghost use Rattle.judging.specs.Parts.{Sound, Wanting};
ghost use Rattle.judging.specs.Views.{below_wanted, form_in, kind_reached, nothing, no_more, typed_in, wanted_in};

use crate::asking::greatest;
use crate::checker::{Checker, unit};
use crate::layer::Judged;
use crate::meeting::meets_unit;
use abstract_tree::{Expression, ExpressionForm};
use abstract_types::Boxed;
use type_judgements::{Refusal, meets, needs_below};
use type_terms::{Form, TermId};
use typing_rules::Condition;
use value_scopes::{Around, Note, Place};

/// Where an expression stands, and what is wanted of it.
#[derive(Clone, Copy)]
pub struct Site {
    /// The number of its first token.
    pub at: u32,
    /// What is known at its parts.
    pub place: Place,
    /// What stands directly around it.
    pub around: Around,
    /// The type that is wanted of it.
    pub wanted: Option<TermId>,
}

impl Site {
    /// The condition that a type is below the one that is wanted.
    fn below_wanted(&self, checker: &Checker, kind: TermId) -> Result<(), Refusal>
        requires wanting { Wanting checker.now self.now }
        requires kind { IsReached checker.now.types kind }
        ensures { (c : Scopes) → Sound checker.now c → Answers nothing no_more (below_wanted self.now kind) c checker.now c checker.now result }
    {
        match self.wanted {
            None => Ok(()),
            Some(wanted) => {
                needs_below(
                    checker.types.terms().allocator(),
                    &checker.types,
                    Condition::Mismatch,
                    self.at,
                    kind,
                    wanted,
                )
            }
        }
    }

    /// An expression of this type and form is given.
    #[tactic(auto, unfolding(abstract_tree::specs::TreeView::expression, abstract_tree::specs::TreeView::expression_form, abstract_tree::specs::TreeView::declaration, abstract_tree::specs::TreeView::declaration_form, abstract_tree::specs::TreeView::case, abstract_tree::specs::TreeView::object_field))]
    pub fn gives(&self, checker: &Checker, kind: TermId, form: ExpressionForm<Note>) -> Judged
        requires { IsReached checker.now.types kind }
        ensures { (c : Scopes) → Sound checker.now c → (f : List FormValue → RuleForm RuleNote) → ((later : List FormValue) → form_in form later ≡ f later)
            → Answers typed_in kind_reached (λ v. Gives (typed self.now.at (term v.later kind) (f v.later))) c checker.now c checker.now result }
    {
        let form = Boxed::new(checker.types.terms().allocator(), form)?;
        let note = Note { at: self.at, kind };
        Ok(Expression { note, form })
    }

    /// An expression of this form has this type, which is below the one that is wanted: Motoko language manual, section "Subtyping".
    pub fn has(&self, checker: &mut Checker, kind: TermId, form: ExpressionForm<Note>) -> Judged
        requires wanting { Wanting checker.old self.now }
        requires within { Within checker.old.types.forms kind }
        ensures { (c : Scopes) → Sound checker.old c → (f : List FormValue → RuleForm RuleNote) → ((later : List FormValue) → form_in form later ≡ f later)
            → Answers typed_in kind_reached (λ v. Has self.now.at (wanted_in v self.now.wanted) (term v.later kind) (f v.later)) c checker.old c checker.new result }
    {
        meets(&mut checker.types, kind)?;
        self.below_wanted(checker, kind)?;
        self.gives(checker, kind, form)
    }

    /// The same of the type of a form.
    pub fn has_form(&self, checker: &mut Checker, kind: Form, form: ExpressionForm<Note>) -> Judged
        requires wanting { Wanting checker.old self.now }
        requires below { PartsBelow (length checker.old.types.forms) kind }
        ensures { (c : Scopes) → Sound checker.old c → (f : List FormValue → RuleForm RuleNote) → ((later : List FormValue) → form_in form later ≡ f later)
            → Answers typed_in kind_reached (λ v. Has self.now.at (wanted_in v self.now.wanted) (term_of (term v.later) kind) (f v.later)) c checker.old c checker.new result }
    {
        let kind = checker.types.intern(kind)?;
        self.has(checker, kind, form)
    }

    /// The same of a type that has no parts.
    pub fn has_plain(&self, checker: &mut Checker, kind: Form, form: ExpressionForm<Note>) -> Judged
        requires wanting { Wanting checker.old self.now }
        requires plain { parts kind ≡ [] }
        ensures { (c : Scopes) → Sound checker.old c → (f : List FormValue → RuleForm RuleNote) → ((later : List FormValue) → form_in form later ≡ f later)
            → Answers typed_in kind_reached (λ v. Has self.now.at (wanted_in v self.now.wanted) (term_of (term v.later) kind) (f v.later)) c checker.old c checker.new result }
    {
        self.has_form(checker, kind, form)
    }

    /// The same of ().
    pub fn has_unit(&self, checker: &mut Checker, form: ExpressionForm<Note>) -> Judged
        requires { Wanting checker.old self.now }
        ensures { (c : Scopes) → Sound checker.old c → (f : List FormValue → RuleForm RuleNote) → ((later : List FormValue) → form_in form later ≡ f later)
            → Answers typed_in kind_reached (λ v. Has self.now.at (wanted_in v self.now.wanted) terms.unit (f v.later)) c checker.old c checker.new result }
    {
        let kind = unit(checker);
        self.has_plain(checker, kind, form)
    }

    /// The same of Bool.
    pub fn has_boolean(&self, checker: &mut Checker, form: ExpressionForm<Note>) -> Judged
        requires { Wanting checker.old self.now }
        ensures { (c : Scopes) → Sound checker.old c → (f : List FormValue → RuleForm RuleNote) → ((later : List FormValue) → form_in form later ≡ f later)
            → Answers typed_in kind_reached (λ v. Has self.now.at (wanted_in v self.now.wanted) terms.Boolean (f v.later)) c checker.old c checker.new result }
    {
        self.has_plain(checker, Form::Boolean, form)
    }

    /// The same of None.
    pub fn has_bottom(&self, checker: &mut Checker, form: ExpressionForm<Note>) -> Judged
        requires { Wanting checker.old self.now }
        ensures { (c : Scopes) → Sound checker.old c → (f : List FormValue → RuleForm RuleNote) → ((later : List FormValue) → form_in form later ≡ f later)
            → Answers typed_in kind_reached (λ v. Has self.now.at (wanted_in v self.now.wanted) terms.Bottom (f v.later)) c checker.old c checker.new result }
    {
        self.has_plain(checker, Form::Bottom, form)
    }

    /// Branches of these types: their greatest type is given, or the one that is wanted, which each of them fits.
    pub fn branches(
        &self,
        checker: &mut Checker,
        kinds: &[TermId],
        form: ExpressionForm<Note>,
    ) -> Judged
        requires wanting { Wanting checker.old self.now }
        requires kinds { Each (IsReached checker.old.types) kinds.now }
        ensures { (c : Scopes) → Sound checker.old c → (f : List FormValue → RuleForm RuleNote) → ((later : List FormValue) → form_in form later ≡ f later)
            → Answers typed_in kind_reached (λ v. Branches self.now.at (wanted_in v self.now.wanted) (map (term v.later) kinds.now) (f v.later)) c checker.old c checker.new result }
    {
        match self.wanted {
            Some(wanted) => self.gives(checker, wanted, form),
            None => {
                let kind = greatest(&checker.types, Condition::Branches, self.at, kinds)?;
                self.has(checker, kind, form)
            }
        }
    }

    /// The condition that () is below a type.
    pub fn takes_unit(&self, checker: &mut Checker, kind: TermId) -> Result<(), Refusal>
        requires kept { Kept checker.old.types }
        requires kind { IsReached checker.old.types kind }
        ensures kept { OnOk result (Kept checker.new.types) }
        ensures goes { OnOk result (Goes checker.old.types checker.new.types) }
        ensures answer { (c : Scopes) → Sound checker.old c → Answers nothing no_more (λ v. Meets terms.unit (Needs condition.Mismatch self.now.at (IsBelow terms.unit (term v.later kind)) Fine)) c checker.old c checker.new result }
    {
        let unit = meets_unit(checker)?;
        needs_below(
            checker.types.terms().allocator(),
            &checker.types,
            Condition::Mismatch,
            self.at,
            unit,
            kind,
        )
    }

    /// A jump, whose label or result is of this type and takes ().
    pub fn leaves(&self, checker: &mut Checker, kind: TermId, form: ExpressionForm<Note>) -> Judged
        requires wanting { Wanting checker.old self.now }
        requires kind { IsReached checker.old.types kind }
        ensures { (c : Scopes) → Sound checker.old c → (f : List FormValue → RuleForm RuleNote) → ((later : List FormValue) → form_in form later ≡ f later)
            → Answers typed_in kind_reached (λ v. Leaves self.now.at (wanted_in v self.now.wanted) (term v.later kind) (f v.later)) c checker.old c checker.new result }
    {
        self.takes_unit(checker, kind)?;
        self.has_bottom(checker, form)
    }
}
