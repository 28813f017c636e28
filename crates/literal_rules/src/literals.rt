//! Literals (Motoko language manual, sections "Literals", "Numeric types" and "Text").
ghost use Rattle.std.specs.Prelude.{◌≡◌, List};
ghost use Rattle.std.specs.Str.{is_utf8};
ghost use Rattle.mo_values.specs.Parts.{is_in_range};
ghost use Rattle.type_terms.specs.declared.form.Form.{Form as FormValue};
ghost use Rattle.typing_rules.specs.declared.condition.Condition.TheVariants as condition;
ghost use Rattle.typing_rules.specs.AbstractSyntax.{Form as RuleForm};
ghost use Rattle.typing_rules.specs.Judgements.{Case, Gives, Tests};
ghost use Rattle.typing_rules.specs.Spans.{literal_of};
ghost use Rattle.typing_rules.specs.Terms as terms;
ghost use Rattle.typing_rules.specs.TypedTrees.{Note as RuleNote, typed};
ghost use Rattle.typing_rules.specs.Ends.{Has, wanted};
ghost use Rattle.typing_rules.specs.Literals as rules;
ghost use Rattle.value_scopes.specs.declared.scopes.Scopes.{Scopes};
ghost use Rattle.judging.specs.Answers.{Answers};
ghost use Rattle.judging.specs.Parts.{Sound, Wanting};
ghost use Rattle.judging.specs.Views.{definitions, form_in, kind_reached, typed_in, wanted_in};

use abstract_tree::ExpressionForm;
use abstract_types::copied_literal;
use judging::{Checker, Judged, Site};
use mo_num::Kind;
use mo_syntax::Literal;
use std::str;
use type_judgements::Refusal;
use type_terms::Form;
use typing_rules::Condition;
use value_scopes::Note;

/// Whether a kind has a number.
fn in_range(kind: Kind, number: i128) -> bool
    ensures { result ≡ is_in_range kind number }
{
    kind.least() <= number && number <= kind.greatest()
}

fn is_text(bytes: &[u8]) -> bool
    ensures { result ≡ is_utf8 bytes.now }
{
    str::from_utf8(bytes).is_ok()
}

/// A number, which gives the type of this kind, and fits each number type that has it.
pub fn number(
    site: &Site,
    checker: &mut Checker,
    kind: Kind,
    number: i128,
    form: ExpressionForm<Note>,
) -> Judged
    requires { Wanting checker.old site.now }
    ensures { (c : Scopes) → Sound checker.old c → (f : List FormValue → RuleForm RuleNote) → ((later : List FormValue) → form_in form later ≡ f later)
        → Answers typed_in kind_reached (λ v. rules.Number (definitions v) site.now.at (wanted_in v site.now.wanted) kind number (f v.later)) c checker.old c checker.new result }
{
    match site.wanted_number(checker) {
        Some((wanted, of)) => {
            if in_range(of, number) {
                site.gives(checker, wanted, form)
            } else {
                Err(Refusal::False(site.at, Condition::LiteralRange))
            }
        }
        None => {
            if in_range(kind, number) {
                site.has_plain(checker, Form::Number(kind), form)
            } else {
                Err(Refusal::False(site.at, Condition::LiteralRange))
            }
        }
    }
}

/// A text, which fits the type of blobs, or else gives that of texts.
fn text(site: &Site, checker: &mut Checker, bytes: &[u8], form: ExpressionForm<Note>) -> Judged
    requires { Wanting checker.old site.now }
    ensures { (c : Scopes) → Sound checker.old c → (f : List FormValue → RuleForm RuleNote) → ((later : List FormValue) → form_in form later ≡ f later)
        → Answers typed_in kind_reached (λ v. Case (wanted (definitions v) rules.blob_of (wanted_in v site.now.wanted)) (λ q. Gives (typed site.now.at q.0 (f v.later))) (λ _. Tests condition.Mismatch site.now.at (is_utf8 bytes.now) (Has site.now.at (wanted_in v site.now.wanted) terms.Text (f v.later)))) c checker.old c checker.new result }
{
    match site.wanted_blob(checker) {
        Some(wanted) => site.gives(checker, wanted, form),
        None => {
            if is_text(bytes) {
                site.has_plain(checker, Form::Text, form)
            } else {
                Err(Refusal::False(site.at, Condition::Mismatch))
            }
        }
    }
}

/// A literal.
pub fn constant(site: &Site, checker: &mut Checker, literal: &Literal) -> Judged
    requires { Wanting checker.old site.now }
    ensures { (c : Scopes) → Sound checker.old c → Answers typed_in kind_reached (λ v. rules.Constant (definitions v) site.now.at (wanted_in v site.now.wanted) (literal_of literal.now)) c checker.old c checker.new result }
{
    let form = ExpressionForm::Constant(copied_literal(
        checker.types.terms().allocator(),
        literal,
    )?);
    match literal {
        Literal::Number(number_of) => number(
            site,
            checker,
            Kind::Nat,
            i128::from(*number_of),
            form,
        ),
        Literal::Character(_) => site.has_plain(checker, Form::Character, form),
        Literal::Text(of) => text(site, checker, of.bytes.as_slice(), form),
        Literal::True => site.has_boolean(checker, form),
        Literal::False => site.has_boolean(checker, form),
        Literal::Null => site.has_plain(checker, Form::Null, form),
    }
}
