//! Public fields (Motoko language manual, sections "Objects" and "Class declaration").
ghost use Rattle.std.specs.Prelude.{map};
ghost use Rattle.typing_rules.specs.declared.condition.Condition.TheVariants as condition;
ghost use Rattle.typing_rules.specs.Judgements.{Fine, Given, Tests};
ghost use Rattle.typing_rules.specs.Patterns.{is_empty};
ghost use Rattle.typing_rules.specs.PublicFields.{PublicField, PublicFields};
ghost use Rattle.abstract_types.specs.PatternView.{plain_signature};
ghost use Rattle.abstract_types.specs.TypeView.{annotation};
ghost use Rattle.abstract_tree.specs.TreeView.{declarations, plain_declaration, plain_declaration_form};
ghost use Rattle.annotated_names.specs.Verdicts.{IsVerdict};
ghost use Rattle.public_fields.specs.Fields.{field_if};

use abstract_tree::{Declaration, DeclarationForm};
use abstract_types::{Signature, TypeNode};
use annotated_names::each_annotated;
use type_judgements::Refusal;
use typing_rules::Condition;

/// The condition at the place, that a public function or class has no type parameters.
fn no_generics(place: u32, signature: &Signature<u32>) -> Result<(), Refusal>
    ensures { IsVerdict (Tests condition.TypeArguments place (is_empty (plain_signature signature.now).generics) Fine) result }
{
    if signature.generics.is_empty() {
        Ok(())
    } else {
        Err(Refusal::False(place, Condition::TypeArguments))
    }
}

/// The condition at the place, that a type is written.
fn has_type(place: u32, written: &Option<TypeNode>) -> Result<(), Refusal>
    ensures { IsVerdict (Given condition.NeedsType place (annotation written.now) (λ _. Fine)) result }
{
    match written {
        Some(_) => Ok(()),
        None => Err(Refusal::False(place, Condition::NeedsType)),
    }
}

/// Whether a declaration that is public may be.
fn public_field(form: &DeclarationForm<u32>) -> Result<(), Refusal>
    ensures { IsVerdict (PublicField (plain_declaration_form form.now)) result }
{
    match form {
        DeclarationForm::Let(pattern, _) => each_annotated(pattern),
        DeclarationForm::Var(_, name, written, _) => has_type(name.at, written),
        DeclarationForm::Func(name, signature, _) => no_generics(name.at, signature),
        DeclarationForm::Class(name, signature, _) => no_generics(name.at, signature),
        DeclarationForm::NamedObject(name, _) => Err(Refusal::False(name.at, Condition::NeedsType)),
        DeclarationForm::Method(_, _, _, _, _) => Ok(()),
        DeclarationForm::System(_, _) => Ok(()),
        DeclarationForm::TypeAlias(_, _, _) => Ok(()),
        DeclarationForm::Evaluate(_) => Ok(()),
    }
}

/// The same of any declaration.
fn field(one: &Declaration<u32>) -> Result<(), Refusal>
    ensures { IsVerdict (field_if one.now.public (plain_declaration_form one.now.form)) result }
{
    if one.public {
        public_field(one.form.get())
    } else {
        Ok(())
    }
}

/// Whether the public fields of a list are functions and classes without type parameters, or `let` and `var` with an annotated type:
/// Motoko language manual, sections "Objects" and "Class declaration". `False` names the first condition that is false, and its
/// place. It recurses as deep as the patterns of its fields.
pub fn public_fields(list: &[Declaration<u32>]) -> Result<(), Refusal>
    ensures { IsVerdict (PublicFields (declarations (map plain_declaration list.now))) result }
{
    for one in list {
        field(one)?;
    }
    Ok(())
}
