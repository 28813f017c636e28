//! The fields of an object as it is written, and those of the type that is wanted of it.
ghost use Rattle.std.specs.Prelude.{◌≡◌, map};
ghost use Rattle.std.specs.Option.{option_copied};
ghost use Rattle.std.specs.Str.{bytes_eq};
ghost use Rattle.mo_types.specs.Sub.{find};
ghost use Rattle.mo_subtype.specs.Renamed.{on_field};
ghost use Rattle.type_terms.specs.declared.form.TermId.{TermId as Id};
ghost use Rattle.typing_rules.specs.Expressions.{all_there, has_field};
ghost use Rattle.typing_rules.specs.Terms.{Term};
ghost use Rattle.abstract_tree.specs.TreeView.{fields as listed, plain_field};

use abstract_tree::ObjectField;
use mo_types::Field;
use type_terms::TermId;

/// The first field of this label.
pub fn field_named<'a>(fields: &'a [Field<TermId>], label: &[u8]) -> Option<&'a Field<TermId>>
    ensures { option_copied result ≡ find label.now fields.now }
{
    for field in fields {
        if field.label.as_slice() == label {
            return Some(field);
        }
    }
    None
}

fn is_label(bytes: &[u8], label: &[u8]) -> bool
    ensures { result ≡ bytes_eq bytes.now label.now }
{
    bytes == label
}

/// Whether a field of this label is written.
fn has_field(written: &[ObjectField<u32>], label: &[u8]) -> bool
    ensures { result ≡ has_field label.now (listed (map plain_field written.now)) }
{
    for field in written {
        if is_label(field.name.bytes.as_slice(), label) {
            return true;
        }
    }
    false
}

/// Whether all fields are written that are wanted.
pub fn are_there(written: &[ObjectField<u32>], wanted: &[Field<TermId>]) -> bool
    ensures { (at : Id → Term) → result ≡ all_there (listed (map plain_field written.now)) (map (on_field at) wanted.now) }
{
    for field in wanted {
        if !has_field(written, field.label.as_slice()) {
            return false;
        }
    }
    true
}
