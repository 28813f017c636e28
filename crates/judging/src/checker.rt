//! What is known of the types of a program while it is judged.
ghost use Rattle.std.specs.Prelude.{◌≡◌, []};
ghost use Rattle.type_terms.specs.declared.form.Form.TheVariants as form;

use met_types::Types;
use mo_num::Sequence;
use shareable_types::Sharing;
use type_terms::Form;

/// What is known of the types of a program while it is judged: those that are met, and which of them may be sent and compared.
pub struct Checker {
    pub types: Types,
    pub messages: Sharing,
    pub equality: Sharing,
}

// Written here, so that it is proved here, and not again in each crate that lets one go.
impl Drop for Checker {
    fn drop(self) {
        let Checker {
            types: _types,
            messages: _messages,
            equality: _equality,
        } = self;
    }
}

/// The form of the type `()`. Takes no memory.
pub(crate) fn unit(checker: &Checker) -> Form
    ensures { result ≡ form.Tuple [] }
{
    Form::Tuple(Sequence::new(checker.types.terms().allocator()))
}
