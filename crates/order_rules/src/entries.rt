//! What declarations give.
ghost use Rattle.std.specs.Prelude.{◌≡◌, ◌++◌, IfOk, OnOk};
ghost use Rattle.order_rules.specs.Listing.{option_list};

use abstract_tree::{Declaration, DeclarationForm};
use abstract_types::Boxed;
use mo_num::{Memory, Sequence};
use std::alloc::Global;
use type_terms::TermId;
use value_scopes::Note;

/// A declaration with its note.
pub struct MadeDeclaration {
    pub note: Note,
    pub form: DeclarationForm<Note>,
}

// Written here, so that it is proved here, and not again where a declaration is let go.
impl Drop for MadeDeclaration {
    fn drop(self) {
        let MadeDeclaration {
            note: _note,
            form: _form,
        } = self;
    }
}

impl MadeDeclaration {
    /// The declaration as one of a list, public or not.
    pub fn placed(self, alloc: Global, public: bool) -> Result<Declaration<Note>, Memory>
        ensures { IfOk result (λ made. made ≡ record { public = public; note = self.note; form = self.form }) }
    {
        let MadeDeclaration { note, form } = self;
        Ok(Declaration {
            public,
            note,
            form: Boxed::new(alloc, form)?,
        })
    }
}

/// What one declaration of a list gives: its type, where it is an expression, and itself, where it is evaluated in order.
pub(crate) struct Entry {
    pub(crate) value: Option<TermId>,
    pub(crate) made: Option<MadeDeclaration>,
}

/// What a list gives that is judged in order: its type, and the declarations that are evaluated.
pub struct MadeRun {
    pub kind: TermId,
    pub made: Sequence<MadeDeclaration>,
}

/// Adds a declaration, where there is one.
pub(crate) fn push_made(
    made: &mut Sequence<MadeDeclaration>,
    one: Option<MadeDeclaration>,
) -> Result<(), Memory>
    ensures { OnOk result (made.new ≡ made.old ++ option_list one) }
{
    match one {
        Some(one) => made.push(one),
        None => Ok(()),
    }
}
