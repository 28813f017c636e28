//! Tables of terms.
ghost use Rattle.std.specs.Prelude.{◌≡◌, ◌<◌, ◌==◌, [], length, slice_get, Some, IfNone, IfOk, IfSome, OnErr};
ghost use Rattle.mo_types.specs.Heads.{map_option};
ghost use Rattle.type_terms.specs.Tables.{Distinct, Founded, Interns, IsNew, PartsBelow};

use crate::{Form, TermId};
use indexmap::IndexSet;
use mo_num::Memory;
use std::alloc::Global;
use std::marker::Model;

/// Terms by number, which contracts see as the list of their forms. No form stands in it twice, and the parts of each have
/// lesser numbers.
pub struct Terms {
    alloc: Global,
    forms: IndexSet<Form>,
}

// Written here, so that it is proved here, and not again in each crate that lets a table go.
impl Drop for Terms {
    fn drop(self) {
        let Terms {
            alloc: _alloc,
            forms: _forms,
        } = self;
    }
}

impl Model for Terms {
    ghost use Rattle.std.specs.Prelude.{List};
    ghost use Rattle.type_terms.specs.declared.form.Form.{Form};
    ghost use Rattle.type_terms.specs.Tables.{IsTable};

    ghost Value = { List Form };

    ghost view = { λ t. t.forms.keys };

    ghost invariant = { λ t. IsTable t.forms.keys };
}

impl Terms {
    /// A table without terms. Takes no memory.
    pub fn new(alloc: Global) -> Terms
        ensures { result ≡ [] }
    {
        Terms {
            alloc,
            forms: IndexSet::new(alloc),
        }
    }

    /// The allocator of the table.
    pub fn allocator(&self) -> Global {
        self.alloc
    }

    /// How many terms there are. No form is twice in the table, and each is made of terms before it.
    pub fn len(&self) -> usize
        ensures number { result ≡ length self.now }
        ensures distinct { Distinct self.now }
        ensures founded { Founded self.now }
    {
        self.forms.len()
    }

    /// Whether there are none.
    pub fn is_empty(&self) -> bool
        ensures { result ≡ (length self.now == 0) }
    {
        self.forms.len() == 0
    }

    /// The form of the term of this number, where there is one.
    pub fn get_index(&self, index: usize) -> Option<&Form>
        ensures there { map_option (λ f. f.now) result ≡ slice_get self.now index }
        ensures founded { Founded self.now }
    {
        self.forms.get_index(index)
    }

    /// The form of a term of the table.
    pub fn form(&self, id: TermId) -> &Form
        requires { id.index < length self.now }
        ensures there { slice_get self.now id.index ≡ Some result.now }
        ensures below { PartsBelow id.index result.now }
    {
        match self.get_index(id.index as usize) {
            Some(form) => form,
            None => unreachable!(),
        }
    }

    /// The term of a form, where it is one of the table.
    pub fn find(&self, form: &Form) -> Option<TermId>
        ensures there { IfSome result (λ id. slice_get self.now id.index ≡ Some form.now) }
        ensures missing { IfNone result (IsNew self.now form.now) }
    {
        match self.forms.get_index_of(form) {
            Some(index) => Some(TermId {
                index: index as u32,
            }),
            None => None,
        }
    }

    /// The term of a form, whose parts are terms of the table: the one that is there, or else a new one.
    pub fn intern(&mut self, form: Form) -> Result<TermId, Memory>
        requires { PartsBelow (length self.old) form }
        ensures ok { IfOk result (λ id. Interns self.old form id self.new) }
        ensures err { OnErr result (self.new ≡ self.old) }
    {
        if self.forms.len() >= u32::MAX as usize {
            return Err(Memory);
        }
        let (index, _) = self.forms.insert_full(form)?;
        Ok(TermId {
            index: index as u32,
        })
    }
}
