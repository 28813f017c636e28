//! The names in scope.
use crate::bound::ValueScope;
use crate::stack::NameStack;
use mo_num::Bytes;
use type_scopes::TypeScope;
use type_terms::TermId;

/// A label: the type of what leaves it, and whether a loop stands directly under it.
#[derive(Clone, Copy, Drop)]
pub struct Label {
    pub kind: TermId,
    pub is_loop: bool,
}

/// The names in scope: of values, of imports with their paths, of types and of labels.
pub struct Scopes {
    pub values: ValueScope,
    pub imports: NameStack<Bytes>,
    pub types: TypeScope,
    pub labels: NameStack<Label>,
}

// Written here, so that it is proved here, and not again in each crate that lets names go.
impl Drop for Scopes {
    fn drop(self) {
        let Scopes {
            values: _values,
            imports: _imports,
            types: _types,
            labels: _labels,
        } = self;
    }
}
