//! The abstract syntax of programs (Motoko language manual, "Programs", "Imports", "Actors").
use crate::declarations::Declaration;
use mo_num::Bytes;
use mo_syntax::Items;

/// `import x "path"`
pub struct Import {
    pub name: Bytes,
    pub path: Bytes,
}

/// An actor with its name and its fields, and what is imported.
pub struct Program<N> {
    pub imports: Items<Import>,
    pub name: Option<Bytes>,
    pub fields: Items<Declaration<N>>,
}

// Written here, so that they are proved here, and not again in each crate that lets a program go.
impl Drop for Import {
    fn drop(self) {
        let Import {
            name: _name,
            path: _path,
        } = self;
    }
}

impl<N: Drop> Drop for Program<N> {
    fn drop(self) {
        let Program {
            imports: _imports,
            name: _name,
            fields: _fields,
        } = self;
    }
}
