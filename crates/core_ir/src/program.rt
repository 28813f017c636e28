//! Programs of the core languages.
use crate::code::CodeBody;
use crate::expression::CoreBody;
use crate::shared::Shared;
use mo_num::{Bytes, Sequence};
use mo_types::{TypeGraph, TypeId};

/// The types of the arguments and results of a shared function.
#[derive(Drop)]
pub struct Signature {
    pub parameters: Sequence<TypeId>,
    pub results: Sequence<TypeId>,
}

/// Functions that are made together and know each other.
#[derive(Drop)]
pub struct Group<Body> {
    /// How many values they see of where they are made.
    pub sees: u32,
    pub bodies: Sequence<Body>,
}

/// A method of the actor. Its body takes the context of the call, and then the arguments.
#[derive(Drop)]
pub struct Method<Body> {
    pub name: Shared<Bytes>,
    pub query: bool,
    pub signature: Shared<Signature>,
    pub body: Body,
}

/// `stable var x : A`
#[derive(Drop)]
pub struct StableVariable {
    pub name: Bytes,
    pub of_type: TypeId,
}

/// An actor.
pub struct Program<Body> {
    pub types: Shared<TypeGraph>,
    /// The functions of a group make groups before it alone.
    pub groups: Sequence<Group<Body>>,
    /// With `__resume` among them.
    pub methods: Sequence<Method<Body>>,
    pub stable: Shared<Sequence<StableVariable>>,
    /// The hook before an upgrade, and then the values of the stable variables as a tuple.
    pub save: Body,
    /// It takes what was kept of each stable variable, as an option, and then whether this is an upgrade. It gives the values
    /// of the actor's own names as a tuple.
    pub start: Body,
}

// Written here, so that it is proved here, and not again in each crate that lets a program go.
impl<Body: Drop> Drop for Program<Body> {
    fn drop(self) {
        let Program {
            types: _types,
            groups: _groups,
            methods: _methods,
            stable: _stable,
            save: _save,
            start: _start,
        } = self;
    }
}

/// A program of nested expressions.
pub struct Core {
    pub program: Program<CoreBody>,
}

impl Drop for Core {
    fn drop(self) {
        let Core { program: _program } = self;
    }
}

/// A program of structured code, whose groups see all names that are in scope where they are made.
pub struct SplitCore {
    pub program: Program<CodeBody>,
}

impl Drop for SplitCore {
    fn drop(self) {
        let SplitCore { program: _program } = self;
    }
}

/// A program of structured code, whose groups see what their functions use.
pub struct Flat {
    pub program: Program<CodeBody>,
}

impl Drop for Flat {
    fn drop(self) {
        let Flat { program: _program } = self;
    }
}
