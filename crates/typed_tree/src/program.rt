//! Typed programs.
use crate::expression::{Function, Step};
use crate::pattern::TypedPattern;
use mo_num::{Bytes, Sequence};
use mo_syntax::Items;
use mo_types::{TypeGraph, TypeId};

/// An actor: Motoko language manual, section "Actors". Around its declarations stand the name of the actor itself, then one for
/// each public function, as a shared function, and then one for each stable variable: what was kept of it.
pub struct Program {
    /// The types that stand in the program.
    pub types: TypeGraph,
    /// The nodes of the declarations as they are written, without those of the parameters and bodies of its functions.
    pub nodes: u32,
    /// In the order of evaluation.
    pub declarations: Items<Step>,
    /// The public functions, in source order. With the system functions behind them they are one group behind the
    /// declarations.
    pub methods: Items<Method>,
    /// `system func preupgrade`
    pub before_upgrade: Option<Function>,
    /// `system func postupgrade`
    pub after_upgrade: Option<Function>,
    /// In source order.
    pub stable: Sequence<StableVariable>,
}

// Written here, so that it is proved here, and not again in each crate that lets a program go.
impl Drop for Program {
    fn drop(self) {
        let Program {
            types: _types,
            nodes: _nodes,
            declarations: _declarations,
            methods: _methods,
            before_upgrade: _before_upgrade,
            after_upgrade: _after_upgrade,
            stable: _stable,
        } = self;
    }
}

/// A public function.
#[derive(Drop)]
pub struct Method {
    pub name: Bytes,
    /// The pattern of the call's context, where one is written: Motoko language manual, section "Shared functions".
    pub context: Option<TypedPattern>,
    /// The types of the arguments and of the values of the reply.
    pub parameters: Sequence<TypeId>,
    pub results: Sequence<TypeId>,
    /// Of the sort of the shared function. Its code takes the context before the parameters.
    pub function: Function,
}

/// `stable var x : A = e`: Motoko language manual, section "Stability".
#[derive(Drop)]
pub struct StableVariable {
    pub name: Bytes,
    pub of_type: TypeId,
    /// Its name behind the declarations.
    pub cell: u32,
}
