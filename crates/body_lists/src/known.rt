//! What is known while bodies are emitted.
use crate::groups::GroupSizes;
use core_ir::Shared;
use mo_types::TypeGraph;
use operation_lists::ModuleLinks;

/// What bodies know of their module: the types of the program, its texts and routines, the sizes of its groups, how many of the first
/// names of the actor have no words, and the number of the type of functions without parameters, behind which the others stand.
pub struct Known {
    pub types: Shared<TypeGraph>,
    pub links: ModuleLinks,
    pub groups: GroupSizes,
    pub hidden: u32,
    pub first_arity: u32,
}

impl Drop for Known {
    fn drop(self) {
        let Known {
            types: _types,
            links: _links,
            groups: _groups,
            hidden: _hidden,
            first_arity: _first_arity,
        } = self;
    }
}

/// A body: so many slots, in a group of so many functions, and places for so many operands.
#[derive(Clone, Copy)]
pub struct Here {
    pub slots: u32,
    pub members: u32,
    pub most: u32,
}
