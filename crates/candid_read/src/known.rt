//! What is known of the types of a message.
ghost use Rattle.std.specs.Prelude.{◌≡◌, IfOk};
ghost use Rattle.candid_types.specs.Shapes.{IsTableOf};
ghost use Rattle.candid_read.specs.Empty.{AreEmpty};
ghost use Rattle.candid_read.specs.Endless.{AreEndless};
ghost use Rattle.candid_read.specs.Values.{IsKnown};

use crate::empty::mark_empty;
use crate::endless::mark_endless;
use candid_types::Shapes;
use mo_num::Memory;
use mo_types::TypeGraph;
use std::alloc::Global;

/// What reading asks of the types of a graph again and again, found out once.
#[derive(Drop)]
pub struct Known {
    /// The heads of their Candid types.
    pub shapes: Shapes,
    /// Those whose values have no bytes.
    pub empty: Vec<bool>,
    /// The records that contain themselves through records alone.
    pub endless: Vec<bool>,
}

impl Known {
    /// Takes time and memory by the types.
    pub fn new(alloc: Global, types: &TypeGraph) -> Result<Known, Memory>
        ensures { IfOk result (λ known. IsKnown types.now known) }
    {
        let shapes = Shapes::new(alloc, types)?;
        let empty = mark_empty(alloc, &shapes)?;
        let endless = mark_endless(alloc, &shapes)?;
        Ok(Known {
            shapes,
            empty,
            endless,
        })
    }
}
