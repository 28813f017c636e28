//! What blocks and the fields of objects are written out to.
ghost use Rattle.block_forms.specs.Blocks.{ListsAreBlocks};
ghost use Rattle.block_forms.specs.Fields.{FieldsAreObjects};

/// The list of a block, whose names differ and are used where they stand, becomes a block of its type wherever it stands.
pub fn lists_are_blocks()
    ensures { ListsAreBlocks }
{}

/// Fields whose names differ and are used where they stand become an object, as a value of each type with the fields that are written.
pub fn fields_are_objects()
    ensures { FieldsAreObjects }
{}
