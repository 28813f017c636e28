//! Values in the memory of a module: the forms of blocks, what each word stands for, and what is kept where a cell is written and a
//! block is made.
#![tactic(auto)]

mod laws;
mod rows;

pub use laws::{
    blocks_are_made, blocks_are_paid, cells_are_made, cells_are_written, groups_are_made,
    heaps_begin, meanings_stay, texts_stand, words_are_read,
};
pub use rows::blocks_are_as_wanted;
