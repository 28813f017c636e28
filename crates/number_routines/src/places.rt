//! Where the texts of traps stand in the memory.

/// The words of the addresses of the texts of arithmetic's traps.
#[derive(Clone, Copy)]
pub struct TrapPlaces {
    pub overflow: i32,
    pub underflow: i32,
    pub divide_by_zero: i32,
}
