//! The calls that a canister has had and that it waits for.
use ic0_world::OutgoingCall;
use mo_num::Principal;

/// An incoming call: who made it, and whether it is answered. Its number is its place.
#[derive(Drop)]
pub struct IncomingCall {
    pub caller: Principal,
    pub answered: bool,
}

/// An outgoing call that waits for its answer: its number, and the number of the incoming call that it was made for.
#[derive(Drop)]
pub struct OpenCall {
    pub number: u64,
    pub owner: u64,
    pub call: OutgoingCall,
}
