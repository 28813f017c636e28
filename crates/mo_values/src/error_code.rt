//! What an error says of the call that failed.

/// The code of an error: Motoko base library, `Error.ErrorCode`. Reject codes 1 to 5 have names of their own.
#[derive(Clone, Copy, Debug, PartialEq, Eq)]
pub enum ErrorCode {
    SystemFatal,
    SystemTransient,
    DestinationInvalid,
    CanisterReject,
    CanisterError,
    /// Any other reject code.
    Future(u32),
    /// The call was refused before it went out.
    CallError(u32),
}
