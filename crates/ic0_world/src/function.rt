//! The functions of `ic0`.
ghost use Rattle.std.specs.Prelude.{◌≡◌};
ghost use Rattle.std.specs.List.{find};
ghost use Rattle.std.specs.Str.{bytes_eq};
ghost use Rattle.ic0_world.specs.Names.{function_of, function_name};

/// A function that the host offers to canisters (IC interface specification, section Overview of imports).
#[derive(Clone, Copy, Debug, PartialEq, Eq)]
pub enum Ic0 {
    /// `msg_arg_data_size`
    MsgArgDataSize,
    /// `msg_arg_data_copy`
    MsgArgDataCopy,
    /// `msg_caller_size`
    MsgCallerSize,
    /// `msg_caller_copy`
    MsgCallerCopy,
    /// `msg_reply_data_append`
    MsgReplyDataAppend,
    /// `msg_reject`
    MsgReject,
    /// `msg_reply`
    MsgReply,
    /// `msg_reject_code`
    MsgRejectCode,
    /// `msg_reject_msg_size`
    MsgRejectMsgSize,
    /// `msg_reject_msg_copy`
    MsgRejectMsgCopy,
    /// `canister_self_size`
    CanisterSelfSize,
    /// `canister_self_copy`
    CanisterSelfCopy,
    /// `call_new`
    CallNew,
    /// `call_on_cleanup`
    CallOnCleanup,
    /// `call_data_append`
    CallDataAppend,
    /// `call_perform`
    CallPerform,
    /// `stable64_size`
    StableSize,
    /// `stable64_grow`
    StableGrow,
    /// `stable64_read`
    StableRead,
    /// `stable64_write`
    StableWrite,
    /// `debug_print`
    DebugPrint,
    /// `trap`
    Trap,
}

impl Ic0 {
    /// Every function, once.
    pub const ALL: [Ic0; 22] = [
        Ic0::MsgArgDataSize,
        Ic0::MsgArgDataCopy,
        Ic0::MsgCallerSize,
        Ic0::MsgCallerCopy,
        Ic0::MsgReplyDataAppend,
        Ic0::MsgReject,
        Ic0::MsgReply,
        Ic0::MsgRejectCode,
        Ic0::MsgRejectMsgSize,
        Ic0::MsgRejectMsgCopy,
        Ic0::CanisterSelfSize,
        Ic0::CanisterSelfCopy,
        Ic0::CallNew,
        Ic0::CallOnCleanup,
        Ic0::CallDataAppend,
        Ic0::CallPerform,
        Ic0::StableSize,
        Ic0::StableGrow,
        Ic0::StableRead,
        Ic0::StableWrite,
        Ic0::DebugPrint,
        Ic0::Trap,
    ];

    /// The name by which a module imports it.
    pub fn name(self) -> &'static [u8]
        ensures { result.now ≡ function_name self }
    {
        match self {
            Ic0::MsgArgDataSize => b"msg_arg_data_size",
            Ic0::MsgArgDataCopy => b"msg_arg_data_copy",
            Ic0::MsgCallerSize => b"msg_caller_size",
            Ic0::MsgCallerCopy => b"msg_caller_copy",
            Ic0::MsgReplyDataAppend => b"msg_reply_data_append",
            Ic0::MsgReject => b"msg_reject",
            Ic0::MsgReply => b"msg_reply",
            Ic0::MsgRejectCode => b"msg_reject_code",
            Ic0::MsgRejectMsgSize => b"msg_reject_msg_size",
            Ic0::MsgRejectMsgCopy => b"msg_reject_msg_copy",
            Ic0::CanisterSelfSize => b"canister_self_size",
            Ic0::CanisterSelfCopy => b"canister_self_copy",
            Ic0::CallNew => b"call_new",
            Ic0::CallOnCleanup => b"call_on_cleanup",
            Ic0::CallDataAppend => b"call_data_append",
            Ic0::CallPerform => b"call_perform",
            Ic0::StableSize => b"stable64_size",
            Ic0::StableGrow => b"stable64_grow",
            Ic0::StableRead => b"stable64_read",
            Ic0::StableWrite => b"stable64_write",
            Ic0::DebugPrint => b"debug_print",
            Ic0::Trap => b"trap",
        }
    }

    /// The function with this name.
    #[tactic(auto, unfolding(crate::specs::Names::function_of, crate::specs::Names::functions))]
    pub fn named(name: &[u8]) -> Option<Ic0>
        ensures { result ≡ function_of name.now }
    {
        named_in(&Ic0::ALL, name)
    }
}

// The first of the functions with this name.
fn named_in(functions: &[Ic0], name: &[u8]) -> Option<Ic0>
    ensures { result ≡ find (λ function. bytes_eq (function_name function) name.now) functions.now }
{
    for function in functions {
        if function.name() == name {
            return Some(*function);
        }
    }
    None
}
