//! The kinds of executions, and what each may ask of the host.
ghost use Rattle.std.specs.Prelude.{◌≡◌};
ghost use Rattle.ic0_world.specs.Allowed.{is_allowed, takes_argument, answers, makes_calls, is_callback};

use crate::Ic0;

/// How an execution was entered.
#[derive(Clone, Copy, Debug, PartialEq, Eq)]
pub enum ExecutionKind {
    /// The start function, at an installation or an upgrade.
    Start,
    /// `canister_init`.
    Init,
    /// An update method.
    Update,
    /// A query method.
    Query,
    /// The callback of a reply.
    Reply,
    /// The callback of a rejection.
    Reject,
    /// What runs after a callback that trapped.
    Cleanup,
    /// `canister_pre_upgrade`.
    PreUpgrade,
    /// `canister_post_upgrade`.
    PostUpgrade,
}

impl ExecutionKind {
    /// Whether the function may be called in an execution of this kind.
    pub fn allows(self, function: Ic0) -> bool
        ensures { result ≡ is_allowed self function }
    {
        match function {
            Ic0::MsgArgDataSize | Ic0::MsgArgDataCopy => self.takes_argument(),
            Ic0::MsgCallerSize
            | Ic0::MsgCallerCopy
            | Ic0::CanisterSelfSize
            | Ic0::CanisterSelfCopy => self != ExecutionKind::Start,
            Ic0::MsgReplyDataAppend | Ic0::MsgReject | Ic0::MsgReply => self.answers(),
            Ic0::MsgRejectCode => self.is_callback(),
            Ic0::MsgRejectMsgSize | Ic0::MsgRejectMsgCopy => self == ExecutionKind::Reject,
            Ic0::CallNew | Ic0::CallOnCleanup | Ic0::CallDataAppend | Ic0::CallPerform => {
                self.makes_calls()
            }
            Ic0::StableSize
            | Ic0::StableGrow
            | Ic0::StableRead
            | Ic0::StableWrite
            | Ic0::DebugPrint
            | Ic0::Trap => true,
        }
    }

    // Whether it has an argument, or a reply's data.
    fn takes_argument(self) -> bool
        ensures { result ≡ takes_argument self }
    {
        matches!(
            self,
            ExecutionKind::Init
                | ExecutionKind::Update
                | ExecutionKind::Query
                | ExecutionKind::Reply
                | ExecutionKind::PostUpgrade
        )
    }

    // Whether it may answer a call.
    fn answers(self) -> bool
        ensures { result ≡ answers self }
    {
        self.makes_calls() || self == ExecutionKind::Query
    }

    // Whether it may call other canisters.
    fn makes_calls(self) -> bool
        ensures { result ≡ makes_calls self }
    {
        self.is_callback() || self == ExecutionKind::Update
    }

    // Whether it is the callback of an answer.
    fn is_callback(self) -> bool
        ensures { result ≡ is_callback self }
    {
        matches!(self, ExecutionKind::Reply | ExecutionKind::Reject)
    }
}
