//! Rows of replies, computed: the function does nothing, and its contract says that the definitions give what they should.
ghost use Rattle.std.specs.Prelude.{◌≡◌};
ghost use Rattle.wire_messages.specs.Rows.{replies, wanted};

/// The messages that functions of a small module write.
pub fn replies_are_as_wanted()
    ensures { replies ≡ wanted }
{}
