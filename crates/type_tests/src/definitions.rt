//! Small examples of the definitions of types, computed by the checker.
ghost use Rattle.std.specs.Prelude.{◌≡◌, ◌<◌, ◌≤◌, ℕ, List, [], ◌∷◌, Option, None, Some};
ghost use Rattle.mo_types.specs.declared.wire.Plain.TheVariants as plain;
ghost use Rattle.mo_types.specs.declared.wire.Ref.TheVariants.{Just, Of};
ghost use Rattle.mo_types.specs.declared.wire.Wire.TheVariants.{Func, Record, Simple, Variant, Vec};
ghost use Rattle.mo_types.specs.Calls.{Answered, CallTable, HasRoom, IsOpen, Lost, OwnsOpen, call_at, next_number, open_count, opened, set_state, state_of};
ghost use Rattle.mo_types.specs.Code.{Keep, Reads, StableBytes};
ghost use Rattle.mo_types.specs.Form.{form};
ghost use Rattle.mo_types.specs.Sub.{IsSubtype};
ghost use Rattle.mo_types.specs.Values.{Values};
ghost use Rattle.mo_types.specs.Wire.{wire};
ghost use Rattle.mo_subtype.specs.Certificate.{Fails};
ghost use Rattle.type_tests.specs.Examples.{ABlob, AChar, ANat, ANat32, AText, AUnit, AnAny, AnInt, Asked, ByteArray, Inner, IntCell, Loop, Narrow, NatCell, Outcome, Pair, ParameterT, ParameterU, Single, Success, Twice, Wide, byte_array, byte_blob, entry, forms, message_of_seven, open_calls, resuming_calls, saved_memory, seven, small_head, surrogate, surrogate_char, two_calls, values, variable_ok, variable_x};

/// `type A = ?A` and `type B = ?(?B)` are subtypes of each other.
#[tactic(auto, using(crate::proofs::Examples::loop_below, crate::proofs::Examples::loop_above))]
pub fn options_of_themselves_are_one_type()
    ensures below { IsSubtype small_head Loop Twice }
    ensures above { IsSubtype small_head Twice Loop }
{}

/// Nat and Text fail at once; objects with `var` fields of Nat and of Int fail at these.
#[tactic(auto, using(crate::proofs::Examples::text_fails, crate::proofs::Examples::nat_cell_fails, crate::proofs::Examples::int_cell_fails))]
pub fn failures_have_least_depths()
    ensures text { Fails small_head ANat AText 1 }
    ensures cells { Fails small_head NatCell IntCell 2 }
    ensures cells_back { Fails small_head IntCell NatCell 2 }
{}

/// Objects in width and depth, variants with fewer tags, and functions that take more and give less.
#[tactic(auto, using(crate::proofs::Examples::pair_below, crate::proofs::Examples::single_fails, crate::proofs::Examples::success_below, crate::proofs::Examples::outcome_fails, crate::proofs::Examples::narrow_below, crate::proofs::Examples::wide_fails, crate::proofs::Examples::asked_fails, crate::proofs::Examples::asked_below))]
pub fn subtypes_by_their_parts()
    ensures objects { IsSubtype small_head Pair Single }
    ensures other_objects { Fails small_head Single Pair 1 }
    ensures variants { IsSubtype small_head Success Outcome }
    ensures other_variants { Fails small_head Outcome Success 1 }
    ensures functions { IsSubtype small_head Narrow Wide }
    ensures other_functions { Fails small_head Wide Narrow 2 }
    ensures sorts { Fails small_head Asked Wide 1 }
    ensures any { IsSubtype small_head Asked AnAny }
{}

/// A type parameter is below itself, and where its bound is. It is not below another one, and its bound not below it.
#[tactic(auto, using(crate::proofs::Examples::own_parameter, crate::proofs::Examples::bound_below, crate::proofs::Examples::other_parameter_fails, crate::proofs::Examples::parameter_fails))]
pub fn type_parameters_are_below_their_bounds()
    ensures own { IsSubtype small_head ParameterT ParameterT }
    ensures bound { IsSubtype small_head ParameterT AnInt }
    ensures other { Fails small_head ParameterT ParameterU 2 }
    ensures below_bound { Fails small_head ANat ParameterT 1 }
{}

/// Blobs, tags in the order of their numbers, of which () stands as null, and queries.
pub fn candid_types_of_types()
    ensures blob { wire small_head (Of ABlob) ≡ Vec (Just plain.Nat8) }
    ensures any { wire small_head (Of AnAny) ≡ Simple plain.Reserved }
    ensures object { wire small_head (Of Pair) ≡ Record (entry 120 (Of ANat) ∷ entry 121 (Of AText) ∷ []) }
    ensures variant { wire small_head (Of Outcome) ≡ Variant (entry 24860 (Just plain.Null) ∷ entry 5048165 (Of AText) ∷ []) }
    ensures query { wire small_head (Of Asked) ≡ Func [] (Of ANat ∷ []) (1 ∷ []) }
{}

/// The bytes of a Blob one by one, and null where () stands under a tag or at Any.
pub fn candid_values_of_values()
    ensures { form small_head (ABlob ∷ Outcome ∷ AnAny ∷ []) values ≡ forms }
{}

/// An array of bytes is kept as a Blob, and the number of no character as no Char.
#[tactic(auto, using(crate::proofs::Messages::array_kept, crate::proofs::Messages::surrogate_lost))]
pub fn kept_values_have_their_types()
    ensures blob { Keep small_head small_head ByteArray ABlob byte_array byte_blob }
    ensures surrogate { (w : Values) → Keep small_head small_head ANat32 AChar surrogate w → ⊥ }
{}

/// A number is read also where it is padded. No message is one of such a character, or begins with another byte.
#[tactic(auto, using(crate::proofs::Messages::seven_read, crate::proofs::Messages::surrogate_unread, crate::proofs::Messages::begins_with_magic))]
pub fn some_messages_are_read()
    ensures padded { Reads small_head (ANat ∷ []) message_of_seven seven }
    ensures surrogate { (bytes : List ℕ) → Reads small_head (AChar ∷ []) bytes surrogate_char → ⊥ }
    ensures magic { (b : ℕ) (bytes : List ℕ) (v : Values) → Reads small_head (ANat ∷ []) (b ∷ bytes) v → b ≡ 0x44 }
{}

/// Stable variables are saved in the order of the numbers of their names.
#[tactic(auto, using(crate::proofs::Messages::variables_saved))]
pub fn variables_are_saved_by_number()
    ensures { StableBytes small_head (variable_ok ∷ variable_x ∷ []) saved_memory }
{}

/// Calls count while they are open.
pub fn calls_count_while_they_are_open()
    ensures both { open_count two_calls ≡ 2 }
    ensures answered { open_count (set_state two_calls 7 (Answered (Some 9))) ≡ 1 }
    ensures kept { state_of (call_at (set_state two_calls 7 (Answered (Some 9))) 7) ≡ Some (Answered (Some 9)) }
    ensures lost { open_count (set_state two_calls 8 Lost) ≡ 1 }
    ensures other { IsOpen (set_state two_calls 8 Lost) 7 }
    ensures unknown { set_state two_calls 0 Lost ≡ two_calls }
    ensures resuming { open_count resuming_calls ≡ 2 }
{}

/// Calls have the numbers from the table's first one on, whatever that is.
#[tactic(auto, using(crate::proofs::Examples::next_is_open))]
pub fn calls_are_numbered_from_the_first()
    ensures first { IsOpen two_calls 7 }
    ensures second { IsOpen two_calls 8 }
    ensures before { call_at two_calls 6 ≡ None }
    ensures behind { call_at two_calls 9 ≡ None }
    ensures resuming { IsOpen resuming_calls 9 }
    ensures next { (table : CallTable ℕ ℕ) (owner results : ℕ) (resumes : Option ℕ) → IsOpen (opened table owner results resumes) (next_number table) }
{}

/// An owner has an open call until it is answered or lost.
#[tactic(auto, using(crate::proofs::Examples::first_owner, crate::proofs::Examples::answered_owner, crate::proofs::Examples::second_owner, crate::proofs::Examples::resuming_owner, crate::proofs::Examples::no_owner))]
pub fn calls_have_owners()
    ensures own { OwnsOpen two_calls 3 }
    ensures answered { OwnsOpen (set_state two_calls 7 (Answered (Some 9))) 3 → ⊥ }
    ensures others { OwnsOpen (set_state two_calls 7 Lost) 4 }
    ensures resuming { OwnsOpen resuming_calls 3 }
    ensures nobody { OwnsOpen two_calls 5 → ⊥ }
{}

/// There is room below 500 open calls.
#[tactic(auto, using(crate::proofs::Examples::room_below, crate::proofs::Examples::no_room))]
pub fn five_hundred_calls_leave_no_room()
    ensures room { (n : ℕ) → n < 500 → HasRoom (open_calls n) }
    ensures full { (n : ℕ) → 500 ≤ n → HasRoom (open_calls n) → ⊥ }
{}
