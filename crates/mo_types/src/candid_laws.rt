//! Small facts of the Candid definitions.
ghost use Rattle.std.specs.Prelude.{◌≡◌, List, [], ◌∷◌};
ghost use Rattle.mo_types.specs.declared.datum.Datum.{Datum};
ghost use Rattle.mo_types.specs.Values.{by_label, flat, tree};
ghost use Rattle.mo_types.specs.declared.wire.Ref.TheVariants.{Of};
ghost use Rattle.mo_types.specs.Wire.{wire};
ghost use Rattle.mo_types.specs.Header.{Visits};
ghost use Rattle.mo_types.specs.Code.{Code, Keep, Reads, StableBytes};
ghost use Rattle.mo_types.specs.Examples.{err_field, forty_two, letter_a, letter_head, list_head, list_of_one, message_of_42, message_of_a_list, ninety_seven, number_head, ok_field, stable_memory, variable_n};

/// Each list of parts is that of the values that it stands for.
pub fn parts_are_values()
    ensures { (parts : List Datum) → flat (tree parts) ≡ parts }
{}

/// Fields stand in the order of the numbers of their labels: `ok` has the smaller one.
pub fn fields_go_by_number()
    ensures { by_label (err_field ∷ ok_field ∷ []) ≡ ok_field ∷ err_field ∷ [] }
{}

/// A list of numbers has two entries in a header: the option, and then the record.
pub fn a_list_has_two_entries()
    ensures { Visits (wire list_head) [] (Of 0 ∷ []) (Of 0 ∷ Of 1 ∷ []) }
{}

/// The message of one number is read as it.
pub fn a_number_is_read()
    ensures { Reads list_head (2 ∷ []) message_of_42 forty_two }
{}

/// The message of a list of one number, with a type that contains itself.
pub fn a_list_is_written()
    ensures { Code list_head (0 ∷ []) list_of_one message_of_a_list }
{}

/// A character that was kept is the number of it where the next program wants a number.
pub fn a_character_is_kept()
    ensures { Keep letter_head number_head 0 0 letter_a ninety_seven }
{}

/// What stable memory holds of one variable.
pub fn a_variable_is_saved()
    ensures { StableBytes list_head (variable_n ∷ []) stable_memory }
{}
