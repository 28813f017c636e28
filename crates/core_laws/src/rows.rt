//! Rows, computed: the examples of `core_ir`, split and converted, do what is wanted of them.
ghost use Rattle.std.specs.Prelude.{ℕ, ◌≡◌, ◌∷◌, [], true};
ghost use Rattle.core_ir.specs.ActorRows.{day, plays, wanted_day};
ghost use Rattle.core_ir.specs.CodeMachine.{code_machine};
ghost use Rattle.core_ir.specs.CoreMachine.{core_machine};
ghost use Rattle.core_ir.specs.Drives.{are_within};
ghost use Rattle.core_ir.specs.Examples.{examples};
ghost use Rattle.core_ir.specs.Formed.{FormedCore};
ghost use Rattle.core_ir.specs.Nested.{Nested};
ghost use Rattle.core_ir.specs.Rows.{answers, await_rows, plain_rows, refused_rows, saved, started, wanted, wanted_saved, wanted_started};
ghost use Rattle.core_laws.specs.Rows.{all_counted, flat_examples, split_examples};

/// With groups that see what they use.
pub fn converted_examples_are_as_wanted()
    ensures awaits { answers (code_machine flat_examples) 300 await_rows ≡ wanted await_rows }
    ensures refused { answers (code_machine flat_examples) 60 refused_rows ≡ wanted refused_rows }
    ensures plain { answers (code_machine flat_examples) 300 plain_rows ≡ wanted plain_rows }
    ensures started { started (code_machine flat_examples) ≡ wanted_started }
    ensures saved { saved (code_machine flat_examples) ≡ wanted_saved }
    ensures actor { plays (code_machine flat_examples) flat_examples day ≡ wanted_day }
{}

/// The examples are formed, of an actor with one own name.
pub fn examples_are_formed()
    ensures { FormedCore 1 examples }
{}

/// The law of splitting speaks of the examples.
pub fn examples_are_nested()
    ensures { Nested examples }
{}

/// Split code weighs at most twice as much and is no deeper, and converted code weighs the same.
pub fn examples_weigh_as_bounded()
    ensures split { are_within 2 1 (all_counted (core_machine examples)) (all_counted (code_machine split_examples)) ≡ true }
    ensures converted { all_counted (code_machine flat_examples) ≡ all_counted (code_machine split_examples) }
{}

/// In segments.
pub fn split_examples_are_as_wanted()
    ensures awaits { answers (code_machine split_examples) 300 await_rows ≡ wanted await_rows }
    ensures refused { answers (code_machine split_examples) 60 refused_rows ≡ wanted refused_rows }
    ensures plain { answers (code_machine split_examples) 300 plain_rows ≡ wanted plain_rows }
    ensures started { started (code_machine split_examples) ≡ wanted_started }
    ensures saved { saved (code_machine split_examples) ≡ wanted_saved }
    ensures actor { plays (code_machine split_examples) split_examples day ≡ wanted_day }
{}
