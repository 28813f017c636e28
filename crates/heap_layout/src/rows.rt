//! Rows, computed: what the forms of blocks come to.
ghost use Rattle.std.specs.Prelude.{◌≡◌};
ghost use Rattle.heap_layout.specs.Rows.{error_forms, example_bytes, example_memory, example_words, forms, numbers, wanted_bytes, wanted_errors, wanted_forms, wanted_memory, wanted_numbers, wanted_words};

/// The words of numbers; the places of parts and of known numbers in blocks; the words and bytes of a closure and a cell in a memory.
pub fn blocks_are_as_wanted()
    ensures numbers { numbers ≡ wanted_numbers }
    ensures forms { forms ≡ wanted_forms }
    ensures errors { error_forms ≡ wanted_errors }
    ensures memory { example_memory ≡ wanted_memory }
    ensures words { example_words ≡ wanted_words }
    ensures bytes { example_bytes ≡ wanted_bytes }
{}
