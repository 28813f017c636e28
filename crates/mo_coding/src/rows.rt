//! Rows of the functions, computed: what they give is what other implementations give, or was counted by hand.
ghost use Rattle.std.specs.Prelude.{◌≡◌};
ghost use Rattle.mo_coding.specs.MessageRows.{others, read_back, values, wanted, wanted_others, wanted_twice, written, written_twice};
ghost use Rattle.mo_coding.specs.TypeRows.{extents, header_lengths, kept, saved, wanted_extents, wanted_kept, wanted_lengths, wanted_saved};

/// Messages of numbers at the ends of their digits, of texts, blobs, lists, records, variants and a type that contains
/// itself; what they are read as, and what is not read.
pub fn messages_are_as_wanted()
    ensures written { written ≡ wanted }
    ensures read { read_back ≡ values }
    ensures twice { written_twice ≡ wanted_twice }
    ensures others { others ≡ wanted_others }
{}

/// Lengths of headers, numbers of types, kept and saved values.
pub fn types_are_as_wanted()
    ensures lengths { header_lengths ≡ wanted_lengths }
    ensures extents { extents ≡ wanted_extents }
    ensures kept { kept ≡ wanted_kept }
    ensures saved { saved ≡ wanted_saved }
{}
