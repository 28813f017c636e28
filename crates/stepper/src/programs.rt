//! Programs by their numbers.
ghost use Rattle.std.specs.Prelude.{◌≡◌, slice_get};
ghost use Rattle.mo_types.specs.Heads.{map_option};

use typed_tree::Program;

/// The program of a number.
pub(crate) fn program_at<'a>(programs: &'a [Program], number: u32) -> Option<&'a Program>
    ensures { map_option (λ p. p.now) result ≡ slice_get programs.entry.now number }
{
    programs.get(number as usize)
}
