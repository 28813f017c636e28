//! Names that others hide.
ghost use Rattle.std.specs.Prelude.{◌≡◌, ◌∷◌, [], OnOk, map};
ghost use Rattle.std.specs.List.{list_any};
ghost use Rattle.std.specs.Str.{bytes_eq};
ghost use Rattle.desugaring.specs.Frames as frame;

use kernel_frames::Frames;
use mo_num::{Bytes, Memory};

fn is_name(name: &[u8], other: &[u8]) -> bool
    ensures { result ≡ bytes_eq name.now other.now }
{
    name == other
}

/// Whether the name is one of these.
fn is_among(name: &[u8], names: &[Bytes]) -> bool
    ensures { result ≡ list_any (λ y. bytes_eq name.now y) names.now }
{
    for other in names {
        if is_name(name, other.as_slice()) {
            return true;
        }
    }
    false
}

/// Adds a name, which no use finds where it is one of these.
pub fn push_hidden(frames: &mut Frames, hiding: &[Bytes], name: &[u8]) -> Result<(), Memory>
    ensures { OnOk result (frames.new ≡ frame.with_entries (frame.hidden_by hiding.now name.now ∷ []) frames.old) }
{
    if is_among(name, hiding) {
        frames.push_unnamed()
    } else {
        frames.push_value(name)
    }
}

/// Adds names, of which the first is the nearest, and no use finds those that are among the others. It goes over the others for each name:
/// the pattern of a context, whose type has one field, has one name at most.
pub fn push_hidden_names(
    frames: &mut Frames,
    hiding: &[Bytes],
    names: &[Bytes],
) -> Result<(), Memory>
    ensures { OnOk result (frames.new ≡ frame.with_entries (map (frame.hidden_by hiding.now) names.now) frames.old) }
{
    let mut left = names.len();
    while left > 0 {
        left -= 1;
        push_hidden(frames, hiding, names[left].as_slice())?;
    }
    Ok(())
}
