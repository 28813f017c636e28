//! Whether calls are open.
ghost use Rattle.std.specs.Prelude.{◌≡◌};
ghost use Rattle.arena_upgrades.specs.Outstanding.{any_open};

use arena_actors::Made;
use arena_outcomes::is_open;

/// Whether one of these calls is open.
pub(crate) fn any_open(calls: &[Made]) -> bool
    ensures { result ≡ any_open calls.now }
{
    for call in calls {
        if is_open(&call.state) {
            return true;
        }
    }
    false
}
