//! Events that suit a list of modules.
ghost use Rattle.std.specs.Prelude.{◌↔◌, IsTrue, All, drop};
ghost use Rattle.play_script.specs.Events.{Suits, NamesModuleBelow, IsNoInstall};

use crate::Event;

/// Whether the events suit a list of so many modules: an install stands only as the first event, and each number of a
/// module is below that count.
pub fn events_suit(events: &[Event], count: usize) -> bool
    ensures { IsTrue result ↔ Suits count events.now }
{
    all_name_modules_below(events, count) && none_behind_installs(events)
}

fn all_name_modules_below(events: &[Event], count: usize) -> bool
    ensures { IsTrue result ↔ All (NamesModuleBelow count) events.now }
{
    events.iter().all(|event| event.names_module_below(count))
}

fn none_behind_installs(events: &[Event]) -> bool
    ensures { IsTrue result ↔ All IsNoInstall (drop 1 events.now) }
{
    match events.split_first() {
        None => true,
        Some((_, others)) => none_installs(others),
    }
}

fn none_installs(events: &[Event]) -> bool
    ensures { IsTrue result ↔ All IsNoInstall events.now }
{
    events.iter().all(|event| event.is_no_install())
}
