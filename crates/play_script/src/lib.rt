//! Scripts and transcripts: the events that a canister is given, and the items that it answers with.
#![tactic(auto)]

mod event;
mod item;
mod line;
mod number;
mod place;
mod reading;
mod script;
mod script_laws;
mod suit;
mod text;
mod verb;
mod words;

pub use event::{Event, Events};
pub use item::{Item, Items, Word};
pub use number::put_decimal;
pub use place::event_line;
pub use reading::read_number;
pub use script::{ScriptFault, read_script};
pub use script_laws::reading_law;
pub use suit::events_suit;
pub use text::item_text;
