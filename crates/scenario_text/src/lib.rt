//! Reading scenarios line by line.
#![tactic(auto)]

mod entry;
mod keyword;
mod laws;
mod scenario;
mod settings;
mod version;

pub use entry::{Entry, Setting, item_of};
pub use keyword::Keyword;
pub use laws::{first_scenarios_are_alone, lines_are_judged, scenarios_are_read};
pub use scenario::{Item, ItemKind, ScenarioReader};
pub use settings::Settings;

// What texts have in common, and the texts of `check`, `keys` and `decode`.
pub use request_text::{CaptureItem, CaptureReader, KeyLine, read_key_line, read_packet_line};
pub use text_tables::{LineFault, read_hex, read_number, word_at, word_count};
