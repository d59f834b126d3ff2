//! Reading texts line by line: the words of a line, what each spells, rows of a table, and the first fault
//! of a line by its row.
#![tactic(auto)]

mod fault;
mod fields;
mod phase;
mod rows;
mod text;
mod user_words;
mod users;
mod words;

pub use fault::LineFault;
pub use fields::{array, kind_of, name, number, octets, read_hex, read_number, suite_of};
pub use phase::{Part, Phase};
pub use rows::{Choices, Field, Row, TableWord, fault_of_words, read_keyword};
pub use text::{Text, read_line};
pub use user_words::read_users;
pub use users::add_user;
pub use words::{is_comment, is_printable_line, word_at, word_count, word_in};
