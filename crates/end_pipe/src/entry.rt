//! What each line of an end's text says.

ghost use Rattle.std.specs.Prelude.{◌≡◌};
ghost use Rattle.text_tables.specs.Words.{words};
ghost use Rattle.text_tables.specs.IsValidRow.{IsValidRow};
ghost use Rattle.scenario_text.specs.Entries.{item_of};
ghost use Rattle.scenario_text.specs.Keywords as scenario;
ghost use Rattle.end_pipe.specs.EndTable.{row_of};
ghost use Rattle.end_pipe.specs.EndContents.{entry_with, entry_of, setting_entry};
ghost use Rattle.end_pipe.specs.declared.input.EndInput.{EndInput};

use crate::input::EndInput;
use crate::table::EndWord;
use login_setup::Event;
use scenario_text::{Entry, Keyword, item_of};
use text_tables::{octets, word_in};

/// What a keyword says with the words of its line, which fit its row. An input is written to `input`.
#[tactic(auto, unfolding(crate::specs::EndContents::entry_of))]
pub fn entry_of(word: EndWord, line: &[u8], input: &mut EndInput) -> Entry
    requires { IsValidRow (row_of word) (words line.now) }
    ensures { entry_of word (words line.now) ≡ entry_with result input.new }
{
    match word {
        EndWord::Setting(keyword) => return setting_entry(keyword, line),
        EndWord::Events => return Entry::Events,
        EndWord::End => return Entry::End,
        EndWord::Packet => *input = EndInput::Octets(octets(word_in(line, 1))),
        EndWord::Timeout => *input = EndInput::Timeout,
        EndWord::Idle => *input = EndInput::Idle,
        EndWord::AltAccept => *input = EndInput::AltAccept,
        EndWord::AltReject => *input = EndInput::AltReject,
    }
    Entry::Happens
}

/// What a setting says with the words of its line. (By itself, so that no other line makes room for an event.)
fn setting_entry(keyword: Keyword, line: &[u8]) -> Entry
    requires { IsValidRow (scenario.row_of keyword) (words line.now) }
    ensures { (input : EndInput) → setting_entry (item_of keyword (words line.now))
        ≡ entry_with result input }
{
    let mut event = Event::Idle;
    match item_of(keyword, line, &mut event) {
        Entry::Set(setting) => Entry::Set(setting),
        _ => Entry::End,
    }
}
