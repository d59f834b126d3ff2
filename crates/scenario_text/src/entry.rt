//! The lines of a scenario, and what each says.

ghost use Rattle.std.specs.Prelude.{◌≡◌, ◌≤◌, length};
ghost use Rattle.octet_lists.specs.Sizes.{max_name};
ghost use Rattle.text_tables.specs.Words.{words};
ghost use Rattle.scenario_text.specs.Contents.{entry_with};
ghost use Rattle.text_tables.specs.IsValidRow.{IsValidRow};
ghost use Rattle.scenario_text.specs.Keywords.{row_of};
ghost use Rattle.scenario_text.specs.Entries.{accepts_of, kinds_of, suites_of, key_setting};
ghost use Rattle.scenario_text.specs.Entries.{port_of, party_of, is_yes, mode_of, item_of, IsSet};

use crate::keyword::Keyword;
use login_setup::{Accepts, Event, Mode, Party, Port, User};
use octet_lists::{Identity, Kinds, Nonce, PSK_KIND, Secret, Suites};
use text_tables::{array, kind_of, name, number, octets, suite_of, word_count, word_in};

/// A setting with its value.
#[derive(Drop)]
pub enum Setting {
    Mode(Mode),
    FirstId(u8),
    MaxRetrans(u8),
    PeerName(Identity),
    PeerServer(Accepts),
    PeerMethods(Kinds),
    PeerSuites(Suites),
    PeerPsk47(Secret),
    PeerPsk51(Secret),
    PeerNonce(Nonce),
    ServerName(Identity),
    ServerMethods(Kinds),
    ServerSuites(Suites),
    ServerNonce(Nonce),
    User(User),
    PeerExpanded(bool),
    ServerExpanded(bool),
}

/// What a line of a scenario, or of the text of one end, contains after its header.
#[derive(Drop)]
pub enum Entry {
    Set(Setting),
    Events,
    /// The event, or the input of the end, that was written.
    Happens,
    End,
}

/// What a keyword says with the words of its line, which fit its row. An event is written to `event`.
#[tactic(auto, unfolding(crate::specs::Entries::item_of))]
pub fn item_of(keyword: Keyword, line: &[u8], event: &mut Event) -> Entry
    requires { IsValidRow (row_of keyword) (words line.now) }
    ensures { item_of keyword (words line.now) ≡ entry_with result event.new }
{
    let first = word_in(line, 1);
    match keyword {
        Keyword::Events => return Entry::Events,
        Keyword::End => return Entry::End,
        Keyword::Deliver => *event = Event::Deliver {
            number: number(first),
        },
        Keyword::Alter => *event = Event::Alter {
            number: number(first),
            place: number(word_in(line, 2)) as u16,
            mask: number(word_in(line, 3)) as u8,
        },
        Keyword::Cut => *event = Event::Cut {
            number: number(first),
            keep: number(word_in(line, 2)) as u16,
        },
        Keyword::Timeout => *event = Event::Timeout {
            party: party_of(first),
        },
        Keyword::AaaTimeout => *event = Event::AaaTimeout,
        Keyword::AaaNoReq => *event = Event::AaaNoReq,
        Keyword::Idle => *event = Event::Idle,
        Keyword::AltAccept => *event = Event::AltAccept,
        Keyword::AltReject => *event = Event::AltReject,
        Keyword::Restart => *event = Event::Restart {
            party: party_of(first),
        },
        Keyword::Inject => inject(line, event),
        _ => return set_by(keyword, line),
    }
    Entry::Happens
}

/// Writes the injection that a line gives. (By itself, so that no other line makes room for its octets.)
#[inline(never)]
#[tactic(auto, unfolding(crate::specs::Entries::item_of))]
fn inject(line: &[u8], event: &mut Event)
    requires { IsValidRow (row_of Keyword.Inject) (words line.now) }
    ensures { item_of Keyword.Inject (words line.now) ≡ entry_with Entry.Happens event.new }
{
    *event = Event::Inject {
        port: port_of(word_in(line, 1)),
        octets: octets(word_in(line, 2)),
    };
}

/// The setting that a keyword gives with the words of its line, which fit its row. (By itself, so that no event makes
/// room for it.)
#[inline(never)]
#[tactic(auto, unfolding(crate::specs::Entries::item_of))]
fn set_by(keyword: Keyword, line: &[u8]) -> Entry
    requires { IsValidRow (row_of keyword) (words line.now) }
    ensures { (event : Event) → IsSet (item_of keyword (words line.now))
        → item_of keyword (words line.now) ≡ entry_with result event }
{
    let first = word_in(line, 1);
    match keyword {
        Keyword::Mode => Entry::Set(Setting::Mode(mode_of(first))),
        Keyword::FirstId => Entry::Set(Setting::FirstId(number(first) as u8)),
        Keyword::MaxRetrans => Entry::Set(Setting::MaxRetrans(number(first) as u8)),
        Keyword::PeerName => Entry::Set(Setting::PeerName(name(first))),
        Keyword::PeerServer => Entry::Set(Setting::PeerServer(accepts_of(first))),
        Keyword::PeerMethods => Entry::Set(Setting::PeerMethods(kinds_of(line))),
        Keyword::PeerSuites => Entry::Set(Setting::PeerSuites(suites_of(line))),
        Keyword::PeerPsk => Entry::Set(key_setting(kind_of(first), octets(word_in(line, 2)))),
        Keyword::PeerNonce => Entry::Set(Setting::PeerNonce(array(first))),
        Keyword::ServerName => Entry::Set(Setting::ServerName(name(first))),
        Keyword::ServerMethods => Entry::Set(Setting::ServerMethods(kinds_of(line))),
        Keyword::ServerSuites => Entry::Set(Setting::ServerSuites(suites_of(line))),
        Keyword::ServerNonce => Entry::Set(Setting::ServerNonce(array(first))),
        Keyword::User => Entry::Set(Setting::User(User {
            name: name(first),
            kind: kind_of(word_in(line, 2)),
            psk: octets(word_in(line, 3)),
            barred: word_in(line, 4) == b"barred".as_slice(),
        })),
        Keyword::PeerExpanded => Entry::Set(Setting::PeerExpanded(is_yes(first))),
        Keyword::ServerExpanded => Entry::Set(Setting::ServerExpanded(is_yes(first))),
        _ => Entry::End,
    }
}

/// The server names that a peer accepts: `any`, or one name.
fn accepts_of(word: &[u8]) -> Accepts
    requires { length word.now ≤ max_name }
    ensures { result ≡ accepts_of word.now }
{
    if word == b"any".as_slice() {
        Accepts::Any
    } else {
        Accepts::One(name(word))
    }
}

/// One or two methods; `-` stands for none.
fn kinds_of(line: &[u8]) -> Kinds
    ensures { result ≡ kinds_of (words line.now) }
{
    let mut kinds = Kinds::new();
    let first = word_in(line, 1);
    if first != b"-".as_slice() {
        kinds.push(kind_of(first));
        if word_count(line) > 2 {
            kinds.push(kind_of(word_in(line, 2)));
        }
    }
    kinds
}

/// One or two ciphersuites.
fn suites_of(line: &[u8]) -> Suites
    ensures { result ≡ suites_of (words line.now) }
{
    let mut suites = Suites::new();
    suites.push(suite_of(word_in(line, 1)));
    if word_count(line) > 2 {
        suites.push(suite_of(word_in(line, 2)));
    }
    suites
}

/// The peer's key for a method, as a setting.
fn key_setting(kind: u8, key: Secret) -> Setting
    ensures { result ≡ key_setting kind key }
{
    if kind == PSK_KIND {
        Setting::PeerPsk47(key)
    } else {
        Setting::PeerPsk51(key)
    }
}

/// A port at which a packet can be delivered.
fn port_of(word: &[u8]) -> Port
    ensures { result ≡ port_of word.now }
{
    if word == b"peer".as_slice() {
        Port::Peer
    } else if word == b"server".as_slice() {
        Port::Server
    } else if word == b"pass-peer".as_slice() {
        Port::PassPeer
    } else {
        Port::PassServer
    }
}

/// A party.
fn party_of(word: &[u8]) -> Party
    ensures { result ≡ party_of word.now }
{
    if word == b"pass".as_slice() {
        Party::Pass
    } else if word == b"peer".as_slice() {
        Party::Peer
    } else {
        Party::Server
    }
}

/// Whether the answer is `yes`.
fn is_yes(word: &[u8]) -> bool
    ensures { result ≡ is_yes word.now }
{
    word == b"yes".as_slice()
}

/// Whether the server answers by itself.
fn mode_of(word: &[u8]) -> Mode
    ensures { result ≡ mode_of word.now }
{
    if word == b"through".as_slice() {
        Mode::Through
    } else {
        Mode::Alone
    }
}
