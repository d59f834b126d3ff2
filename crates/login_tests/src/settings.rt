//! The settings of two ends by EAP-PSK, read by the plain calls from a scenario, and from the texts of both ends.

use eap_base::{PeerSetup, ServerSetup, Setup};
use end_pipe::{EndItem, EndReader};
use scenario_text::{Item, ScenarioReader};

/// The peer's settings.
const PEER: &str = "\
peer-name alice
peer-server srv
peer-methods 47
peer-psk 47 000102030405060708090a0b0c0d0e0f
peer-nonce 1111111111111111111111111111111111111111111111111111111111111111
";

/// The server's settings.
const SERVER: &str = "\
server-name srv
server-methods 47
server-nonce 2222222222222222222222222222222222222222222222222222222222222222
user alice 47 000102030405060708090a0b0c0d0e0f allowed
";

/// The settings of both ends, read from a scenario.
pub(crate) fn settings_of_scenario() -> Option<Setup> {
    let mut reader = ScenarioReader::new();
    for text in ["eap-scenario 1\nmode alone", PEER, SERVER, "events"] {
        for line in text.lines() {
            match reader.line(line.as_bytes()) {
                Ok(Item::Ready(setup)) => return Some(setup),
                Ok(_) => {}
                Err(_) => return None,
            }
        }
    }
    None
}

/// The peer's settings, read from the text of one end.
fn peer_settings() -> Option<PeerSetup> {
    let mut reader = EndReader::new(false);
    for text in ["eap-end 1", PEER, "events"] {
        for line in text.lines() {
            match reader.line(line.as_bytes()) {
                Ok(EndItem::ReadyPeer(setup)) => return Some(setup),
                Ok(_) => {}
                Err(_) => return None,
            }
        }
    }
    None
}

/// The server's settings, its first Identifier and MaxRetrans, read from the text of one end.
fn server_settings() -> Option<(ServerSetup, u8, u8)> {
    let mut reader = EndReader::new(true);
    for text in ["eap-end 1", SERVER, "events"] {
        for line in text.lines() {
            match reader.line(line.as_bytes()) {
                Ok(EndItem::ReadyServer(setup, first_id, max_retrans)) => {
                    return Some((setup, first_id, max_retrans));
                }
                Ok(_) => {}
                Err(_) => return None,
            }
        }
    }
    None
}

/// The settings of both ends, each read from its own text.
pub(crate) fn settings_of_ends() -> Option<Setup> {
    let mut setup = settings_of_scenario()?;
    let (server, first_id, max_retrans) = server_settings()?;
    setup.peer = peer_settings()?;
    setup.server = server;
    setup.first_id = first_id;
    setup.max_retrans = max_retrans;
    Some(setup)
}
