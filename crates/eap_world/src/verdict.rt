//! Whether both ends agree.

ghost use Rattle.std.specs.Prelude.{◌≡◌};
ghost use Rattle.login_setup.specs.Users.{user_of};
ghost use Rattle.eap_world.specs.Judgement.{same_report, peer_agrees, server_agrees};
ghost use Rattle.eap_world.specs.Judgement.{agree, agreement_of, is_welcome};

use eap_method::Report;
use login_setup::{PeerSetup, ServerSetup};
use octet_lists::is_among;

/// The verdict on a login.
#[derive(Clone, Copy, PartialEq, Eq, Debug)]
pub enum Verdict {
    /// Both ends report success, with the same method, identities, suite and keys, which both policies
    /// allow.
    Agree,
    /// Both ends report success, but not the same, or something that a policy doesn't allow.
    Apart,
    /// Not both ends report success.
    Unfinished,
}

/// Whether both reports are there and agree.
pub fn judge_reports(
    peer: &PeerSetup,
    server: &ServerSetup,
    one: &Option<Report>,
    other: &Option<Report>,
) -> bool
    ensures { result ≡ agreement_of peer.now server.now one.now other.now }
{
    match one {
        None => false,
        Some(one) => match other {
            None => false,
            Some(other) => agree(peer, server, one, other),
        },
    }
}

/// Whether both reports are equal, and both policies allow them.
fn agree(peer: &PeerSetup, server: &ServerSetup, one: &Report, other: &Report) -> bool
    ensures { result ≡ agree peer.now server.now one.now other.now }
{
    is_same(one, other) && peer_agrees(peer, one) && server_agrees(server, one)
}

/// Whether two reports are equal.
fn is_same(one: &Report, other: &Report) -> bool
    ensures { result ≡ same_report one.now other.now }
{
    one.method == other.method
        && one.id_p.as_slice() == other.id_p.as_slice()
        && one.id_s.as_slice() == other.id_s.as_slice()
        && one.suite == other.suite
        && one.msk.as_slice() == other.msk.as_slice()
        && one.emsk.as_slice() == other.emsk.as_slice()
}

/// Whether the peer's policy allows the method, the server's name and the suite.
fn peer_agrees(setup: &PeerSetup, report: &Report) -> bool
    ensures { result ≡ peer_agrees setup.now report.now }
{
    is_among(setup.methods.as_slice(), report.method)
        && setup.accepts.allows(report.id_s.as_slice())
        && report.has_allowed_suite(setup.suites.as_slice())
}

/// Whether the server's policy allows the method, the suite and the user.
fn server_agrees(setup: &ServerSetup, report: &Report) -> bool
    ensures { result ≡ server_agrees setup.now report.now }
{
    is_among(setup.methods.as_slice(), report.method)
        && report.has_allowed_suite(setup.suites.as_slice())
        && welcomes(setup, report)
}

/// Whether the server has a user of this name and method who isn't barred.
fn welcomes(setup: &ServerSetup, report: &Report) -> bool
    ensures { result ≡ is_welcome (user_of setup.now.users report.now.id_p report.now.method) }
{
    match setup.users.find(report.id_p.as_slice(), report.method) {
        None => false,
        Some(user) => !user.barred,
    }
}
