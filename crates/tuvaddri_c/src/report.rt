//! What is reported of a method that succeeded.

ghost use Rattle.std.specs.Prelude.{◌≡◌, ◌==◌, IsTrue, None, IfSome};
ghost use Rattle.tuvaddri_c.specs.Reports.{report_size, both, end_stored, stored_at_peer};
ghost use Rattle.tuvaddri_c.specs.Reports.{stored_at_server, IsReport};

use crate::handle::TuvEnd;
use crate::held::{peer_object_of, server_object_of};
use crate::rooms::write_octets;
use crate::session::End;
use eap_method::{PeerMethod, Report, ServerMethod};
use end_objects::Nonces;
use octet_lists::MAX_NAME;

/// The octets of [`TuvReport`] on 64 bits.
pub const REPORT_SIZE: usize = 712;

/// What an end has after a method that succeeded.
#[repr(C)]
#[derive(Drop)]
pub struct TuvReport {
    /// [`REPORT_SIZE`], as the caller writes it. A caller that knows another struct has another number here.
    pub size: usize,
    /// The method: 47 (EAP-PSK) or 51 (EAP-GPSK).
    pub method: u8,
    /// The suite of EAP-GPSK, 1 or 2; 0 for EAP-PSK.
    pub suite: u8,
    /// The octets of the peer's name, which are at the start of `peer`.
    pub peer_length: u8,
    /// The octets of the server's name, which are at the start of `server`.
    pub server_length: u8,
    pub peer: [u8; MAX_NAME],
    pub server: [u8; MAX_NAME],
    /// The Master Session Key (RFC 3748 section 7.10).
    pub msk: [u8; 64],
    /// The Extended Master Session Key (RFC 3748 section 7.10).
    pub emsk: [u8; 64],
    /// The octets of each nonce, 16 of EAP-PSK or 32 of EAP-GPSK, which are at the start of `peer_rand` and of
    /// `server_rand`.
    pub rand_length: u8,
    pub peer_rand: [u8; 32],
    pub server_rand: [u8; 32],
}

/// Writes what the end has, and answers true. If it has nothing, or the struct has another size, it answers false
/// and writes nothing.
#[unsafe(no_mangle)]
pub extern "C" fn tuv_end_report(end: &mut TuvEnd, report: &mut TuvReport) -> bool
    ensures same { end.new.value ≡ end.old.value }
    ensures stored { report.old.size ≡ report_size → IfSome (end_stored end.old.value.end) (λ held.
        IsTrue result × IsReport held report.old report.new) }
    ensures none { end_stored end.old.value.end ≡ None → (IsTrue result → ⊥)
        × (report.new ≡ report.old) }
    ensures bad_size { (report.old.size ≡ report_size → ⊥) → (IsTrue result → ⊥)
        × (report.new ≡ report.old) }
{
    if !is_known(report) {
        return false;
    }
    let end = &end.session().end;
    if end.is_at_peer() {
        report_peer(end, report)
    } else {
        report_server(end, report)
    }
}

/// `tuv_end_report` of a peer, or of a peer's method.
#[unsafe(no_mangle)]
pub extern "C" fn tuv_peer_report(end: &mut TuvEnd, report: &mut TuvReport) -> bool
    ensures same { end.new.value ≡ end.old.value }
    ensures stored { report.old.size ≡ report_size → IfSome (stored_at_peer
        end.old.value.end) (λ held. IsTrue result × IsReport held report.old report.new) }
    ensures none { stored_at_peer end.old.value.end ≡ None → (IsTrue result → ⊥)
        × (report.new ≡ report.old) }
    ensures bad_size { (report.old.size ≡ report_size → ⊥) → (IsTrue result → ⊥)
        × (report.new ≡ report.old) }
{
    is_known(report) && report_peer(&end.session().end, report)
}

/// `tuv_end_report` of a stand-alone server, of a backend, or of a server's method.
#[unsafe(no_mangle)]
pub extern "C" fn tuv_server_report(end: &mut TuvEnd, report: &mut TuvReport) -> bool
    ensures same { end.new.value ≡ end.old.value }
    ensures stored { report.old.size ≡ report_size → IfSome (stored_at_server
        end.old.value.end) (λ held. IsTrue result × IsReport held report.old report.new) }
    ensures none { stored_at_server end.old.value.end ≡ None → (IsTrue result → ⊥)
        × (report.new ≡ report.old) }
    ensures bad_size { (report.old.size ≡ report_size → ⊥) → (IsTrue result → ⊥)
        × (report.new ≡ report.old) }
{
    is_known(report) && report_server(&end.session().end, report)
}

/// Whether the struct is the one that is known here.
fn is_known(report: &TuvReport) -> bool
    ensures { result ≡ (report.now.size == report_size) }
{
    report.size == REPORT_SIZE
}

/// Writes what a peer or its method has.
fn report_peer(end: &End, report: &mut TuvReport) -> bool
    ensures stored { IfSome (stored_at_peer end.now)
        (λ held. IsTrue result × IsReport held report.old report.new) }
    ensures none { stored_at_peer end.now ≡ None → (IsTrue result → ⊥) × (report.new ≡ report.old) }
{
    match peer_object_of(end) {
        None => false,
        Some(object) => write_end_report(&object.report(), &object.nonces(), report),
    }
}

/// Writes what a server or its method has.
fn report_server(end: &End, report: &mut TuvReport) -> bool
    ensures stored { IfSome (stored_at_server end.now)
        (λ held. IsTrue result × IsReport held report.old report.new) }
    ensures none { stored_at_server end.now ≡ None → (IsTrue result → ⊥)
        × (report.new ≡ report.old) }
{
    match server_object_of(end) {
        None => false,
        Some(object) => write_end_report(&object.report(), &object.nonces(), report),
    }
}

fn write_end_report(held: &Option<Report>, nonces: &Option<Nonces>, report: &mut TuvReport) -> bool
    ensures stored { IfSome (both held.now nonces.now)
        (λ held. IsTrue result × IsReport held report.old report.new) }
    ensures none { both held.now nonces.now ≡ None → (IsTrue result → ⊥)
        × (report.new ≡ report.old) }
{
    match held {
        None => false,
        Some(held) => match nonces {
            None => false,
            Some(nonces) => {
                write(held, nonces, report);
                true
            }
        },
    }
}

fn write(held: &Report, nonces: &Nonces, report: &mut TuvReport)
    ensures { IsReport (record { report = held.now; nonces = nonces.now }) report.old report.new }
{
    report.method = held.method;
    report.suite = held.suite;
    report.peer_length = write_octets(held.id_p.as_slice(), &mut report.peer) as u8;
    report.server_length = write_octets(held.id_s.as_slice(), &mut report.server) as u8;
    let msk = held.msk;
    report.msk = msk;
    let emsk = held.emsk;
    report.emsk = emsk;
    report.rand_length = write_octets(nonces.peer.as_slice(), &mut report.peer_rand) as u8;
    write_octets(nonces.server.as_slice(), &mut report.server_rand);
}
