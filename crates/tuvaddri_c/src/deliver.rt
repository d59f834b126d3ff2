//! Octets arrive at a peer, a stand-alone server or a backend. What a peer alone does, and what a server alone, are calls
//! of their own, so that a program that makes one of them alone links no other end.

ghost use Rattle.std.specs.Prelude.{◌≡◌, true, false};
ghost use Rattle.peer_machine.specs.Expanded.{peer_receives};
ghost use Rattle.peer_machine.specs.PeerTable as peer;
ghost use Rattle.server_machine.specs.Expanded.{server_receives};
ghost use Rattle.server_machine.specs.ServerTable.{is_ready};
ghost use Rattle.server_machine.specs.ServerTable as server;
ghost use Rattle.end_objects.specs.Objects.{peer_object_shown, server_object_shown};
ghost use Rattle.tuvaddri_c.specs.Ends.{IfPeer, AsPeer, IfServer, AsServer, IfBackend, AsBackend};
ghost use Rattle.tuvaddri_c.specs.Ends.{is_peer, receives_responses, receives_octets, can_restart};
ghost use Rattle.tuvaddri_c.specs.Sent.{sent_of};
ghost use Rattle.tuvaddri_c.specs.Settled.{is_settled};
ghost use Rattle.tuvaddri_c.specs.Turns.{PeerDoes, ServerDoes, IsMisplaced};

use crate::handle::TuvEnd;
use crate::session::{End, Session};
use crate::turn::TuvTurn;
use eap_method::{NoRecords, Tags};
use octet_lists::Packet;

/// Octets arrive at a peer.
#[tactic(auto, using(crate::proofs::TwoRecords::peer_preserved))]
#[inline(never)]
fn deliver_to_peer(session: &mut Session, octets: &[u8]) -> TuvTurn
    ensures peer { IfPeer session.old.end (λ m. AsPeer session.new.end (λ n.
        PeerDoes (peer_receives (peer.now_of peer_object_shown m) octets.now)
        (sent_of session.old) result (sent_of session.new) n)) }
    ensures misplaced { is_peer session.old.end ≡ false
        → IsMisplaced session.old result session.new }
    ensures objects { can_restart session.old.end ≡ true → can_restart session.new.end ≡ true }
    ensures settled { is_settled session.old.end ≡ true → is_settled session.new.end ≡ true }
{
    match &mut session.end {
        End::Peer(machine) => {
            let mut packet = Packet::new();
            let mut tags: Tags<NoRecords> = Tags::new();
            let step = machine.deliver_step(octets, &mut packet, &mut tags);
            TuvTurn::of_peer(&step, machine.state(), &mut session.fresh)
        }
        _ => TuvTurn::none(&mut session.fresh),
    }
}

/// Octets arrive at a stand-alone server that has started, or at a backend.
#[tactic(auto, using(crate::proofs::Does::server_does, crate::proofs::TwoRecords::server_preserved))]
#[inline(never)]
fn deliver_to_server(session: &mut Session, octets: &[u8]) -> TuvTurn
    ensures server { IfServer session.old.end
        (λ m. is_ready m.vars ≡ true → AsServer session.new.end (λ n.
        ServerDoes (server_receives (server.now_of server_object_shown m) octets.now)
        (sent_of session.old) result (sent_of session.new) n)) }
    ensures backend { IfBackend session.old.end (λ m. AsBackend session.new.end (λ n.
        ServerDoes (server_receives (server.now_of server_object_shown m) octets.now)
        (sent_of session.old) result (sent_of session.new) n)) }
    ensures misplaced { receives_responses session.old.end ≡ false
        → IsMisplaced session.old result session.new }
    ensures objects { can_restart session.old.end ≡ true → can_restart session.new.end ≡ true }
    ensures settled { is_settled session.old.end ≡ true → is_settled session.new.end ≡ true }
{
    let mut packet = Packet::new();
    let mut tags: Tags<NoRecords> = Tags::new();
    match &mut session.end {
        End::Server(machine, last) if machine.ready() => {
            let step = machine.deliver_step(octets, &mut packet, &mut tags);
            TuvTurn::of(
                &step,
                packet.as_slice(),
                machine.state(),
                last,
                &mut session.fresh,
            )
        }
        End::Backend(machine, last) => {
            let step = machine.deliver_step(octets, &mut packet, &mut tags);
            TuvTurn::of(
                &step,
                packet.as_slice(),
                machine.state(),
                last,
                &mut session.fresh,
            )
        }
        _ => TuvTurn::none(&mut session.fresh),
    }
}

/// Octets arrive at a peer.
#[unsafe(no_mangle)]
pub extern "C" fn tuv_peer_deliver(end: &mut TuvEnd, octets: &[u8]) -> TuvTurn
    ensures peer { IfPeer end.old.value.end (λ m. AsPeer end.new.value.end (λ n.
        PeerDoes (peer_receives (peer.now_of peer_object_shown m) octets.now)
        (sent_of end.old.value) result (sent_of end.new.value) n)) }
    ensures misplaced { is_peer end.old.value.end ≡ false
        → IsMisplaced end.old.value result end.new.value }
    ensures objects { can_restart end.old.value.end ≡ true → can_restart end.new.value.end ≡ true }
    ensures settled { is_settled end.old.value.end ≡ true → is_settled end.new.value.end ≡ true }
{
    deliver_to_peer(end.session(), octets)
}

/// Octets arrive at a stand-alone server that has started, or a backend.
#[unsafe(no_mangle)]
pub extern "C" fn tuv_server_deliver(end: &mut TuvEnd, octets: &[u8]) -> TuvTurn
    ensures server { IfServer end.old.value.end
        (λ m. is_ready m.vars ≡ true → AsServer end.new.value.end (λ n.
        ServerDoes (server_receives (server.now_of server_object_shown m) octets.now)
        (sent_of end.old.value) result (sent_of end.new.value) n)) }
    ensures backend { IfBackend end.old.value.end (λ m. AsBackend end.new.value.end (λ n.
        ServerDoes (server_receives (server.now_of server_object_shown m) octets.now)
        (sent_of end.old.value) result (sent_of end.new.value) n)) }
    ensures misplaced { receives_responses end.old.value.end ≡ false
        → IsMisplaced end.old.value result end.new.value }
    ensures objects { can_restart end.old.value.end ≡ true → can_restart end.new.value.end ≡ true }
    ensures settled { is_settled end.old.value.end ≡ true → is_settled end.new.value.end ≡ true }
{
    deliver_to_server(end.session(), octets)
}

/// Octets arrive at a peer, a stand-alone server that has started, or a backend.
#[unsafe(no_mangle)]
pub extern "C" fn tuv_end_deliver(end: &mut TuvEnd, octets: &[u8]) -> TuvTurn
    ensures peer { IfPeer end.old.value.end (λ m. AsPeer end.new.value.end (λ n.
        PeerDoes (peer_receives (peer.now_of peer_object_shown m) octets.now)
        (sent_of end.old.value) result (sent_of end.new.value) n)) }
    ensures server { IfServer end.old.value.end
        (λ m. is_ready m.vars ≡ true → AsServer end.new.value.end (λ n.
        ServerDoes (server_receives (server.now_of server_object_shown m) octets.now)
        (sent_of end.old.value) result (sent_of end.new.value) n)) }
    ensures backend { IfBackend end.old.value.end (λ m. AsBackend end.new.value.end (λ n.
        ServerDoes (server_receives (server.now_of server_object_shown m) octets.now)
        (sent_of end.old.value) result (sent_of end.new.value) n)) }
    ensures misplaced { receives_octets end.old.value.end ≡ false
        → IsMisplaced end.old.value result end.new.value }
    ensures objects { can_restart end.old.value.end ≡ true → can_restart end.new.value.end ≡ true }
    ensures settled { is_settled end.old.value.end ≡ true → is_settled end.new.value.end ≡ true }
{
    let session = end.session();
    if session.end.is_peer() {
        deliver_to_peer(session, octets)
    } else {
        deliver_to_server(session, octets)
    }
}
