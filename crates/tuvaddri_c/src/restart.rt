//! A peer, a stand-alone server or a backend begins a new conversation.

ghost use Rattle.std.specs.Prelude.{◌≡◌, true, false};
ghost use Rattle.peer_machine.specs.PeerTable.{peer_restart};
ghost use Rattle.peer_machine.specs.PeerTable as peer;
ghost use Rattle.server_machine.specs.ServerTable.{server_restart};
ghost use Rattle.server_machine.specs.ServerTable as server;
ghost use Rattle.end_objects.specs.Objects.{peer_object_shown, server_object_shown};
ghost use Rattle.tuvaddri_c.specs.Ends.{IfPeer, AsPeer, IfServer, AsServer, IfBackend, AsBackend};
ghost use Rattle.tuvaddri_c.specs.Ends.{peer_has_objects, server_has_objects, is_peer};
ghost use Rattle.tuvaddri_c.specs.Ends.{can_restart_peer, can_restart_server, can_restart};
ghost use Rattle.tuvaddri_c.specs.Sent.{sent_of, none_sent};
ghost use Rattle.tuvaddri_c.specs.Settled.{is_settled};
ghost use Rattle.tuvaddri_c.specs.Turns.{PeerDoes, ServerDoes, IsMisplaced};

use crate::handle::TuvEnd;
use crate::session::{End, Session};
use crate::turn::TuvTurn;
use octet_lists::{Nonce, Packet};

/// A peer begins a new conversation.
#[tactic(auto, using(crate::proofs::TwoRecords::peer_preserved))]
fn restart_peer(session: &mut Session, nonce: &Nonce) -> TuvTurn
    ensures peer { IfPeer session.old.end
        (λ m. peer_has_objects m ≡ true → AsPeer session.new.end (λ n.
        PeerDoes (peer_restart (peer.now_of peer_object_shown m) nonce.now)
        none_sent result (sent_of session.new) n)) }
    ensures misplaced { can_restart_peer session.old.end ≡ false
        → IsMisplaced session.old result session.new }
    ensures objects { can_restart session.old.end ≡ true → can_restart session.new.end ≡ true }
    ensures settled { is_settled session.old.end ≡ true → is_settled session.new.end ≡ true }
{
    match &mut session.end {
        End::Peer(machine) if machine.has_objects() => {
            let step = machine.restart_step(nonce);
            TuvTurn::of_peer(&step, machine.state(), &mut session.fresh)
        }
        _ => TuvTurn::none(&mut session.fresh),
    }
}

/// A stand-alone server or a backend begins a new conversation.
#[tactic(auto, using(crate::proofs::Does::server_does, crate::proofs::TwoRecords::server_preserved))]
fn restart_server(session: &mut Session, nonce: &Nonce) -> TuvTurn
    ensures server { IfServer session.old.end
        (λ m. server_has_objects m ≡ true → AsServer session.new.end (λ n.
        ServerDoes (server_restart (server.now_of server_object_shown m) nonce.now)
        none_sent result (sent_of session.new) n)) }
    ensures backend { IfBackend session.old.end
        (λ m. server_has_objects m ≡ true → AsBackend session.new.end (λ n.
        ServerDoes (server_restart (server.now_of server_object_shown m) nonce.now)
        none_sent result (sent_of session.new) n)) }
    ensures misplaced { can_restart_server session.old.end ≡ false
        → IsMisplaced session.old result session.new }
    ensures objects { can_restart session.old.end ≡ true → can_restart session.new.end ≡ true }
    ensures settled { is_settled session.old.end ≡ true → is_settled session.new.end ≡ true }
{
    match &mut session.end {
        End::Server(machine, last) if machine.has_objects() => {
            let mut packet = Packet::new();
            let step = machine.restart_step(nonce, &mut packet);
            last.clear();
            session.fresh = false;
            TuvTurn::of(
                &step,
                packet.as_slice(),
                machine.state(),
                last,
                &mut session.fresh,
            )
        }
        End::Backend(machine, last) if machine.has_objects() => {
            let step = machine.restart_step(nonce);
            last.clear();
            session.fresh = false;
            TuvTurn::of(&step, &[], machine.state(), last, &mut session.fresh)
        }
        _ => TuvTurn::none(&mut session.fresh),
    }
}

/// `tuv_end_restart` of a peer.
#[unsafe(no_mangle)]
pub extern "C" fn tuv_peer_restart(end: &mut TuvEnd, nonce: &Nonce) -> TuvTurn
    ensures peer { IfPeer end.old.value.end
        (λ m. peer_has_objects m ≡ true → AsPeer end.new.value.end (λ n.
        PeerDoes (peer_restart (peer.now_of peer_object_shown m) nonce.now)
        none_sent result (sent_of end.new.value) n)) }
    ensures misplaced { can_restart_peer end.old.value.end ≡ false
        → IsMisplaced end.old.value result end.new.value }
    ensures objects { can_restart end.old.value.end ≡ true → can_restart end.new.value.end ≡ true }
    ensures settled { is_settled end.old.value.end ≡ true → is_settled end.new.value.end ≡ true }
{
    restart_peer(end.session(), nonce)
}

/// `tuv_end_restart` of a stand-alone server or a backend.
#[unsafe(no_mangle)]
pub extern "C" fn tuv_server_restart(end: &mut TuvEnd, nonce: &Nonce) -> TuvTurn
    ensures server { IfServer end.old.value.end
        (λ m. server_has_objects m ≡ true → AsServer end.new.value.end (λ n.
        ServerDoes (server_restart (server.now_of server_object_shown m) nonce.now)
        none_sent result (sent_of end.new.value) n)) }
    ensures backend { IfBackend end.old.value.end
        (λ m. server_has_objects m ≡ true → AsBackend end.new.value.end (λ n.
        ServerDoes (server_restart (server.now_of server_object_shown m) nonce.now)
        none_sent result (sent_of end.new.value) n)) }
    ensures misplaced { can_restart_server end.old.value.end ≡ false
        → IsMisplaced end.old.value result end.new.value }
    ensures objects { can_restart end.old.value.end ≡ true → can_restart end.new.value.end ≡ true }
    ensures settled { is_settled end.old.value.end ≡ true → is_settled end.new.value.end ≡ true }
{
    restart_server(end.session(), nonce)
}

/// A new conversation begins, with this nonce and the settings that the end has, in any state, also before a
/// server's start: of a peer, a stand-alone server or a backend, each of whose methods has an object, as its begin
/// leaves it and each call keeps it. A stand-alone server asks for the identity, by its first Identifier; a peer and
/// a backend send nothing. No packet from before is there any more.
#[unsafe(no_mangle)]
pub extern "C" fn tuv_end_restart(end: &mut TuvEnd, nonce: &Nonce) -> TuvTurn
    ensures peer { IfPeer end.old.value.end
        (λ m. peer_has_objects m ≡ true → AsPeer end.new.value.end (λ n.
        PeerDoes (peer_restart (peer.now_of peer_object_shown m) nonce.now)
        none_sent result (sent_of end.new.value) n)) }
    ensures server { IfServer end.old.value.end
        (λ m. server_has_objects m ≡ true → AsServer end.new.value.end (λ n.
        ServerDoes (server_restart (server.now_of server_object_shown m) nonce.now)
        none_sent result (sent_of end.new.value) n)) }
    ensures backend { IfBackend end.old.value.end
        (λ m. server_has_objects m ≡ true → AsBackend end.new.value.end (λ n.
        ServerDoes (server_restart (server.now_of server_object_shown m) nonce.now)
        none_sent result (sent_of end.new.value) n)) }
    ensures misplaced { can_restart end.old.value.end ≡ false
        → IsMisplaced end.old.value result end.new.value }
    ensures objects { can_restart end.old.value.end ≡ true → can_restart end.new.value.end ≡ true }
    ensures settled { is_settled end.old.value.end ≡ true → is_settled end.new.value.end ≡ true }
{
    let session = end.session();
    if session.end.is_peer() {
        restart_peer(session, nonce)
    } else {
        restart_server(session, nonce)
    }
}
