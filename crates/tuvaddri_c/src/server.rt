//! The stand-alone server of RFC 4137 section 5, and the backend of section 6.

ghost use Rattle.std.specs.Prelude.{◌≡◌, ◌≤◌, true, false, map, None, IfSome};
ghost use Rattle.eap_method.specs.BothServers.{both_of};
ghost use Rattle.eap_method.specs.Peer.{have_each};
ghost use Rattle.eap_method.specs.Server.{server_kinds};
ghost use Rattle.server_machine.specs.ServerTable.{server_start, server_timeout, initial_server};
ghost use Rattle.server_machine.specs.ServerTable.{initial_backend, is_started, is_backend};
ghost use Rattle.server_machine.specs.ServerTable.{has_timer};
ghost use Rattle.server_machine.specs.ServerTable as server;
ghost use Rattle.server_machine.specs.declared.variables.Role.TheVariants.{StandAlone};
ghost use Rattle.end_objects.specs.Objects.{server_object_shown};
ghost use Rattle.end_objects.specs.Refusals.{IsSoundOther, server_refusal, stand_alone_refusal};
ghost use Rattle.end_objects.specs.Settings.{settings_of, kinds_of, server_setup_of};
ghost use Rattle.tuvaddri_c.specs.Answers.{ok, no_memory, refusal_number};
ghost use Rattle.tuvaddri_c.specs.Ends.{IfServer, AsServer, AsBackend, can_restart};
ghost use Rattle.tuvaddri_c.specs.Ends as ends;
ghost use Rattle.tuvaddri_c.specs.Sent.{sent_of, sent_packet, none_sent};
ghost use Rattle.tuvaddri_c.specs.Settled.{is_settled};
ghost use Rattle.tuvaddri_c.specs.Turns.{ServerDoes, IsMisplaced};

use crate::answers::{NO_MEMORY, STARTED, number_of_refusal};
use crate::by_method::add_users;
use crate::handle::TuvEnd;
use crate::sent::empty_packet;
use crate::session::{Backend, End, Server};
use crate::turn::TuvTurn;
use end_objects::{
    ServerObject, Settings, kinds_of, server_alone, server_objects, server_refusal,
    stand_alone_refusal,
};
use octet_lists::{Nonce, Packet};
use server_machine::Role;
use std::alloc::Global;

/// Makes the end a stand-alone server with these settings. (It is built where it stays, and nothing of it is copied.)
#[tactic(auto, using(crate::proofs::TwoRecords::server_preserved, crate::proofs::Stays::server_created), unfolding(end_objects::specs::Settings::server_setup_of))]
fn store_machine(
    end: &mut End,
    settings: &Settings,
    nonce: &Nonce,
    first_id: u8,
    max_retrans: u8,
    methods: Vec<ServerObject>,
    last: Box<Packet>,
)
    requires accepted { server_refusal (settings_of settings.now) ≡ None }
    requires other { IsSoundOther (settings_of settings.now) }
    requires few { max_retrans ≤ 10 }
    requires objects { have_each (server_kinds (map server_object_shown methods.items)) (kinds_of
        (settings_of settings.now)) ≡ true }
    ensures initial { AsServer end.new (λ n. server.now_of server_object_shown n
        ≡ initial_server StandAlone (server_setup_of (settings_of settings.now) nonce.now)
        (both_of (kinds_of (settings_of settings.now))) first_id max_retrans) }
    ensures objects { can_restart end.new ≡ true }
    ensures settled { is_settled end.new ≡ true }
    ensures sent { sent_packet end.new ≡ last.value }
{
    let role = Role::StandAlone;
    *end = End::Server(
        Server::unbegun(
            role,
            server_alone(settings, nonce),
            first_id,
            max_retrans,
            methods,
        ),
        last,
    );
    match end {
        End::Server(machine, _) => {
            add_users(machine, settings);
            machine.make_again(nonce);
        }
        _ => {}
    }
}

/// Makes the end a stand-alone server that has not started, and answers 0. Its first Request has the Identifier
/// `first_id`; a Request is sent again at most `max_retrans` times, at most 10. Else it answers as `tuv_peer_begin`.
#[unsafe(no_mangle)]
pub extern "C" fn tuv_server_begin(
    alloc: Global,
    end: &mut TuvEnd,
    settings: &Settings,
    nonce: &Nonce,
    first_id: u8,
    max_retrans: u8,
) -> u8
    ensures refused { IfSome (stand_alone_refusal (settings_of settings.now) max_retrans)
        (λ reason. result ≡ refusal_number reason) }
    ensures started { stand_alone_refusal (settings_of settings.now) max_retrans ≡ None
        → (result ≡ no_memory → ⊥) → result ≡ ok }
    ensures initial { result ≡ ok
        → AsServer end.new.value.end (λ n. server.now_of server_object_shown n
        ≡ initial_server StandAlone (server_setup_of (settings_of settings.now) nonce.now)
        (both_of (kinds_of (settings_of settings.now))) first_id max_retrans) }
    ensures objects { result ≡ ok → can_restart end.new.value.end ≡ true }
    ensures settled { result ≡ ok → is_settled end.new.value.end ≡ true }
    ensures sent { result ≡ ok → sent_of end.new.value ≡ none_sent }
    ensures unchanged { (result ≡ ok → ⊥) → end.new.value ≡ end.old.value }
{
    if let Some(refusal) = stand_alone_refusal(settings, max_retrans) {
        return number_of_refusal(refusal);
    }
    let kinds = kinds_of(settings);
    let Ok(methods) = server_objects(alloc, kinds.as_slice()) else {
        return NO_MEMORY;
    };
    let Some(last) = empty_packet(alloc) else {
        return NO_MEMORY;
    };
    let session = end.session();
    let end = &mut session.end;
    store_machine(end, settings, nonce, first_id, max_retrans, methods, last);
    session.fresh = false;
    STARTED
}

/// Makes the end a backend with these settings, likewise.
#[tactic(auto, using(crate::proofs::TwoRecords::server_preserved, crate::proofs::Stays::server_created), unfolding(end_objects::specs::Settings::server_setup_of))]
fn store_backend(
    end: &mut End,
    settings: &Settings,
    nonce: &Nonce,
    methods: Vec<ServerObject>,
    last: Box<Packet>,
)
    requires accepted { server_refusal (settings_of settings.now) ≡ None }
    requires other { IsSoundOther (settings_of settings.now) }
    requires objects { have_each (server_kinds (map server_object_shown methods.items)) (kinds_of
        (settings_of settings.now)) ≡ true }
    ensures initial { AsBackend end.new (λ n. server.now_of server_object_shown n
        ≡ initial_backend (server_setup_of (settings_of settings.now) nonce.now)
        (both_of (kinds_of (settings_of settings.now)))) }
    ensures objects { can_restart end.new ≡ true }
    ensures settled { is_settled end.new ≡ true }
    ensures sent { sent_packet end.new ≡ last.value }
{
    *end = End::Backend(
        Backend::unbegun(server_alone(settings, nonce), methods),
        last,
    );
    match end {
        End::Backend(backend, _) => {
            add_users(backend, settings);
            backend.make_again(nonce);
        }
        _ => {}
    }
}

/// Makes the end a backend that waits for its first Response, and answers 0. Else it answers as `tuv_peer_begin`.
#[unsafe(no_mangle)]
pub extern "C" fn tuv_backend_begin(
    alloc: Global,
    end: &mut TuvEnd,
    settings: &Settings,
    nonce: &Nonce,
) -> u8
    ensures refused { IfSome (server_refusal (settings_of settings.now))
        (λ reason. result ≡ refusal_number reason) }
    ensures started { server_refusal (settings_of settings.now) ≡ None → (result ≡ no_memory → ⊥)
        → result ≡ ok }
    ensures initial { result ≡ ok
        → AsBackend end.new.value.end (λ n. server.now_of server_object_shown n
        ≡ initial_backend (server_setup_of (settings_of settings.now) nonce.now)
        (both_of (kinds_of (settings_of settings.now)))) }
    ensures objects { result ≡ ok → can_restart end.new.value.end ≡ true }
    ensures settled { result ≡ ok → is_settled end.new.value.end ≡ true }
    ensures sent { result ≡ ok → sent_of end.new.value ≡ none_sent }
    ensures unchanged { (result ≡ ok → ⊥) → end.new.value ≡ end.old.value }
{
    if let Some(refusal) = server_refusal(settings) {
        return number_of_refusal(refusal);
    }
    let kinds = kinds_of(settings);
    let Ok(methods) = server_objects(alloc, kinds.as_slice()) else {
        return NO_MEMORY;
    };
    let Some(last) = empty_packet(alloc) else {
        return NO_MEMORY;
    };
    let session = end.session();
    store_backend(&mut session.end, settings, nonce, methods, last);
    session.fresh = false;
    STARTED
}

/// The server starts: one that has not started.
#[unsafe(no_mangle)]
#[tactic(auto, using(crate::proofs::Does::server_does, crate::proofs::TwoRecords::server_preserved))]
pub extern "C" fn tuv_server_start(end: &mut TuvEnd) -> TuvTurn
    ensures server { IfServer end.old.value.end (λ m. is_started m.vars ≡ false
        → is_backend m.vars ≡ false → AsServer end.new.value.end (λ n.
        ServerDoes (server_start (server.now_of server_object_shown m))
        (sent_of end.old.value) result (sent_of end.new.value) n)) }
    ensures misplaced { ends.can_start end.old.value.end ≡ false
        → IsMisplaced end.old.value result end.new.value }
    ensures objects { can_restart end.old.value.end ≡ true → can_restart end.new.value.end ≡ true }
    ensures settled { is_settled end.old.value.end ≡ true → is_settled end.new.value.end ≡ true }
{
    let session = end.session();
    match &mut session.end {
        End::Server(machine, last) if !machine.started() && !machine.is_backend() => {
            let mut packet = Packet::new();
            let step = machine.start_step(&mut packet);
            TuvTurn::of(
                &step,
                packet.as_slice(),
                machine.state(),
                last,
                &mut session.fresh,
            )
        }
        _ => TuvTurn::none(&mut session.fresh),
    }
}

/// The server's retransmission timer ends: of one that has it running.
#[unsafe(no_mangle)]
#[tactic(auto, using(crate::proofs::Does::server_does, crate::proofs::TwoRecords::server_preserved))]
pub extern "C" fn tuv_server_timeout(end: &mut TuvEnd) -> TuvTurn
    ensures server { IfServer end.old.value.end
        (λ m. has_timer m.vars ≡ true → AsServer end.new.value.end (λ n.
        ServerDoes (server_timeout (server.now_of server_object_shown m))
        (sent_of end.old.value) result (sent_of end.new.value) n)) }
    ensures misplaced { ends.has_timer end.old.value.end ≡ false
        → IsMisplaced end.old.value result end.new.value }
    ensures objects { can_restart end.old.value.end ≡ true → can_restart end.new.value.end ≡ true }
    ensures settled { is_settled end.old.value.end ≡ true → is_settled end.new.value.end ≡ true }
{
    let session = end.session();
    match &mut session.end {
        End::Server(machine, last) if machine.wants_timer() => {
            let mut packet = Packet::new();
            let step = machine.timeout_step(&mut packet);
            TuvTurn::of(
                &step,
                packet.as_slice(),
                machine.state(),
                last,
                &mut session.fresh,
            )
        }
        _ => TuvTurn::none(&mut session.fresh),
    }
}
