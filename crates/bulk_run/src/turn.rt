//! One event of a conversation.

ghost use Rattle.std.specs.Prelude.{◌≡◌, ◌<◌, ◌+◌, ◌%◌, ℕ, List, [], length, true, false, IfOk};
ghost use Rattle.login_setup.specs.declared.event.Event.{Event};
ghost use Rattle.login_setup.specs.declared.setup.Setup.{Setup};
ghost use Rattle.eap_world.specs.World.{HasObjects, now_of, octets_of};
ghost use Rattle.bulk_run.specs.ObjectMethods.{PreservesMethods};
ghost use Rattle.eap_world.specs.Sent.{packet_numbered};
ghost use Rattle.bulk_run.specs.Conversation.{choice, chosen, with_event};
ghost use Rattle.bulk_run.specs.RunningEnd.{AreFew, sent_after};
ghost use Rattle.world_laws.specs.Runs.{run_of, StartsRun, HasContinued};

use eap_method::{PeerMethod, ServerMethod};
use eap_world::{Brief, MAX_EVENTS, Memory, World};
use login_setup::{Event, Party};

/// Starts a world in which nothing was sent, and answers how many packets were sent then. Each method of an end has an object.
#[tactic(auto, using(crate::proofs::TwoRecords::same_methods))]
pub fn start_run<P: PeerMethod, S: ServerMethod>(world: &mut World<P, S>) -> Result<u32, Memory>
    requires unstarted { world.old.started ≡ false }
    requires unsent { world.old.sent ≡ [] }
    requires objects { HasObjects P.peer_shown S.server_shown world.old }
    ensures run { IfOk result
        (λ packets. StartsRun P.peer_shown S.server_shown world.old world.new) }
    ensures methods { PreservesMethods P.peer_shown S.server_shown world.old world.new }
    ensures objects { HasObjects P.peer_shown S.server_shown world.new }
    ensures started { IfOk result (λ packets. world.new.started ≡ true) }
    ensures packets { IfOk result (λ packets. packets ≡ length world.new.sent) }
    ensures few { IfOk result (λ packets. world.new.counts ≡ world.old.counts) }
{
    let told = world.start_brief()?;
    Ok(sent_after(0, &told))
}

/// Takes an event. `packets` counts the packets that were sent. Each method of an end has an object.
#[tactic(auto, using(crate::proofs::TwoRecords::same_methods))]
pub fn step_event<P: PeerMethod, S: ServerMethod>(
    world: &mut World<P, S>,
    packets: &mut u32,
    event: &Event,
) -> Result<(), Memory>
    requires started { world.old.started ≡ true }
    requires capacity { world.old.counts.events < MAX_EVENTS }
    requires packets { packets.old ≡ length world.old.sent }
    requires objects { HasObjects P.peer_shown S.server_shown world.old }
    ensures run { IfOk result
        (λ done. HasContinued P.peer_shown S.server_shown event.now world.old world.new) }
    ensures methods { PreservesMethods P.peer_shown S.server_shown world.old world.new }
    ensures objects { HasObjects P.peer_shown S.server_shown world.new }
    ensures started { IfOk result (λ done. world.new.started ≡ true) }
    ensures packets { IfOk result (λ done. packets.new ≡ length world.new.sent) }
    ensures few { IfOk result (λ done. (most : ℕ) → AreFew world.old.counts most
        → AreFew world.new.counts (most + 1)) }
{
    let told = world.step_brief(event)?;
    *packets = sent_after(*packets, &told);
    Ok(())
}

/// How many packets were sent, if so many were before.
fn sent_after(before: u32, told: &Brief) -> u32
    ensures { result ≡ sent_after before told.now.sent }
{
    match told.sent {
        None => before,
        Some(packet) => packet.number,
    }
}

/// Takes the event that two octets choose, if any.
pub fn step_chosen<P: PeerMethod, S: ServerMethod>(
    world: &mut World<P, S>,
    packets: &mut u32,
    v: u8,
    u: u8,
) -> Result<(), Memory>
    requires started { world.old.started ≡ true }
    requires capacity { world.old.counts.events < MAX_EVENTS }
    requires packets { packets.old ≡ length world.old.sent }
    requires objects { HasObjects P.peer_shown S.server_shown world.old }
    ensures run { IfOk result (λ done. (setup : Setup) (events : List Event)
        → now_of P.peer_shown S.server_shown world.old ≡ run_of setup events
        → now_of P.peer_shown S.server_shown world.new
        ≡ run_of setup (with_event events (chosen world.old.sent v u))) }
    ensures methods { PreservesMethods P.peer_shown S.server_shown world.old world.new }
    ensures objects { HasObjects P.peer_shown S.server_shown world.new }
    ensures started { IfOk result (λ done. world.new.started ≡ true) }
    ensures packets { IfOk result (λ done. packets.new ≡ length world.new.sent) }
    ensures few { IfOk result (λ done. (most : ℕ) → AreFew world.old.counts most
        → AreFew world.new.counts (most + 1)) }
{
    match choose(world, *packets, v, u) {
        None => Ok(()),
        Some(event) => step_event(world, packets, &event),
    }
}

/// The event that two octets choose in this world, if so many packets were sent.
#[tactic(auto, unfolding(crate::specs::Conversation::chosen))]
fn choose<P: PeerMethod, S: ServerMethod>(
    world: &World<P, S>,
    packets: u32,
    v: u8,
    u: u8,
) -> Option<Event>
    requires { packets ≡ length world.now.sent }
    ensures { result ≡ chosen world.now.sent v u }
{
    choice(packets, last_size(world, packets), v, u)
}

/// The length of the packet of this number; 0 if none was sent.
fn last_size<P: PeerMethod, S: ServerMethod>(world: &World<P, S>, number: u32) -> usize
    ensures { result ≡ length (octets_of (packet_numbered world.now.sent number)) }
{
    match world.packet(number) {
        None => 0,
        Some(octets) => octets.len(),
    }
}

/// The event that two octets choose if so many packets were sent, the last of which has this length.
fn choice(packets: u32, size: usize, v: u8, u: u8) -> Option<Event>
    ensures { result ≡ choice packets size v u }
{
    match v % 8 {
        0 => Some(Event::Timeout {
            party: Party::Server,
        }),
        1 => Some(Event::Deliver {
            number: 1 + u32::from(remainder(u, packets as usize)),
        }),
        2 => Some(Event::Alter {
            number: packets,
            place: u16::from(remainder(u, size)),
            mask: 1,
        }),
        3 => None,
        _ => Some(Event::Deliver { number: packets }),
    }
}

/// The octet modulo a count. At least one packet was sent, and each has octets.
fn remainder(octet: u8, count: usize) -> u8
    ensures { result ≡ octet % count }
{
    if count == 0 {
        octet
    } else {
        (usize::from(octet) % count) as u8
    }
}
