//! Worlds stepped by hand.

ghost use Rattle.std.specs.Prelude.{IfOk};
ghost use Rattle.scenario_text.specs.Valid.{IsValidSetup};

use crate::objects::{ObjectWorld, world};
use eap_world::{Brief, MAX_EVENTS, SentNumber, Skip};
use login_setup::{Event, Party, Setup};
use scenario_text::ScenarioReader;
use std::alloc::Global;
use std::process::Abort;
use std::test::Fail;
use text_tables::LineFault;

/// The settings of a scenario.
fn settings_in(scenario: &str) -> Result<Setup, LineFault>
    ensures { IfOk result IsValidSetup }
{
    let mut reader = ScenarioReader::new();
    for line in scenario.lines() {
        let _ = reader.line_into(line.as_bytes(), &mut Event::Idle);
    }
    reader.setup()
}

/// The world of a scenario's settings, which has started.
pub(crate) fn begun(rt: &impl Abort, alloc: Global, scenario: &str) -> Result<ObjectWorld, Fail> {
    let Ok(setup) = settings_in(scenario) else {
        panic!(rt; "no settings");
    };
    let mut world = world(alloc, setup)?;
    assert!(rt; !world.started() && world.has_objects());
    world.start_brief()?;
    Ok(world)
}

/// The result of the next event.
pub(crate) fn step(rt: &impl Abort, world: &mut ObjectWorld, event: &Event) -> Result<Brief, Fail> {
    assert!(rt; world.started() && world.counts().events < MAX_EVENTS && world.has_objects());
    Ok(world.step_brief(event)?)
}

/// Alice and the server srv, without methods.
const WITHOUT_METHODS: &str = "\
eap-scenario 1
mode alone
peer-name alice
peer-server srv
peer-methods -
peer-nonce 1111111111111111111111111111111111111111111111111111111111111111
server-name srv
server-methods -
server-nonce 2222222222222222222222222222222222222222222222222222222222222222
events
";

/// True if the peer's timer, which it hasn't, is skipped for this reason.
fn skips_timer(rt: &impl Abort, world: &mut ObjectWorld, wanted: Skip) -> Result<bool, Fail> {
    let told = step(rt, world, &Event::Timeout { party: Party::Peer })?;
    Ok(told.skip == Some(wanted) && told.path.as_slice().is_empty())
}

/// True if the peer has no timer before its end, and is over after it.
fn has_no_timer(rt: &impl Abort, world: &mut ObjectWorld) -> Result<bool, Fail> {
    let has_none = skips_timer(rt, world, Skip::NoTimer)?;
    step(rt, world, &Event::Idle)?;
    Ok(has_none && skips_timer(rt, world, Skip::Ended)?)
}

// No text can say so.
#[test]
fn a_peer_has_no_timer(rt: HostRuntime) -> Result<(), Fail> {
    let mut world = begun(&rt, rt.alloc(), WITHOUT_METHODS)?;
    let has_none = has_no_timer(&rt, &mut world)?;
    assert!(rt; has_none);
    Ok(())
}

fn sent_number(sent: &Option<SentNumber>) -> u32 {
    match sent {
        None => 0,
        Some(sent) => sent.number,
    }
}

/// True if the Request and the Response that are sent again have the numbers 3 and 4, and are those of packets 1 and 2.
fn are_sent_again(rt: &impl Abort, world: &mut ObjectWorld) -> Result<bool, Fail> {
    let timeout = Event::Timeout {
        party: Party::Server,
    };
    let request = step(rt, world, &timeout)?;
    let response = step(rt, world, &Event::Deliver { number: 3 })?;
    let numbers = sent_number(&request.sent) == 3 && sent_number(&response.sent) == 4;
    let is_first = world.packet(1) == Some(world.octets_of(&request));
    let is_second = world.packet(2) == Some(world.octets_of(&response));
    Ok(numbers && is_first && is_second)
}

/// True if the packets that are sent again, after those of 5 and 10 octets, take no room.
fn stores_once(rt: &impl Abort, world: &mut ObjectWorld) -> Result<bool, Fail> {
    step(rt, world, &Event::Deliver { number: 1 })?;
    let is_stored = world.stored() == 15;
    let are_again = are_sent_again(rt, world)?;
    Ok(is_stored && are_again && world.stored() == 15 && world.packet(5).is_none())
}

// The server's Request is sent again after the peer's Response, and then that Response.
#[test]
fn what_is_sent_again_is_stored_once(rt: HostRuntime) -> Result<(), Fail> {
    let mut world = begun(&rt, rt.alloc(), WITHOUT_METHODS)?;
    let is_once = stores_once(&rt, &mut world)?;
    assert!(rt; is_once);
    Ok(())
}
