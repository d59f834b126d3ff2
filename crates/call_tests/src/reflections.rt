//! Tags that come back to the end that made them, and whether either end made them. Octets of packets were computed with
//! Python from RFC 5433 and RFC 4764.

use crate::objects::ObjectWorld;
use crate::worlds::{begun, step};
use login_setup::Event;
use octet_lists::GPSK_KIND;
use scenario_text::{ItemKind, ScenarioReader};
use std::alloc::Global;
use std::process::Abort;
use std::test::Fail;
use tag_book::TagsVerdict;

/// A peer, and a server that bars it by EAP-GPSK alone.
const SETTINGS: &str = "\
eap-scenario 1
mode alone
peer-name alice
peer-server srv
peer-methods 51 47
peer-psk 51 000102030405060708090a0b0c0d0e0f101112131415161718191a1b1c1d1e1f
peer-psk 47 000102030405060708090a0b0c0d0e0f
peer-nonce 1111111111111111111111111111111111111111111111111111111111111111
server-name srv
server-nonce 2222222222222222222222222222222222222222222222222222222222222222
user alice 51 000102030405060708090a0b0c0d0e0f101112131415161718191a1b1c1d1e1f barred
user alice 47 000102030405060708090a0b0c0d0e0f allowed
";

/// Runs, which an empty line parts. Before each are the event of the first accepted tag that the other end didn't make
/// earlier, the first that neither end did, and the first by EAP-GPSK under the peer's key that the other end didn't; 0
/// for none. The server's GPSK-Protected-Fail is delivered back to it
/// as a Response: it takes its own tag for that of the peer. A PSK-3 has the peer's own MAC_P for its MAC_S: the peer
/// discards it. A GPSK-2 is one that alice made with the nonce of 32 octets 33: neither end of this run made its tag.
/// Mallory, a user of the server with a key of her own, logs in: none of her tags is under the key of alice.
const REFLECTIONS: &str = "\
5 0 5
server-methods 51
events
deliver 1
deliver 2
deliver 3
deliver 4
inject server 0202001a3306000000034b4c4d6161d6f42a3e9cd94031007321

0 0 0
server-methods 47
events
deliver 1
deliver 2
deliver 3
deliver 4
inject peer 0102003b2f80222222222222222222222222222222224830dfa3260955ecccc4c1d90de6967800000000b69d8ec9e23567ba1fb776da73f54674c2
deliver 5
deliver 6
deliver 7

3 3 3
server-methods 51
events
deliver 1
deliver 2
inject server 0201007833020005616c69636500037372763333333333333333333333333333333333333333333333333333333333333333\
2222222222222222222222222222222222222222222222222222222222222222000c000000000001000000000002000000000001\
00000c8b3f9d1d9e2fc2eef761d905605153

2 2 0
server-methods 51
user mallory 51 ffeeddccbbaa99887766554433221100ffeeddccbbaa99887766554433221100 allowed
events
inject server 0200000c016d616c6c6f7279
inject server 0201007a330200076d616c6c6f7279000373727677777777777777777777777777777777777777777777777777777777777777772222222222222222222222222222222222222222222222222222222222222222000c0000000000010000000000020000000000010000eeb63fcc1dee263be2efec4a733eb141
inject server 0202001833040000dedc525f284fb22c0c37f129cd836923
";

/// The event of the first tag that wasn't made earlier, or 0.
fn event_of(verdict: TagsVerdict) -> u32 {
    match verdict {
        TagsVerdict::Honest => 0,
        TagsVerdict::Broken(event) => event,
    }
}

/// Steps a world through the events of a scenario.
fn run(rt: &impl Abort, world: &mut ObjectWorld, scenario: &str) -> Result<(), Fail> {
    let mut reader = ScenarioReader::new();
    let mut event = Event::Idle;
    for line in scenario.lines() {
        if let Ok(ItemKind::Event) = reader.line_into(line.as_bytes(), &mut event) {
            step(rt, world, &event)?;
        }
    }
    Ok(())
}

/// True if these are the two numbers.
fn are_two(text: &str, one: u32, two: u32) -> bool {
    text.split_once(" ").is_some_and(|(first, second)| {
        first.parse::<u32>().ok() == Some(one) && second.parse::<u32>().ok() == Some(two)
    })
}

/// True if these are the three numbers.
fn are_numbers(text: &str, one: u32, two: u32, three: u32) -> bool {
    text.split_once(" ").is_some_and(|(first, rest)| {
        first.parse::<u32>().ok() == Some(one) && are_two(rest, two, three)
    })
}

/// True if a world has these verdicts after the events of a scenario.
fn has_verdicts(
    rt: &impl Abort,
    world: &mut ObjectWorld,
    scenario: &str,
    wanted: &str,
) -> Result<bool, Fail> {
    run(rt, world, scenario)?;
    Ok(are_numbers(
        wanted,
        event_of(world.tags()),
        event_of(world.tags_either()),
        event_of(world.tags_under(GPSK_KIND)),
    ))
}

/// True if the run of a block has its verdicts.
fn is_judged(rt: &impl Abort, alloc: Global, block: &str) -> Result<bool, Fail> {
    let (wanted, lines) = block.split_once("\n").unwrap_or((block, ""));
    let mut scenario = String::from_str(alloc, SETTINGS)?;
    scenario.push_str(lines)?;
    let mut world = begun(rt, alloc, &scenario)?;
    has_verdicts(rt, &mut world, &scenario, wanted)
}

#[test]
fn tags_that_come_back(rt: HostRuntime) -> Result<(), Fail> {
    for block in REFLECTIONS.split("\n\n") {
        assert!(rt; is_judged(&rt, rt.alloc(), block)?, "{block}");
    }
    Ok(())
}
