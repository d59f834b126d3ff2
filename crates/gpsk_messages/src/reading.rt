//! Reading Type-Data as a message (RFC 5433 section 9).

ghost use Rattle.std.specs.Prelude.{◌≡◌, ◌+◌, ◌-◌, ◌≤◌, length, take, drop, option_map, IfOk};
ghost use Rattle.std.specs.Prelude.{IfErr};
ghost use Rattle.gpsk_messages.specs.Message.{message_of, read_value, list_of, IsGpsk};
ghost use Rattle.gpsk_messages.specs.Laws.{Refuses};
ghost use Rattle.gpsk_messages.specs.Reading.{and_then, gpsk1_at, gpsk2_at, gpsk3_at, gpsk4_at};
ghost use Rattle.gpsk_messages.specs.Reading.{fail_at, protected_fail_at, message_if_mac_matches};
ghost use Rattle.gpsk_messages.specs.Reading.{is_mac_size, loose_of, read_of};

use crate::fields::{
    code_field, identity_field, rand_field, sized_field, suite_field, suites_field,
};
use crate::view::{Gpsk1, Gpsk2, Gpsk3, Gpsk4, GpskMessage};
use eap_packet::Cause;

/// The most octets of a list of suites: 20 entries.
const MAX_LIST: usize = 120;

/// Whether a MAC whose suite the message doesn't give may have this size: KS if it is known, else 16 or 32.
fn is_size_of_mac(size: usize, ks: Option<u8>) -> bool
    ensures { result ≡ is_mac_size ks size }
{
    match ks {
        Some(ks) => size == usize::from(ks),
        None => size == 16 || size == 32,
    }
}

/// GPSK-1: ID_Server, RAND_Server, CSuite_List.
#[tactic(auto, unfolding(crate::specs::Reading::and_then, crate::specs::Reading::gpsk1_at))]
fn read_gpsk1<'a>(octets: &'a [u8], ks: Option<u8>) -> Option<GpskMessage<'a>>
    ensures { option_map message_of result
        ≡ and_then (gpsk1_at octets.now) (message_if_mac_matches ks) }
{
    let (id_s, rest) = identity_field(octets)?;
    let (rand_s, rest) = rand_field(rest)?;
    let (list, rest) = suites_field(rest)?;
    if rest.is_empty() {
        Some(GpskMessage::M1(Gpsk1 { id_s, rand_s, list }))
    } else {
        None
    }
}

/// GPSK-2: ID_Peer, ID_Server, RAND_Peer, RAND_Server, CSuite_List, CSuite_Sel, PD block, MAC.
#[tactic(auto, unfolding(crate::specs::Reading::and_then, crate::specs::Reading::gpsk2_at))]
fn read_gpsk2<'a>(octets: &'a [u8], ks: Option<u8>) -> Option<GpskMessage<'a>>
    ensures { option_map message_of result
        ≡ and_then (gpsk2_at octets.now) (message_if_mac_matches ks) }
{
    let (id_p, rest) = identity_field(octets)?;
    let (id_s, rest) = identity_field(rest)?;
    let (rand_p, rest) = rand_field(rest)?;
    let (rand_s, rest) = rand_field(rest)?;
    let (list, rest) = suites_field(rest)?;
    let (suite, rest) = suite_field(rest)?;
    let (pd, mac) = sized_field(rest)?;
    if mac.len() == suite.ks() {
        Some(GpskMessage::M2(Gpsk2 {
            id_p,
            id_s,
            rand_p,
            rand_s,
            list,
            suite,
            pd,
            mac,
        }))
    } else {
        None
    }
}

/// GPSK-3: RAND_Peer, RAND_Server, ID_Server, CSuite_Sel, PD block, MAC.
#[tactic(auto, unfolding(crate::specs::Reading::and_then, crate::specs::Reading::gpsk3_at))]
fn read_gpsk3<'a>(octets: &'a [u8], ks: Option<u8>) -> Option<GpskMessage<'a>>
    ensures { option_map message_of result
        ≡ and_then (gpsk3_at octets.now) (message_if_mac_matches ks) }
{
    let (rand_p, rest) = rand_field(octets)?;
    let (rand_s, rest) = rand_field(rest)?;
    let (id_s, rest) = identity_field(rest)?;
    let (suite, rest) = suite_field(rest)?;
    let (pd, mac) = sized_field(rest)?;
    if mac.len() == suite.ks() {
        Some(GpskMessage::M3(Gpsk3 {
            rand_p,
            rand_s,
            id_s,
            suite,
            pd,
            mac,
        }))
    } else {
        None
    }
}

/// GPSK-4: PD block, MAC.
#[tactic(auto, unfolding(crate::specs::Reading::and_then, crate::specs::Reading::gpsk4_at))]
fn read_gpsk4<'a>(octets: &'a [u8], ks: Option<u8>) -> Option<GpskMessage<'a>>
    ensures { option_map message_of result
        ≡ and_then (gpsk4_at octets.now) (message_if_mac_matches ks) }
{
    let (pd, mac) = sized_field(octets)?;
    if is_size_of_mac(mac.len(), ks) {
        Some(GpskMessage::M4(Gpsk4 { pd, mac }))
    } else {
        None
    }
}

/// GPSK-Fail: Failure-Code.
#[tactic(auto, unfolding(crate::specs::Reading::and_then, crate::specs::Reading::fail_at))]
fn read_fail<'a>(octets: &'a [u8], ks: Option<u8>) -> Option<GpskMessage<'a>>
    ensures { option_map message_of result
        ≡ and_then (fail_at octets.now) (message_if_mac_matches ks) }
{
    let (code, rest) = code_field(octets)?;
    if rest.is_empty() {
        Some(GpskMessage::Fail { code })
    } else {
        None
    }
}

/// GPSK-Protected-Fail: Failure-Code, MAC.
#[tactic(auto, unfolding(crate::specs::Reading::and_then, crate::specs::Reading::protected_fail_at))]
fn read_protected_fail<'a>(octets: &'a [u8], ks: Option<u8>) -> Option<GpskMessage<'a>>
    ensures { option_map message_of result
        ≡ and_then (protected_fail_at octets.now) (message_if_mac_matches ks) }
{
    let (code, mac) = code_field(octets)?;
    if is_size_of_mac(mac.len(), ks) {
        Some(GpskMessage::ProtectedFail { code, mac })
    } else {
        None
    }
}

/// The message that the octets encode, with any number of suites in a list.
#[tactic(auto, unfolding(crate::specs::Reading::and_then, crate::specs::Reading::fields_at, crate::specs::Reading::loose_of))]
fn read_loosely<'a>(body: &'a [u8], ks: Option<u8>) -> Option<GpskMessage<'a>>
    ensures { option_map message_of result ≡ loose_of ks body.now }
{
    match body {
        [1, octets @ ..] => read_gpsk1(octets, ks),
        [2, octets @ ..] => read_gpsk2(octets, ks),
        [3, octets @ ..] => read_gpsk3(octets, ks),
        [4, octets @ ..] => read_gpsk4(octets, ks),
        [5, octets @ ..] => read_fail(octets, ks),
        [6, octets @ ..] => read_protected_fail(octets, ks),
        _ => None,
    }
}

/// The octets of the message's list of suites, 0 if it has none.
fn list_size(view: &GpskMessage) -> usize
    ensures { result ≡ length (list_of (message_of view.now)) }
{
    match view {
        GpskMessage::M1(gpsk1) => gpsk1.list.len(),
        GpskMessage::M2(gpsk2) => gpsk2.list.len(),
        _ => 0,
    }
}

/// The message that the Type-Data encodes. `ks` is KS, 16 or 32, if the suite is known: it fixes the
/// MAC's size in GPSK-4 and GPSK-Protected-Fail; with None either size is accepted.
///
/// `GpskShape` if the octets encode no message, `ListTooLong` if they encode one but for a list
/// of more than 20 suites (RFC 5433 section 9.2).
pub fn read_gpsk_message<'a>(body: &'a [u8], ks: Option<u8>) -> Result<GpskMessage<'a>, Cause>
    ensures message { read_value result ≡ read_of ks body.now }
    ensures spelled { IfOk result (λ view. IsGpsk ks (message_of view) body.now) }
    ensures refused { IfErr result (Refuses ks body.now) }
{
    read_shape(body, ks)
}

/// The message that the octets encode, or why there is none.
#[tactic(auto, unfolding(crate::specs::Reading::read_of))]
fn read_shape<'a>(body: &'a [u8], ks: Option<u8>) -> Result<GpskMessage<'a>, Cause>
    ensures { read_value result ≡ read_of ks body.now }
{
    match read_loosely(body, ks) {
        None => Err(Cause::GpskShape),
        Some(view) => {
            if list_size(&view) <= MAX_LIST {
                Ok(view)
            } else {
                Err(Cause::ListTooLong)
            }
        }
    }
}

/// The octets that a MAC of `ks` octets covers: those after the OP-Code up to the MAC.
pub fn covered(body: &[u8], ks: u8) -> &[u8]
    requires { 1 + ks ≤ length body.now }
    ensures { result.now ≡ take (length body.now - 1 - ks) (drop 1 body.now) }
{
    &body[1..body.len() - usize::from(ks)]
}
