//! GPSK-1, and what a peer that has begun makes of it (RFC 5433 section 10).

ghost use Rattle.std.specs.Prelude.{◌≡◌, ◌≤◌, ℕ, List, length, None, true, IfOk};
ghost use Rattle.login_setup.specs.Setup.{accepts_name};
ghost use Rattle.octet_lists.specs.Sizes.{max_name};
ghost use Rattle.gpsk_messages.specs.Message.{max_list};
ghost use Rattle.eap_packet.specs.Packet.{max_type_data};
ghost use Rattle.gpsk_messages.specs.Reading.{read_of};
ghost use Rattle.login_policy.specs.Policy.{picked_suite};
ghost use Rattle.eap_method.specs.GpskPeer.{picks, fresh_reads};
ghost use Rattle.gpsk_ends.specs.PeerStage.{outcome_of_offer};

use crate::peer::offer::Offer;
use crate::receiving::receive;
use eap_method::PeerSide;
use eap_packet::Cause;
use gpsk_messages::{Gpsk1, GpskMessage};
use login_policy::pick_suite;

/// GPSK-1 of a server that the peer accepts: the first suite of the list that it allows is picked.
/// `NoSuite`: there is none.
fn pick<'a>(side: &PeerSide, gpsk1: &Gpsk1<'a>) -> Result<Offer<'a>, Cause>
    requires name { length gpsk1.now.id_s.now ≤ max_name }
    requires few { length gpsk1.now.list.now ≤ max_list }
    ensures picks { (nonce : List ℕ) (id : ℕ) → outcome_of_offer side.now.cred nonce id result
        ≡ picks side.now.cred nonce id gpsk1.now.id_s.now gpsk1.now.rand_s gpsk1.now.list.now
        (picked_suite side.now.cred.suites gpsk1.now.list.now) }
    ensures server { IfOk result (λ offer. offer.id_s.now ≡ gpsk1.now.id_s.now) }
{
    match pick_suite(side.suites(), gpsk1.list) {
        None => Err(Cause::NoSuite),
        Some(suite) => Ok(Offer {
            id_s: gpsk1.id_s,
            rand_s: gpsk1.rand_s,
            list: gpsk1.list,
            suite,
        }),
    }
}

/// The Type-Data at a peer that has begun. `UnknownServer`: it does not accept the server's name. It is never inlined, so that
/// the message does not lie above the keys on the stack.
#[inline(never)]
pub fn fresh_reads<'a>(side: &PeerSide, body: &'a [u8]) -> Result<Offer<'a>, Cause>
    requires { length body.now ≤ max_type_data }
    ensures reads { (nonce : List ℕ) (id : ℕ) → outcome_of_offer side.now.cred nonce id result
        ≡ fresh_reads side.now.cred nonce id (read_of None body.now) }
    ensures accepted { IfOk result
        (λ offer. accepts_name side.now.cred.accepts offer.id_s.now ≡ true) }
{
    match receive(body, None) {
        Err(cause) => Err(cause),
        Ok(GpskMessage::M1(gpsk1)) => {
            if side.allows(gpsk1.id_s) {
                pick(side, &gpsk1)
            } else {
                Err(Cause::UnknownServer)
            }
        }
        Ok(_) => Err(Cause::WrongOp),
    }
}
