//! What a peer keeps of a login, and the messages that it makes of it.

ghost use Rattle.std.specs.Prelude.{◌≡◌, ◌≤◌, ◌+◌, ◌∷◌, [], length};
ghost use Rattle.octet_lists.specs.Suite.{ks_of};
ghost use Rattle.eap_packet.specs.declared.packet.Code.TheVariants as code;
ghost use Rattle.eap_packet.specs.Expanded.{max_wrapped};
ghost use Rattle.gpsk_messages.specs.Message.{max_list, message_of, mac_of, size_of, without_mac};
ghost use Rattle.eap_method.specs.GpskTags.{gpsk_response, sk_record};
ghost use Rattle.eap_method.specs.Capacity.{HasCapacity};
ghost use Rattle.gpsk_ends.specs.Classified.{IsReceived};
ghost use Rattle.gpsk_ends.specs.PeerStage.{keys_with};
ghost use Rattle.gpsk_ends.specs.Sealed.{packet_of, record_of};

use crate::keys::Keys;
use crate::nonces::Nonces;
use crate::peer::offer::Offer;
use crate::peer::stage::Added;
use crate::records::record;
use crate::sealing::mac_place;
use eap_method::{PeerSide, Records, Report, TagList};
use eap_packet::Code;
use gpsk_messages::{Gpsk2, Gpsk3, Gpsk4, GpskMessage};
use login_keys::{GpskKeys, gpsk_keys};
use octet_lists::{GPSK_KIND, Nonce, Packet, Suite};
use std::marker::Model;

/// A login after GPSK-1, with its keys, in the parts of the peer's state. Contracts see the login alone: its keys are those
/// that it has by its definition.
#[derive(Drop)]
pub struct Login<'a> {
    pub(crate) side: &'a PeerSide,
    /// RAND_Peer.
    pub(crate) nonce: &'a Nonce,
    pub(crate) added: &'a Added,
}

impl<'a> Model for Login<'a> {
    ghost use Rattle.eap_method.specs.GpskPeer as definition;
    ghost use Rattle.gpsk_ends.specs.PeerStage.{login_of, AreReady};

    ghost Value = { definition.Login };

    ghost view = { λ l. login_of l.side.now l.nonce.now l.added.now.rand_s l.added.now.keys };

    ghost invariant = { λ l. AreReady l.side.now l.nonce.now l.added.now.rand_s l.added.now.keys };
}

/// The keys of the login that begins with an offer: they are derived here alone (RFC 5433 section 4).
#[tactic(auto, unfolding(eap_method::specs::GpskPeer::keys_of))]
pub(crate) fn keys_for(side: &PeerSide, nonce: &Nonce, offer: &Offer) -> GpskKeys
    requires { 32 ≤ length side.now.cred.psk }
    ensures keys { result ≡ (keys_with side.now.cred nonce.now offer.now).keys }
    ensures size { length result.sk ≡ ks_of offer.now.suite }
{
    let psk = side.psk().as_slice();
    let id_p = side.id_p().as_slice();
    let rand_s = &offer.rand_s;
    gpsk_keys(offer.suite, psk, nonce, id_p, rand_s, offer.id_s)
}

impl Login<'_> {
    ghost use Rattle.eap_method.specs.GpskPeer.{keys_of, gpsk2_of, gpsk4_of, protected_fail_of};
    ghost use Rattle.eap_method.specs.GpskPeer.{is_tagged_by, repeats, report_of};
    ghost use Rattle.gpsk_ends.specs.Nonces.{peer_nonces_of};

    /// CSuite_Sel.
    pub fn suite(&self) -> Suite
        ensures { result ≡ self.now.suite }
    {
        self.added.keys.suite()
    }

    /// Whether GPSK-3 repeats the fields of the login.
    pub fn repeats(&self, gpsk3: &Gpsk3) -> bool
        ensures { result ≡ repeats self.now gpsk3.now.rand_p gpsk3.now.rand_s gpsk3.now.id_s.now
            gpsk3.now.suite }
    {
        gpsk3.rand_p == *self.nonce
            && gpsk3.rand_s == self.added.rand_s
            && gpsk3.id_s == self.side.id_s().as_slice()
            && gpsk3.suite.number() == self.added.keys.suite().number()
    }

    /// Whether a message, which the Type-Data encodes, has the MAC of the login.
    pub fn is_tagged(&self, view: &GpskMessage, body: &[u8]) -> bool
        requires { IsReceived (message_of view.now) body.now }
        ensures { result ≡ is_tagged_by self.now (message_of view.now) }
    {
        self.added.keys.is_tagged(view, body)
    }

    /// Leaves the record of the MAC of a message, which the Type-Data encodes, alone in `accepted`.
    pub fn accept<R: Records>(&self, view: &GpskMessage, body: &[u8], accepted: &mut TagList<R>)
        requires { IsReceived (message_of view.now) body.now }
        ensures { accepted.new ≡ sk_record self.now.cred.psk (message_of view.now) ∷ [] }
    {
        record(accepted, view, body, self.side.psk());
    }

    /// Writes the Response with a message whose MAC is yet to come, with the MAC of the login.
    fn seal<R: Records>(
        &self,
        view: &GpskMessage,
        id: u8,
        packet: &mut Packet,
        made: &mut TagList<R>,
    )
        requires bounded { size_of (message_of view.now) + 5 ≤ max_wrapped }
        requires mac { length (mac_of (message_of view.now)) ≡ ks_of self.now.suite }
        ensures packet { packet.new ≡ packet_of code.Response id self.now.suite (keys_of
            self.now).sk (without_mac (message_of view.now)) }
        ensures record { made.new ≡ record_of self.now.suite (keys_of
            self.now).sk self.now.cred.psk (without_mac (message_of view.now)) ∷ [] }
        ensures capacity { HasCapacity packet.new }
    {
        let psk = self.side.psk();
        self.added
            .keys
            .seal(view, Code::Response, id, psk, packet, made);
    }

    /// Writes GPSK-2 with its MAC, whose record is then alone in `made`. `list` is the CSuite_List of
    /// GPSK-1.
    pub fn gpsk2<R: Records>(&self, id: u8, list: &[u8], packet: &mut Packet, made: &mut TagList<R>)
        requires { length list.now ≤ max_list }
        ensures packet { packet.new ≡ gpsk_response id (gpsk2_of self.now list.now) }
        ensures record { made.new ≡ sk_record self.now.cred.psk (gpsk2_of self.now list.now) ∷ [] }
        ensures capacity { HasCapacity packet.new }
    {
        let suite = self.added.keys.suite();
        let open = GpskMessage::M2(Gpsk2 {
            id_p: self.side.id_p().as_slice(),
            id_s: self.side.id_s().as_slice(),
            rand_p: *self.nonce,
            rand_s: self.added.rand_s,
            list,
            suite,
            pd: &[],
            mac: mac_place(suite),
        });
        self.seal(&open, id, packet, made);
    }

    /// Writes GPSK-4 with its MAC, whose record is then alone in `made`.
    pub fn gpsk4<R: Records>(&self, id: u8, packet: &mut Packet, made: &mut TagList<R>)
        ensures packet { packet.new ≡ gpsk_response id (gpsk4_of self.now) }
        ensures record { made.new ≡ sk_record self.now.cred.psk (gpsk4_of self.now) ∷ [] }
        ensures capacity { HasCapacity packet.new }
    {
        let open = GpskMessage::M4(Gpsk4 {
            pd: &[],
            mac: mac_place(self.added.keys.suite()),
        });
        self.seal(&open, id, packet, made);
    }

    /// Writes GPSK-Protected-Fail with its MAC, whose record is then alone in `made`.
    pub fn protected_fail<R: Records>(
        &self,
        id: u8,
        code: u32,
        packet: &mut Packet,
        made: &mut TagList<R>,
    )
        ensures packet { packet.new ≡ gpsk_response id (protected_fail_of self.now code) }
        ensures record { made.new
            ≡ sk_record self.now.cred.psk (protected_fail_of self.now code) ∷ [] }
        ensures capacity { HasCapacity packet.new }
    {
        let open = GpskMessage::ProtectedFail {
            code,
            mac: mac_place(self.added.keys.suite()),
        };
        self.seal(&open, id, packet, made);
    }

    /// Both nonces.
    pub fn nonces(&self) -> Nonces
        ensures { result ≡ peer_nonces_of self.now }
    {
        Nonces {
            rand_p: *self.nonce,
            rand_s: self.added.rand_s,
        }
    }

    /// What the peer has if the login succeeded.
    #[tactic(auto, unfolding(eap_method::specs::GpskPeer::report_of))]
    pub fn report(&self) -> Report
        ensures { result ≡ report_of self.now }
    {
        Report {
            method: GPSK_KIND,
            id_p: self.side.id_p().copy(),
            id_s: self.side.id_s().copy(),
            suite: self.added.keys.suite().number(),
            msk: self.added.keys.msk(),
            emsk: self.added.keys.emsk(),
        }
    }
}
