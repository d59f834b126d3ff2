//! What a server keeps of a login, and the messages that it makes of it.

ghost use Rattle.std.specs.Prelude.{◌≡◌, ◌≤◌, ◌+◌, ◌∷◌, [], length};
ghost use Rattle.octet_lists.specs.Among.{is_among};
ghost use Rattle.octet_lists.specs.Suite.{ks_of, suite_number};
ghost use Rattle.octet_lists.specs.Sizes.{max_name};
ghost use Rattle.eap_packet.specs.declared.packet.Code.TheVariants as code;
ghost use Rattle.eap_packet.specs.Expanded.{max_wrapped};
ghost use Rattle.gpsk_messages.specs.Message.{message_of, mac_of, size_of, without_mac};
ghost use Rattle.eap_method.specs.GpskTags.{gpsk_request, sk_record};
ghost use Rattle.eap_method.specs.Capacity.{HasCapacity};
ghost use Rattle.gpsk_ends.specs.Classified.{IsReceived};
ghost use Rattle.gpsk_ends.specs.Sealed.{packet_of, record_of};

use crate::nonces::Nonces;
use crate::records::record;
use crate::sealing::mac_place;
use crate::server::stage::Added;
use eap_method::{Records, Report, ServerSide, TagList};
use eap_packet::Code;
use gpsk_messages::{Gpsk1, Gpsk2, Gpsk3, GpskMessage, write_gpsk_into};
use login_keys::{GpskKeys, gpsk_keys};
use login_setup::User;
use octet_lists::{GPSK_KIND, Identity, Nonce, Octets, Packet, Suite, Suites};
use std::marker::Model;

/// Failure-Code Authorization Failure (RFC 5433 section 9.3).
pub const AUTHORIZATION_FAILURE: u32 = 3;

/// What a server brings into a login, its users apart.
#[derive(Drop)]
pub struct Initial {
    pub side: ServerSide,
    /// RAND_Server.
    pub nonce: Nonce,
}

impl Initial {
    ghost use Rattle.eap_method.specs.GpskTags.{suite_list};
    ghost use Rattle.eap_method.specs.GpskServer.{first, repeats};
    ghost use Rattle.gpsk_ends.specs.ServerStage.{keys_with};

    /// No name and no suite.
    pub fn new() -> Initial {
        Initial {
            side: ServerSide {
                id_s: Identity::new(),
                suites: Suites::new(),
            },
            nonce: [0; 32],
        }
    }

    /// Replaces what was there.
    pub fn set(&mut self, side: &ServerSide, nonce: &Nonce)
        ensures side { self.new.side ≡ side.now }
        ensures nonce { self.new.nonce ≡ nonce.now }
    {
        self.side.id_s.set(side.id_s.as_slice());
        self.side.suites.set(side.suites.as_slice());
        self.nonce = *nonce;
    }

    /// CSuite_List: the entry of each suite that the server offers, in six octets (RFC 5433 section 9.2).
    #[tactic(auto, unfolding(eap_method::specs::GpskTags::suite_list))]
    fn suite_list(&self) -> Octets<12>
        ensures { result ≡ suite_list self.now.side.suites }
    {
        let mut list = Octets::new();
        for suite in self.side.suites.as_slice() {
            list.append(&[0, 0, 0, 0, 0, *suite]);
        }
        list
    }

    /// Writes GPSK-1, the first Request.
    #[tactic(auto, unfolding(eap_method::specs::GpskServer::first))]
    pub fn gpsk1(&self, id: u8, packet: &mut Packet)
        ensures first { packet.new ≡ first self.now.side self.now.nonce id }
        ensures capacity { HasCapacity packet.new }
    {
        let list = self.suite_list();
        let message = GpskMessage::M1(Gpsk1 {
            id_s: self.side.id_s.as_slice(),
            rand_s: self.nonce,
            list: list.as_slice(),
        });
        write_gpsk_into(packet, &message, Code::Request, id);
    }

    /// Whether GPSK-2 repeats what the server sent in GPSK-1.
    pub fn repeats(&self, gpsk2: &Gpsk2) -> bool
        ensures { result ≡ repeats self.now.side self.now.nonce gpsk2.now.id_s.now gpsk2.now.rand_s
            gpsk2.now.list.now }
    {
        gpsk2.id_s == self.side.id_s.as_slice()
            && gpsk2.rand_s == self.nonce
            && gpsk2.list == self.suite_list().as_slice()
    }

    /// The keys of the login of the user that GPSK-2 names: they are derived here alone (RFC 5433 section 4).
    #[tactic(auto, unfolding(eap_method::specs::GpskServer::keys_of))]
    pub fn keys(&self, gpsk2: &Gpsk2, user: &User) -> GpskKeys
        requires name { length gpsk2.now.id_p.now ≤ max_name }
        requires key { 32 ≤ length user.now.psk }
        ensures keys { result ≡ (keys_with self.now.side self.now.nonce gpsk2.now user.now).keys }
        ensures size { length result.sk ≡ ks_of gpsk2.now.suite }
    {
        let psk = user.psk.as_slice();
        let rand_p = &gpsk2.rand_p;
        let id_s = self.side.id_s.as_slice();
        gpsk_keys(gpsk2.suite, psk, rand_p, gpsk2.id_p, &self.nonce, id_s)
    }

    /// Whether the suite is one that the server offers.
    pub fn offers(&self, suite: Suite) -> bool
        ensures { result ≡ is_among self.now.side.suites (suite_number suite) }
    {
        let number = suite.number();
        let suites = self.side.suites.as_slice();
        suites.iter().any(|other| *other == number)
    }
}

/// A login after GPSK-2, with its keys, in the parts of the server's state. Contracts see the login alone: its keys are those
/// that it has by its definition.
#[derive(Drop)]
pub struct Login<'a> {
    pub(crate) own: &'a Initial,
    pub(crate) added: &'a Added,
}

impl<'a> Model for Login<'a> {
    ghost use Rattle.eap_method.specs.GpskServer as definition;
    ghost use Rattle.gpsk_ends.specs.ServerStage.{login_of, IsConsistent};

    ghost Value = { definition.Login };

    ghost view = { λ l. login_of l.own.now l.added.now };

    ghost invariant = { λ l. IsConsistent l.own.now l.added.now };
}

impl Login<'_> {
    ghost use Rattle.eap_method.specs.GpskServer.{keys_of, gpsk3_of, bars_with, is_tagged_by};
    ghost use Rattle.eap_method.specs.GpskServer.{report_of};
    ghost use Rattle.gpsk_ends.specs.Nonces.{server_nonces_of};

    /// CSuite_Sel.
    pub fn suite(&self) -> Suite
        ensures { result ≡ self.now.suite }
    {
        self.added.keys.suite()
    }

    /// Whether a message, which the Type-Data encodes, has the MAC of the login.
    pub fn is_tagged(&self, view: &GpskMessage, body: &[u8]) -> bool
        requires { IsReceived (message_of view.now) body.now }
        ensures { result ≡ is_tagged_by self.now (message_of view.now) }
    {
        self.added.keys.is_tagged(view, body)
    }

    /// Leaves the record of the MAC of a message, which the Type-Data encodes, alone in `accepted`.
    pub fn accept<R: Records>(&self, view: &GpskMessage, body: &[u8], accepted: &mut TagList<R>)
        requires { IsReceived (message_of view.now) body.now }
        ensures { accepted.new ≡ sk_record self.now.psk (message_of view.now) ∷ [] }
    {
        record(accepted, view, body, &self.added.psk);
    }

    /// Writes the Request with a message whose MAC is yet to come, with the MAC of the login.
    fn seal<R: Records>(
        &self,
        view: &GpskMessage,
        id: u8,
        packet: &mut Packet,
        made: &mut TagList<R>,
    )
        requires bounded { size_of (message_of view.now) + 5 ≤ max_wrapped }
        requires mac { length (mac_of (message_of view.now)) ≡ ks_of self.now.suite }
        ensures packet { packet.new ≡ packet_of code.Request id self.now.suite (keys_of
            self.now).sk (without_mac (message_of view.now)) }
        ensures record { made.new ≡ record_of self.now.suite (keys_of
            self.now).sk self.now.psk (without_mac (message_of view.now)) ∷ [] }
        ensures capacity { HasCapacity packet.new }
    {
        let psk = &self.added.psk;
        self.added
            .keys
            .seal(view, Code::Request, id, psk, packet, made);
    }

    /// Writes GPSK-3 with its MAC, whose record is then alone in `made`.
    pub fn gpsk3<R: Records>(&self, id: u8, packet: &mut Packet, made: &mut TagList<R>)
        ensures packet { packet.new ≡ gpsk_request id (gpsk3_of self.now) }
        ensures record { made.new ≡ sk_record self.now.psk (gpsk3_of self.now) ∷ [] }
        ensures capacity { HasCapacity packet.new }
    {
        let suite = self.added.keys.suite();
        let open = GpskMessage::M3(Gpsk3 {
            rand_p: self.added.rand_p,
            rand_s: self.own.nonce,
            id_s: self.own.side.id_s.as_slice(),
            suite,
            pd: &[],
            mac: mac_place(suite),
        });
        self.seal(&open, id, packet, made);
    }

    /// Writes GPSK-Protected-Fail for a barred user, with its MAC, whose record is then alone in `made`.
    pub fn protected_fail<R: Records>(&self, id: u8, packet: &mut Packet, made: &mut TagList<R>)
        ensures packet { packet.new ≡ gpsk_request id (bars_with self.now) }
        ensures record { made.new ≡ sk_record self.now.psk (bars_with self.now) ∷ [] }
        ensures capacity { HasCapacity packet.new }
    {
        let open = GpskMessage::ProtectedFail {
            code: AUTHORIZATION_FAILURE,
            mac: mac_place(self.added.keys.suite()),
        };
        self.seal(&open, id, packet, made);
    }

    /// Both nonces.
    pub fn nonces(&self) -> Nonces
        ensures { result ≡ server_nonces_of self.now }
    {
        Nonces {
            rand_p: self.added.rand_p,
            rand_s: self.own.nonce,
        }
    }

    /// What the server has if the login succeeded.
    #[tactic(auto, unfolding(eap_method::specs::GpskServer::report_of))]
    pub fn report(&self) -> Report
        ensures { result ≡ report_of self.now }
    {
        Report {
            method: GPSK_KIND,
            id_p: self.added.id_p.copy(),
            id_s: self.own.side.id_s.copy(),
            suite: self.added.keys.suite().number(),
            msk: self.added.keys.msk(),
            emsk: self.added.keys.emsk(),
        }
    }
}
