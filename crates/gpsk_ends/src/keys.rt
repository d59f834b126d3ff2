//! The keys of a login, ready for its MACs.

ghost use Rattle.std.specs.Prelude.{◌≡◌, ◌≤◌, ◌+◌, ℕ, List, ◌∷◌, [], length, IsTrue};
ghost use Rattle.octet_lists.specs.Suite.{ks_of};
ghost use Rattle.octet_lists.specs.declared.suite.Suite.{Suite};
ghost use Rattle.eap_packet.specs.Packet.{has_type};
ghost use Rattle.eap_packet.specs.Expanded.{max_wrapped};
ghost use Rattle.gpsk_messages.specs.Message.{message_of, mac_of, size_of, spelled, without_mac};
ghost use Rattle.eap_method.specs.Capacity.{HasCapacity};
ghost use Rattle.eap_method.specs.GpskTags.{is_tagged};
ghost use Rattle.gpsk_ends.specs.Sealed.{packet_of, record_of};
ghost use Rattle.login_keys.specs.GpskMacKey.{IsMacKey};

use crate::records::set_alone;
use crate::sealing::{BEFORE_COVERED, write_front};
use eap_method::{Records, TagList};
use eap_packet::Code;
use gpsk_messages::{GpskMessage, covered_part, mac_part};
use login_keys::{GpskKeys, MacKey};
use octet_lists::{Packet, Secret, Suite, equal_in_full};
use std::marker::Model;

/// The keys of a login under CSuite_Sel. Contracts see the suite and the keys; SK is kept expanded.
#[derive(Drop)]
pub(crate) struct Keys {
    /// CSuite_Sel.
    suite: Suite,
    keys: GpskKeys,
    /// SK.
    mac: MacKey,
}

impl Model for Keys {
    ghost use Rattle.gpsk_ends.specs.Keys.{SuiteKeys, suite_keys, IsReady};

    ghost Value = { SuiteKeys };

    ghost view = { suite_keys };

    ghost invariant = { IsReady };
}

/// Whether the message, which the Type-Data encodes, has the MAC of its covered octets under SK that is expanded (RFC
/// 5433, sections 8.1.2 and 8.2.2). All octets of the MAC are compared. MACs are compared here alone.
pub(crate) fn is_tagged(mac: &MacKey, view: &GpskMessage, body: &[u8]) -> bool
    requires { body.now ≡ spelled (message_of view.now) }
    ensures { (suite : Suite) (sk : List ℕ) → IsMacKey mac.now suite sk
        → result ≡ is_tagged suite sk (message_of view.now) }
{
    let tag = mac.tag_whole(covered_part(view, body));
    equal_in_full(tag.as_slice(), mac_part(view))
}

impl Keys {
    /// The keys of a login under this suite, with SK expanded.
    pub(crate) fn of(suite: Suite, keys: GpskKeys, mac: MacKey) -> Keys
        requires { IsMacKey mac suite keys.sk }
        ensures { result ≡ record { suite = suite; keys = keys } }
    {
        Keys { suite, keys, mac }
    }

    /// CSuite_Sel.
    pub(crate) fn suite(&self) -> Suite
        ensures { result ≡ self.now.suite }
    {
        self.suite
    }

    /// The Master Session Key.
    pub(crate) fn msk(&self) -> [u8; 64]
        ensures { result ≡ self.now.keys.msk }
    {
        self.keys.msk
    }

    /// The Extended Master Session Key.
    pub(crate) fn emsk(&self) -> [u8; 64]
        ensures { result ≡ self.now.keys.emsk }
    {
        self.keys.emsk
    }

    /// Whether the message, which the Type-Data encodes, has the MAC of its covered octets under SK.
    pub(crate) fn is_tagged(&self, view: &GpskMessage, body: &[u8]) -> bool
        requires { body.now ≡ spelled (message_of view.now) }
        ensures { result ≡ is_tagged self.now.suite self.now.keys.sk (message_of view.now) }
    {
        is_tagged(&self.mac, view, body)
    }

    /// Writes the packet of a message whose MAC is yet to come, with the MAC of its covered octets under
    /// SK, and leaves that MAC's record alone in `made`. `psk` is the shared key from which SK comes.
    #[inline(never)]
    pub(crate) fn seal<R: Records>(
        &self,
        view: &GpskMessage,
        code: Code,
        id: u8,
        psk: &Secret,
        packet: &mut Packet,
        made: &mut TagList<R>,
    )
        requires typed { IsTrue (has_type code) }
        requires bounded { size_of (message_of view.now) + 5 ≤ max_wrapped }
        requires mac { length (mac_of (message_of view.now)) ≡ ks_of self.now.suite }
        ensures packet { packet.new ≡ packet_of code id self.now.suite self.now.keys.sk (without_mac
            (message_of view.now)) }
        ensures record { made.new ≡ record_of self.now.suite self.now.keys.sk psk.now (without_mac
            (message_of view.now)) ∷ [] }
        ensures capacity { HasCapacity packet.new }
    {
        write_front(view, code, id, self.suite, packet);
        let covered = &packet.as_slice()[BEFORE_COVERED..];
        let tag = self.mac.tag_whole(covered);
        set_alone(made, psk, covered, tag.as_slice());
        packet.append(tag.as_slice());
    }
}
