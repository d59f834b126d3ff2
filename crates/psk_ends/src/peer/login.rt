//! What a peer keeps of a login.

ghost use Rattle.std.specs.Prelude.{◌≡◌, ◌<◌, [], ◌∷◌, ◌++◌, length};

use crate::keys::long_keys;
use crate::nonces::Nonces;
use crate::octets::rand_of;
use crate::peer::stage::Added;
use crate::records::{add_mac_p, add_mac_s};
use cmac_mac::CmacKey;
use eap_method::{PeerSide, Records, Report, TagList, mac_p, mac_s};
use login_keys::{PskKeys, PskLong, psk_session};
use octet_lists::{Identity, Nonce, PSK_KIND, Secret};
use std::marker::Model;

/// The keys of a login, which are derived once.
#[derive(Drop)]
pub struct Keys {
    /// AK, expanded.
    pub ak: CmacKey,
    /// TEK, MSK and EMSK.
    pub keys: PskKeys,
    /// TEK, expanded.
    pub tek: CmacKey,
}

impl Keys {
    ghost use Rattle.psk_ends.specs.PeerKeys.{AreKeysOf};

    /// Those of this shared key and this nonce: they are derived here alone (RFC 4764 section 3.2). It is never inlined, so that
    /// they are not derived above the octets of the login on the stack.
    #[inline(never)]
    pub fn of(psk: &Secret, nonce: &Nonce) -> Keys
        requires { length psk.now ≡ 16 }
        ensures { AreKeysOf psk.now nonce.now result }
    {
        let PskLong { ak, kdk } = long_keys(psk);
        let keys = psk_session(&kdk, &rand_of(nonce));
        Keys {
            ak: CmacKey::new(&ak),
            tek: CmacKey::new(&keys.tek),
            keys,
        }
    }
}

/// A login after PSK-1, in the parts of the peer's state. Contracts see what its keys come from.
#[derive(Drop)]
pub struct Login<'a> {
    pub(crate) side: &'a PeerSide,
    /// Its first 16 octets are RAND_P.
    pub(crate) nonce: &'a Nonce,
    pub(crate) added: &'a Added,
}

impl<'a> Model for Login<'a> {
    ghost use Rattle.std.specs.Prelude.{◌≡◌, length};
    ghost use Rattle.eap_method.specs.PskPeer as peer;
    ghost use Rattle.psk_ends.specs.PeerKeys.{AreKeysOf};
    ghost use Rattle.psk_ends.specs.PeerStage.{login_of};

    ghost Value = { peer.Login };

    ghost view = { λ l. login_of l.side.now l.nonce.now l.added.now.rand_s };

    ghost invariant = { λ l. AreKeysOf l.side.now.cred.psk l.nonce.now l.added.now.keys × (length l.added.now.rand_s ≡ 16) };
}

impl Login<'_> {
    ghost use Rattle.eap_method.specs.PskTags.{ak_record};
    ghost use Rattle.eap_method.specs.PskPeer.{rand_p_of, ak_of, keys_of, mac_p_covers, mac_p_of};
    ghost use Rattle.eap_method.specs.PskPeer.{mac_s_covers, mac_s_of, report_of};
    ghost use Rattle.psk_ends.specs.Nonces.{peer_nonces_of};

    /// ID_P.
    pub fn id_p(&self) -> &Identity
        ensures { result.now ≡ self.now.cred.id_p }
    {
        self.side.id_p()
    }

    /// The shared key.
    pub fn psk(&self) -> &Secret
        ensures { result.now ≡ self.now.cred.psk }
    {
        self.side.psk()
    }

    /// RAND_S.
    pub fn rand_s(&self) -> &[u8; 16]
        ensures same { result.now ≡ self.now.rand_s }
        ensures size { length result.now ≡ 16 }
    {
        &self.added.rand_s
    }

    /// RAND_P.
    pub fn rand_p(&self) -> [u8; 16]
        ensures { result ≡ rand_p_of self.now }
    {
        rand_of(self.nonce)
    }

    /// TEK (RFC 4764 section 3.2).
    #[tactic(auto, unfolding(eap_method::specs::PskPeer::keys_of))]
    pub fn tek(&self) -> &CmacKey
        ensures { result.now ≡ (keys_of self.now).tek }
    {
        &self.added.keys.tek
    }

    /// MAC_P (RFC 4764 section 5.2).
    #[tactic(auto, unfolding(eap_method::specs::PskPeer::mac_p_of, eap_method::specs::PskPeer::ak_of, eap_method::specs::PskPeer::mac_p_covers))]
    pub fn mac_p(&self) -> [u8; 16]
        ensures { result ≡ mac_p_of self.now }
    {
        let rand_p = self.rand_p();
        mac_p(
            &self.added.keys.ak,
            self.id_p().as_slice(),
            self.side.id_s().as_slice(),
            &self.added.rand_s,
            &rand_p,
        )
    }

    /// MAC_S (RFC 4764 section 5.3).
    #[tactic(auto, unfolding(eap_method::specs::PskPeer::mac_s_of, eap_method::specs::PskPeer::ak_of, eap_method::specs::PskPeer::mac_s_covers))]
    pub fn mac_s(&self) -> [u8; 16]
        ensures { result ≡ mac_s_of self.now }
    {
        mac_s(
            &self.added.keys.ak,
            self.side.id_s().as_slice(),
            &self.rand_p(),
        )
    }

    /// Adds the record of this MAC_P.
    #[tactic(auto, unfolding(eap_method::specs::PskPeer::mac_p_covers))]
    pub fn add_mac_p<R: Records>(&self, made: &mut TagList<R>, mac: &[u8; 16])
        requires { length made.old < 2 }
        ensures { made.new
            ≡ made.old ++ ak_record self.now.cred.psk (mac_p_covers self.now) mac.now ∷ [] }
    {
        let rand_p = self.rand_p();
        add_mac_p(
            made,
            self.psk(),
            self.id_p().as_slice(),
            self.side.id_s().as_slice(),
            &self.added.rand_s,
            &rand_p,
            mac,
        );
    }

    /// Adds the record of this MAC_S.
    #[tactic(auto, unfolding(eap_method::specs::PskPeer::mac_s_covers))]
    pub fn add_mac_s<R: Records>(&self, accepted: &mut TagList<R>, mac: &[u8; 16])
        requires { length accepted.old < 2 }
        ensures { accepted.new
            ≡ accepted.old ++ ak_record self.now.cred.psk (mac_s_covers self.now) mac.now ∷ [] }
    {
        let rand_p = self.rand_p();
        add_mac_s(
            accepted,
            self.psk(),
            self.side.id_s().as_slice(),
            &rand_p,
            mac,
        );
    }

    /// Both nonces.
    pub fn nonces(&self) -> Nonces
        ensures { result ≡ peer_nonces_of self.now }
    {
        Nonces {
            rand_p: self.rand_p(),
            rand_s: self.added.rand_s,
        }
    }

    /// What the peer has if the login succeeded.
    #[tactic(auto, unfolding(eap_method::specs::PskPeer::report_of, eap_method::specs::PskPeer::keys_of))]
    pub fn report(&self) -> Report
        ensures { result ≡ report_of self.now }
    {
        Report {
            method: PSK_KIND,
            id_p: self.id_p().copy(),
            id_s: self.side.id_s().copy(),
            suite: 0,
            msk: self.added.keys.keys.msk,
            emsk: self.added.keys.keys.emsk,
        }
    }
}
