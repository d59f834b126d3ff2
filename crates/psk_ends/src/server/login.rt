//! What a server keeps of a login.

ghost use Rattle.std.specs.Prelude.{◌≡◌, ◌≤◌, ◌<◌, [], ◌∷◌, ◌++◌, length};
ghost use Rattle.octet_lists.specs.Sizes.{max_name};
ghost use Rattle.cmac_mac.specs.Cmac.{aes_cmac};
ghost use Rattle.login_keys.specs.Psk.{psk_keys_of, psk_long_of};
ghost use Rattle.eap_method.specs.PskTags.{mac_p_octets, rand_of};
ghost use Rattle.eap_method.specs.PskServer.{r_for};

use crate::channel::{DONE_FAILURE, DONE_SUCCESS};
use crate::nonces::Nonces;
use crate::octets::rand_of;
use crate::records::{add_mac_p, add_mac_s};
use cmac_mac::CmacKey;
use eap_method::{Records, Report, ServerSide, TagList, mac_p, mac_s};
use login_keys::{PskKeys, psk_session};
use login_setup::User;
use octet_lists::{Identity, Nonce, Octets, PSK_KIND, Secret};
use psk_messages::Psk2;
use std::marker::Model;

/// What a server brings into a login, its users apart.
#[derive(Drop)]
pub struct Initial {
    pub side: ServerSide,
    /// Its first 16 octets are RAND_S.
    pub nonce: Nonce,
}

impl Initial {
    /// An equal value.
    pub fn copy(&self) -> Initial
        ensures side { result.side ≡ self.now.side }
        ensures nonce { result.nonce ≡ self.now.nonce }
    {
        Initial {
            side: self.side.copy(),
            nonce: self.nonce,
        }
    }

    /// MAC_P of PSK-2 under this AK (RFC 4764 section 5.2).
    pub fn mac_p(&self, ak: &CmacKey, psk2: &Psk2) -> [u8; 16]
        ensures { result ≡ aes_cmac ak.now
            (mac_p_octets psk2.now.id_p.now self.now.side.id_s (rand_of self.now.nonce)
            psk2.now.rand_p) }
    {
        let id_s = self.side.id_s.as_slice();
        let rand_s = rand_of(&self.nonce);
        mac_p(ak, psk2.id_p, id_s, &rand_s, &psk2.rand_p)
    }
}

/// R for a user: a barred one gets a failure.
fn r_for(barred: bool) -> u8
    ensures { result ≡ r_for barred }
{
    if barred { DONE_FAILURE } else { DONE_SUCCESS }
}

/// PSK-2 of a user that the server knows, with the user's MAC_P.
#[derive(Drop)]
pub struct UserPsk2<'a> {
    pub user: &'a User,
    pub psk2: Psk2<'a>,
    /// AK, expanded.
    pub ak: CmacKey,
    pub kdk: [u8; 16],
    ghost name: { length psk2.id_p.now ≤ max_name },
    ghost ak_is: { ak ≡ (psk_long_of user.now.psk).ak },
    ghost kdk_is: { kdk ≡ (psk_long_of user.now.psk).kdk },
}

impl UserPsk2<'_> {
    ghost use Rattle.std.specs.Prelude.{◌≡◌};
    ghost use Rattle.login_keys.specs.Psk.{psk_keys_of};

    /// The keys of the login: they are derived here alone (RFC 4764 section 3.2). It is never inlined, so that they are not
    /// derived above the octets of the login on the stack.
    #[inline(never)]
    pub fn keys(&self) -> Keys
        ensures { result.keys ≡ psk_keys_of self.now.kdk self.now.psk2.rand_p }
    {
        let keys = psk_session(&self.kdk, &self.psk2.rand_p);
        Keys {
            tek: CmacKey::new(&keys.tek),
            keys,
        }
    }
}

/// The keys of a login, which are derived once.
#[derive(Drop)]
pub struct Keys {
    /// TEK, MSK and EMSK.
    pub keys: PskKeys,
    /// TEK, expanded.
    pub tek: CmacKey,
    ghost tek_is: { tek ≡ keys.tek },
}

/// A login after PSK-2, with its keys, which are derived once. Contracts see what they come from.
#[derive(Drop)]
pub struct Login {
    own: Initial,
    /// ID_P.
    id_p: Identity,
    /// The user's key.
    psk: Secret,
    /// RAND_P.
    rand_p: [u8; 16],
    /// R, the server's result.
    r: u8,
    /// AK, expanded.
    ak: CmacKey,
    keys: Keys,
}

impl Model for Login {
    ghost use Rattle.std.specs.Prelude.{◌≡◌, ◌<◌};
    ghost use Rattle.login_keys.specs.Psk.{psk_long_of, psk_keys_of};
    ghost use Rattle.eap_method.specs.PskServer as server;

    ghost Value = { server.Login };

    ghost view = { λ l. record { own = l.own.side; nonce = l.own.nonce; id_p = l.id_p; psk = l.psk; rand_p = l.rand_p; r = l.r } };

    ghost invariant = { λ l. (l.r < 4) × (l.ak ≡ (psk_long_of l.psk).ak)
        × (l.keys.keys ≡ psk_keys_of (psk_long_of l.psk).kdk l.rand_p) };
}

impl Login {
    ghost use Rattle.eap_method.specs.PskTags.{ak_record};
    ghost use Rattle.eap_method.specs.PskServer.{rand_s_of, keys_of, mac_p_covers, mac_s_covers};
    ghost use Rattle.eap_method.specs.PskServer.{mac_s_of, report_of};
    ghost use Rattle.psk_ends.specs.Nonces.{server_nonces_of};
    ghost use Rattle.psk_ends.specs.ServerStage.{login_with};

    /// The login of a server that has accepted PSK-2.
    pub fn new(own: Initial, found: UserPsk2, keys: Keys) -> Login
        requires { keys.keys ≡ psk_keys_of found.kdk found.psk2.rand_p }
        ensures { result ≡ login_with own found.entry }
    {
        Login {
            own,
            id_p: Octets::of(found.psk2.id_p),
            psk: found.user.psk.copy(),
            rand_p: found.psk2.rand_p,
            r: r_for(found.user.barred),
            ak: found.ak,
            keys,
        }
    }

    /// The user's key.
    pub fn psk(&self) -> &Secret
        ensures { result.now ≡ self.now.psk }
    {
        &self.psk
    }

    /// RAND_S.
    pub fn rand_s(&self) -> [u8; 16]
        ensures { result ≡ rand_s_of self.now }
    {
        rand_of(&self.own.nonce)
    }

    /// R, the server's result.
    pub fn r(&self) -> u8
        ensures same { result ≡ self.now.r }
        ensures two_bits { result < 4 }
    {
        self.r
    }

    /// TEK (RFC 4764 section 3.2).
    #[tactic(auto, unfolding(eap_method::specs::PskServer::keys_of))]
    pub fn tek(&self) -> &CmacKey
        ensures { result.now ≡ (keys_of self.now).tek }
    {
        &self.keys.tek
    }

    /// MAC_S (RFC 4764 section 5.3).
    #[tactic(auto, unfolding(eap_method::specs::PskServer::mac_s_of, eap_method::specs::PskServer::ak_of, eap_method::specs::PskServer::mac_s_covers))]
    pub fn mac_s(&self) -> [u8; 16]
        ensures { result ≡ mac_s_of self.now }
    {
        mac_s(&self.ak, self.own.side.id_s.as_slice(), &self.rand_p)
    }

    /// Adds the record of this MAC_P.
    #[tactic(auto, unfolding(eap_method::specs::PskServer::mac_p_covers))]
    pub fn add_mac_p<R: Records>(&self, accepted: &mut TagList<R>, mac: &[u8; 16])
        requires { length accepted.old < 2 }
        ensures { accepted.new
            ≡ accepted.old ++ ak_record self.now.psk (mac_p_covers self.now) mac.now ∷ [] }
    {
        let rand_s = self.rand_s();
        add_mac_p(
            accepted,
            &self.psk,
            self.id_p.as_slice(),
            self.own.side.id_s.as_slice(),
            &rand_s,
            &self.rand_p,
            mac,
        );
    }

    /// Adds the record of this MAC_S.
    #[tactic(auto, unfolding(eap_method::specs::PskServer::mac_s_covers))]
    pub fn add_mac_s<R: Records>(&self, made: &mut TagList<R>, mac: &[u8; 16])
        requires { length made.old < 2 }
        ensures { made.new
            ≡ made.old ++ ak_record self.now.psk (mac_s_covers self.now) mac.now ∷ [] }
    {
        let id_s = self.own.side.id_s.as_slice();
        add_mac_s(made, &self.psk, id_s, &self.rand_p, mac);
    }

    /// Both nonces.
    pub fn nonces(&self) -> Nonces
        ensures { result ≡ server_nonces_of self.now }
    {
        Nonces {
            rand_p: self.rand_p,
            rand_s: self.rand_s(),
        }
    }

    /// What the server has if the login succeeded.
    #[tactic(auto, unfolding(eap_method::specs::PskServer::report_of, eap_method::specs::PskServer::keys_of))]
    pub fn report(&self) -> Report
        ensures { result ≡ report_of self.now }
    {
        Report {
            method: PSK_KIND,
            id_p: self.id_p.copy(),
            id_s: self.own.side.id_s.copy(),
            suite: 0,
            msk: self.keys.keys.msk,
            emsk: self.keys.keys.emsk,
        }
    }
}
