//! The rows of each end's turns, what a history of turns tells, and whole logins. Each is the contract of a function that
//! does nothing.

ghost use Rattle.method_laws.specs.Agreeing.{BothAgree};
ghost use Rattle.method_laws.specs.GpskLogin.{GpskLoginsGoThrough};
ghost use Rattle.method_laws.specs.GpskPeerRows.{GpskPeerStepsAreRows};
ghost use Rattle.method_laws.specs.GpskServerRows.{GpskServerStepsAreRows};
ghost use Rattle.method_laws.specs.PeerHistory.{PeerHistoriesImply};
ghost use Rattle.method_laws.specs.PskLogin.{PskLoginsGoThrough};
ghost use Rattle.method_laws.specs.PskPeerRows.{PskPeerStepsAreRows};
ghost use Rattle.method_laws.specs.PskServerRows.{PskServerStepsAreRows};
ghost use Rattle.method_laws.specs.RightMacs.{PeerTagsAreRight, ServerTagsAreRight};
ghost use Rattle.method_laws.specs.ServerHistory.{ServerHistoriesImply};

/// Each turn of a peer of EAP-GPSK is one of its rows.
#[tactic(auto, using(crate::proofs::GpskPeerCases::gpsk_peer_steps_are_rows))]
pub fn gpsk_peer_steps_are_rows()
    ensures { GpskPeerStepsAreRows }
{}

/// Each turn of a server of EAP-GPSK is one of its rows.
#[tactic(auto, using(crate::proofs::GpskServerCases::gpsk_server_steps_are_rows))]
pub fn gpsk_server_steps_are_rows()
    ensures { GpskServerStepsAreRows }
{}

/// Each turn of a peer of EAP-PSK is one of its rows.
#[tactic(auto, using(crate::proofs::PskPeerCases::psk_peer_steps_are_rows))]
pub fn psk_peer_steps_are_rows()
    ensures { PskPeerStepsAreRows }
{}

/// Each turn of a server of EAP-PSK is one of its rows.
#[tactic(auto, using(crate::proofs::PskServerCases::psk_server_steps_are_rows))]
pub fn psk_server_steps_are_rows()
    ensures { PskServerStepsAreRows }
{}

/// A login by EAP-GPSK between two ends that fit goes through, and gives both the same keys.
pub fn gpsk_logins_go_through()
    ensures { GpskLoginsGoThrough }
{}

/// A login by EAP-PSK between two ends that fit goes through, and gives both the same keys.
pub fn psk_logins_go_through()
    ensures { PskLoginsGoThrough }
{}

/// What a peer's object has done since it began tells the tags that it has accepted and made, by EAP-PSK and by EAP-GPSK:
/// the state of the method determines them exactly, also if the login has failed. A decision other than FAIL
/// (RFC 4137 section 4.2) comes from a success. Of a maker's method it tells nothing.
#[tactic(auto, using(crate::proofs::PeerImplied::peer_histories_imply))]
pub fn peer_histories_imply()
    ensures { PeerHistoriesImply }
{}

/// So does what a server's object has done since it began, and a good end comes from a success.
#[tactic(auto, using(crate::proofs::ServerImplied::server_histories_imply))]
pub fn server_histories_imply()
    ensures { ServerHistoriesImply }
{}

/// Each tag that a conversation of the peer accepted or made, by EAP-PSK or EAP-GPSK, is the right MAC of its octets,
/// under a key that the conversation derives from the peer's own key, nonce and name.
#[tactic(auto, using(crate::proofs::RightMacs::peer_tags_are_right))]
pub fn peer_tags_are_right()
    ensures { PeerTagsAreRight }
{}

/// So is each tag of a conversation of the server, under a key that this derives from the key of its user, its own nonce
/// and its own name.
#[tactic(auto, using(crate::proofs::RightMacs::server_tags_are_right))]
pub fn server_tags_are_right()
    ensures { ServerTagsAreRight }
{}

/// Two ends of EAP-PSK or EAP-GPSK whose methods have both succeeded agree, where the first tag that
/// each accepted is one that either end made.
#[tactic(auto, using(crate::proofs::Succeeding::both_agree))]
pub fn both_agree()
    ensures { BothAgree }
{}
