//! Smooth logins: two ends that fit, over a network that delivers each packet once and in order, succeed
//! within a known number of deliveries: first, and again behind the restarts of all parties. Each law is the
//! contract of a function that does nothing.
#![tactic(auto)]

ghost use Rattle.smooth_laws.specs.Again.{SmoothLoginsSucceedAgain};
ghost use Rattle.smooth_laws.specs.Trailing.{RunsGoOnAsTheirOwn};
ghost use Rattle.smooth_laws.specs.Restarts.{RestartsStartAnew, LoginsAfterRestartsSucceed};
ghost use Rattle.smooth_laws.specs.Restarts.{LoginsSucceed};
ghost use Rattle.smooth_laws.specs.Smooth.{SmoothLoginsSucceed};

/// A login between two ends that fit, each of whose packets is delivered once and in order, succeeds: after 7
/// deliveries, or 9 if the peer answers the server's first method by a Nak (RFC 3748 section 5.3.1); through
/// the pass-through after 13, or 17. Both ends are then in SUCCESS, no delivery was discarded, each accepted
/// tag was made earlier by the other end, and the ends agree; no further delivery changes that, and one delivery
/// earlier the peer has not succeeded. So it is by EAP-GPSK and by EAP-PSK, in either mode, with Expanded Types
/// (section 5.7) or without, for each first Identifier, each name, key and order of methods and suites, and whatever
/// nonces.
pub fn smooth_logins_succeed()
    ensures { SmoothLoginsSucceed }
{}

/// From any world whose parties have just begun again, events in which no party begins again do what they do in a
/// run of its own with the present nonces: the parties come to the same, and so report the same; the packets and tags of
/// that run follow those that the world had; its events, deliveries and discards are added to those counted; an end has
/// had a report if it had one in that world, or has had one in that run. Which conversations have begun, and whether
/// their nonces were fresh, stay as they were; of the nonces that are left nothing is said.
pub fn runs_go_on_as_their_own()
    ensures { RunsGoOnAsTheirOwn }
{}

/// So a login succeeds there as the first one does: from any world whose parties have just begun again, two ends that
/// fit succeed after as many deliveries of the packets sent from then on. No delivery was discarded since, the tags
/// are as honest as they were, and the ends agree in their present conversations, whatever went before.
pub fn smooth_logins_succeed_again()
    ensures { SmoothLoginsSucceedAgain }
{}

/// If each end has a nonce left, the restart of every party, in any order, leads to such a world, whatever the states
/// of the parties and whatever was delivered, altered or injected before. Nothing is booked or discarded by it; and
/// nonces are fresh afterwards exactly if they were, each of the two is new, and their first 16 octets differ.
pub fn restarts_start_anew()
    ensures { RestartsStartAnew }
{}

/// So after any run and the restarts of all parties a smooth login between two ends that fit succeeds, in as many
/// deliveries as the first one.
pub fn logins_after_restarts_succeed()
    ensures { LoginsAfterRestartsSucceed }
{}

/// So any number of logins one after the other succeed, each a smooth one behind the restarts of all parties: after
/// each of them both ends are in SUCCESS in their present conversations and agree, no delivery was ever discarded,
/// and each accepted tag of the run was made earlier by the other end. Nonces are fresh exactly if the first two
/// differ in their first 16 octets, and each of those with which the ends began again was new.
pub fn logins_succeed()
    ensures { LoginsSucceed }
{}
