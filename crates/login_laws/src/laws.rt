//! Laws of logins by EAP-PSK and EAP-GPSK over events. Each is the contract of a function that does nothing.

ghost use Rattle.login_laws.specs.Agreement.{HonestEndsAgree, HonestNamesAreTheirs};
ghost use Rattle.login_laws.specs.Alone.{OneEndImplies};
ghost use Rattle.login_laws.specs.AnyEnds.{AnyEndsMatch, AnyServerMatches};
ghost use Rattle.login_laws.specs.Confirmed.{GpskServersConfirmed, GpskServersConfirmedOrCollide};
ghost use Rattle.login_laws.specs.Forgery.{AgreeOrForged, EachTagIsRight};
ghost use Rattle.login_laws.specs.GpskReflected.{ReflectedGpskEndsAgree};
ghost use Rattle.login_laws.specs.Identity.{ServersReportTheirUser};
ghost use Rattle.login_laws.specs.Matching.{ConversationsAreAll, ConversationsMatch};
ghost use Rattle.login_laws.specs.OwnTags.{GpskPeersAcceptNoOwnTags};
ghost use Rattle.login_laws.specs.PresentUnderKey.{EndsAgreeUnder, OneEndImpliesUnder};
ghost use Rattle.login_laws.specs.PskReflected.{ReflectedEndsAgree};
ghost use Rattle.login_laws.specs.NewKeys.{KeysAreNew};
ghost use Rattle.login_laws.specs.SessionIds.{SessionIdsMatch};
ghost use Rattle.login_laws.specs.UnconditionalPsk.{PskSuccessIsUnconditional};
ghost use Rattle.login_laws.specs.UnderKey.{ConversationsMatchUnder, HonestUnder};

/// Whatever is delivered, lost, repeated, reordered, altered, injected or restarted: if each tag that an end accepted
/// was made earlier by the other end, and no end has begun a second conversation or each conversation has begun with a
/// fresh nonce, two ends that are both in SUCCESS agree in method, identities, suite, MSK and EMSK, which both
/// policies allow; with fresh nonces each then has the nonce of the other's present conversation, by EAP-PSK the 16
/// octets that are all it has of it (RFC 4764 section 3.2), by EAP-GPSK all 32. If no end has begun a second one,
/// they agree also if each accepted tag was made earlier by either end, so that reflected ones do no harm.
pub fn honest_ends_agree()
    ensures { HonestEndsAgree }
{}

/// Under the premises of [`honest_ends_agree`], both ends report one value in their present conversations, and it is
/// about them: ID_Peer and ID_Server are the names of their own setups, the server has a user of that name and method
/// who is not barred, and the user's PSK is the peer's own. By EAP-GPSK the ciphersuite is the first of the server's
/// own CSuite_List that the peer allows (RFC 5433 section 3): no alteration of GPSK-1 brings both ends to a weaker one.
pub fn honest_names_are_theirs()
    ensures { HonestNamesAreTheirs }
{}

/// What one end's success implies by itself, whatever the other end does, in whichever of its conversations.
///
/// If each tag that an end accepted was made earlier by the other end and each conversation has begun with a fresh
/// nonce, a peer in SUCCESS has been heard: a conversation of the server and the peer's present one have each other's
/// nonces, and that conversation has accepted a tag of the peer's that only one with these nonces can have made. Its
/// login leads to just what the peer reports, in identities, suite, MSK and EMSK; these are both ends' own names, and
/// the server's user of that name has the peer's own PSK. By EAP-PSK also if either end made each accepted tag.
///
/// If each accepted tag was made earlier by either end, fresh nonces or not, a server in SUCCESS has heard the peer: a
/// conversation of the peer and the server's present one have each other's nonces, and the server has accepted a tag
/// which that conversation has made, and only one with these nonces can have made. Its login leads to the server's
/// method, suite, MSK and EMSK from the same PSK; by EAP-GPSK to the same identities too, by EAP-PSK to the same ones
/// joined, as MAC_P covers them (RFC 4764 section 5.2). If the other end made each accepted tag, and no end has
/// begun a second conversation, to the same ones by either method.
///
/// By EAP-GPSK they have all 32 octets of each other's nonces, by EAP-PSK the 16 that are all it has of them. The other end's
/// conversation is one of those of [`conversations_are_all`].
///
/// It doesn't say that the other end has succeeded too, or will.
pub fn one_end_implies()
    ensures { OneEndImplies }
{}

/// Tags may come back to their maker, and ends may begin new conversations: if each accepted tag was made earlier by
/// either end, in whichever of its conversations, and each conversation has begun with a fresh nonce, two ends that are
/// both in SUCCESS, the peer by EAP-PSK, agree on names, key and suite that are their own, and each has the nonce of
/// the other's present conversation. Of a peer by EAP-GPSK [`reflected_gpsk_ends_agree`] tells.
pub fn reflected_ends_agree()
    ensures { ReflectedEndsAgree }
{}

/// The same of a peer by EAP-GPSK whose present nonce doesn't begin with the length of its own name in two octets, as a random one does
/// once in 65,536. Of one that does it is false: both ends may be in SUCCESS and apart.
pub fn reflected_gpsk_ends_agree()
    ensures { ReflectedGpskEndsAgree }
{}

/// Matching conversations, in every run and in both modes: what is said of two present ones holds of all, past and
/// present, each as it was when its end began the next one. A conversation rests on one of the other end if the first
/// tag that it accepted was made there.
///
/// If nonces are fresh, no two conversations of an end in SUCCESS rest on the same one of the other end. If each
/// accepted tag was made earlier by either end besides, each conversation of the server in SUCCESS rests on one of the
/// peer and on no other, and they have each other's nonces; without fresh nonces, on one at least. If the other end
/// made it, each one of the peer in SUCCESS rests on one of the server and on no other, which rests on it in its turn,
/// and they have each other's nonces; by EAP-PSK so it is also if either end made it. If both have succeeded,
/// their reports agree.
///
/// Over honest tags and fresh nonces the login of the peer's conversation on which one of the server in SUCCESS rests
/// leads to just what that reports, names, suite and keys; and by EAP-PSK that conversation has accepted PSK-3, as
/// PSK-4's header shows (RFC 4764 section 5.4). Whatever tags and nonces are, the login of the server's conversation on
/// which one of the peer in SUCCESS rests, and which rests on that in its turn, leads to just what the peer's reports; and
/// the login of the peer's on which one of the server in SUCCESS rests has the method, suite, MSK and EMSK that this
/// reports. It doesn't say that the conversation on which one in SUCCESS rests has succeeded too, or will.
///
/// Two that rest so are of one method, and by EAP-GPSK have all 32 octets of each other's nonces.
pub fn conversations_match()
    ensures { ConversationsMatch }
{}

/// The same of one user of the server, whatever its other users do with keys of their own, and whoever they are: what is asked of tags is
/// asked of those under the key that the peer has for a method, and of no other. Over fresh nonces a login of that user is confirmed as
/// there: what the server reports, the peer's login leads to; and by EAP-PSK that has succeeded, and reports it.
pub fn conversations_match_under_a_key()
    ensures { ConversationsMatchUnder }
{}

/// What [`honest_ends_agree`] and [`honest_names_are_theirs`] say, whatever the server's other users do: of the tags it is asked only that
/// each accepted one under the key which the peer has for its method was made earlier by the other end. Two ends in SUCCESS then agree, on
/// names, key and suite that are their own, if the server's success is of a user of that key, and no end has begun a second conversation
/// or nonces are fresh; with fresh nonces each has the other's nonce. As long as no end has begun a second conversation, the server's
/// success *is* of a user of that key, and reflected tags do no harm if it is; by EAP-PSK they do none with fresh nonces either.
pub fn ends_agree_under_a_key()
    ensures { EndsAgreeUnder }
{}

/// What [`one_end_implies`] says, whatever the server's other users do: of the tags under the peer's key for a method alone it is asked that
/// the other end made each accepted one, or either end. It speaks of a peer that has succeeded by that method, and of a server whose
/// success is of a user of that key.
pub fn one_end_implies_under_a_key()
    ensures { OneEndImpliesUnder }
{}

/// What [`conversations_match_under_a_key`] asks of tags follows from what [`conversations_match`] asks.
pub fn honest_under_a_key()
    ensures { HonestUnder }
{}

/// The conversations of [`conversations_match`] are all: each end has one for each time that it has begun, in order and
/// with the nonce with which it began, and is in the last of them; their tags joined are those of the book; and the
/// state of an end, now or as it began the next one, determines exactly the tags that it accepted and made in it, which
/// are at most two each.
pub fn conversations_are_all()
    ensures { ConversationsAreAll }
{}

/// The Session-Id of a login (RFC 5247 section 1.4). Two conversations in SUCCESS that rest on each other, as [`conversations_match`] finds
/// them, make it of the same report and the same nonces, so that it is equal, whichever key EAP-GPSK's KDF is given. Any two conversations
/// of the peer whose methods have succeeded make it of others, if nonces are fresh: by EAP-PSK the two Session-Ids differ, by EAP-GPSK
/// what the KDF derives them from does (RFC 5433 section 4). That its 16 octets differ then isn't proved of any KDF.
pub fn session_ids_match()
    ensures { SessionIdsMatch }
{}

/// By EAP-PSK any two conversations of the peer whose methods have succeeded have different MSKs and different EMSKs, if nonces are fresh:
/// both are AES under KDK of RAND_P alone (RFC 4764 section 3.2), and AES gives different blocks for different ones. The key has 16 octets.
pub fn keys_are_new()
    ensures { KeysAreNew }
{}

/// Each tag in the book of a run, accepted or made by an end in any of its conversations, is the right MAC of the octets that
/// it covers, by the algorithm and under the key of its label: MAC_P and MAC_S are AES-CMAC under AK, the tag of PCHANNEL is
/// EAX's under TEK (RFC 4764 sections 3 and 5), and the MAC of a message of EAP-GPSK is the ciphersuite's under SK (RFC 5433
/// sections 4 and 8). That conversation derives the key from its own settings, PSK, name and nonce, and from the other end's
/// name and nonce and the ciphersuite that its report has; at the server the PSK is that of the user of the report's ID_Peer.
pub fn each_tag_is_right()
    ensures { EachTagIsRight }
{}

/// A broken tag is a forgery: in every run the book of tags is honest, or its first accepted tag that the other end had not
/// made before is the right MAC of its octets under a key that the accepting conversation derives, and no tag that the other
/// end had made before has the same method, label, PSK, octets and MAC. That is the event of a reduction to the MAC's
/// unforgeability. So it is of the tags that neither end had made, and of those under one PSK alone. If no end has begun a
/// second conversation, or nonces are fresh, two ends that are both in SUCCESS agree, or the run shows such a tag: under the
/// peer's key for its method, if the server's success is of a user of that key. If no end has begun a second conversation,
/// or by EAP-PSK if nonces are fresh, it is one that neither end had made: a tag that came back to its maker is no forgery.
pub fn agree_or_forged()
    ensures { AgreeOrForged }
{}

/// In every run a peer whose decision by EAP-PSK isn't FAIL has decided for a success that nothing can undo: methodState DONE,
/// decision UNCOND_SUCC (RFC 4137 section 4.2). So what `unconditional_success_stays` of `peer_machine` says holds of it.
pub fn psk_success_is_unconditional()
    ensures { PskSuccessIsUnconditional }
{}

/// Key confirmation to a server by EAP-GPSK: if one conversation of the peer made each tag that one of the server in SUCCESS accepted, and
/// that made each tag that this accepted, the peer's has succeeded, with just the server's report. Both may be of any runs.
pub fn gpsk_servers_confirmed()
    ensures { GpskServersConfirmed }
{}

/// Key confirmation to a server by EAP-GPSK under the premises of [`any_ends_match`] alone: the peer's conversation on which a server in
/// SUCCESS of a user of that key rests has succeeded, with just the server's report. Or another conversation of a peer made the MAC of
/// GPSK-4 that the server accepted, and it is right under keys that both derive from different inputs of the KDF.
pub fn gpsk_servers_confirmed_or_collide()
    ensures { GpskServersConfirmedOrCollide }
{}

/// A peer by EAP-GPSK in SUCCESS has accepted none of its own tags, in whichever of its conversations it made them, if its nonce
/// doesn't begin with the length of its own name in two octets, as a random one does once in 65,536.
pub fn gpsk_peers_accept_no_own_tags()
    ensures { GpskPeersAcceptNoOwnTags }
{}

/// Any number of ends, as a login server has them: take conversations of peers of the same settings, and of servers of the same settings,
/// each with a nonce of its own, of whatever runs, in no order. Suppose that each tag under the peer's key that one of them accepted is
/// among those that one of the other role made, and that no two of a role have nonces whose first 16 octets are the same. Then each
/// server in SUCCESS of a user of that key rests on exactly one peer's conversation, whose login has the keys that it reports, and no
/// other server in SUCCESS rests on that one; each peer in SUCCESS rests on exactly one server's, which rests on it; and two in SUCCESS
/// of which the server rests on the peer agree.
pub fn any_ends_match()
    ensures { AnyEndsMatch }
{}

/// What [`any_ends_match`] says of one server in SUCCESS, whatever the peers and the other servers accepted: of the tags it is asked only that
/// those under the key which this server accepted are among those that one of the peers made.
pub fn any_server_matches()
    ensures { AnyServerMatches }
{}

/// A server in SUCCESS reports the name of one of its users. So one whose users are those of the name in the Identity Response alone
/// reports that name, though no MAC covers the Identity.
pub fn servers_report_their_user()
    ensures { ServersReportTheirUser }
{}
