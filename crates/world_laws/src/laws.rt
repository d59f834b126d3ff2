//! Laws of both ends over events. Each is the contract of a function that does nothing. A run is one of the two methods
//! but in `methods_agree` and `any_end_invariants`.

ghost use Rattle.world_laws.specs.Laws.{StartsOnce, HonestOfEither};
ghost use Rattle.world_laws.specs.Few.{FewPackets, FewTags};
ghost use Rattle.world_laws.specs.Downgrade.{DowngradesNeedNaks, NaksRefuse};
ghost use Rattle.world_laws.specs.EndInvariants.{EndInvariants, AnyEndInvariants};
ghost use Rattle.world_laws.specs.Fresh.{FreshnessIsExact};
ghost use Rattle.world_laws.specs.Laws.{DiscardsChangeNothing, ReportsAreTraced};
ghost use Rattle.world_laws.specs.Laws.{SkipsChangeNothing};
ghost use Rattle.world_laws.specs.MethodsAgree.{MethodsAgree};
ghost use Rattle.world_laws.specs.Passing.{PassCarries, PassIsAlone, PassIsDelivered};
ghost use Rattle.world_laws.specs.Passing.{PassLearnsNothing};
ghost use Rattle.world_laws.specs.SingleSteps.{StepsAreLawful};

/// An event that an end discards changes nothing but the counts and which of the nonces that are left have been seen in
/// a delivery: no variable and no method's view at either end, nothing sent and nothing in the book. If each report
/// that an end has was reported, as in every run, none is reported.
#[tactic(auto, using(crate::proofs::Discards::discards_change_nothing))]
pub fn discards_change_nothing()
    ensures { DiscardsChangeNothing }
{}

/// An event that is skipped changes nothing but the number of events: no variable and no method's view at any
/// party, nothing sent, nothing in the book, no conversation and no nonce seen, neither the deliveries nor the
/// discards. Its result names no party, no state, no packet and no report.
#[tactic(auto, using(crate::proofs::Skips::skips_change_nothing))]
pub fn skips_change_nothing()
    ensures { SkipsChangeNothing }
{}

/// In every run each report that an end has was reported.
pub fn reports_are_traced()
    ensures { ReportsAreTraced }
{}

/// A book in which each accepted tag was made earlier by the other end is one in which each was made
/// earlier by either end. So what is promised if a book is honest of either end is promised also if it is honest.
#[tactic(auto, using(crate::proofs::HonestOfEither::honest_of_either))]
pub fn honest_of_either()
    ensures { HonestOfEither }
{}

/// An end whose settings have no later nonces begins no second conversation: then both ends have begun one each in every run.
pub fn starts_once()
    ensures { StartsOnce }
{}

/// What a world says of freshness is so: in every run it is true exactly if each conversation began with a nonce whose
/// first 16 octets no conversation before it had, of either end, and which occurred one after the other in nothing that
/// had been delivered to a party before.
pub fn freshness_is_exact()
    ensures { FreshnessIsExact }
{}

/// In every run in mode through, whatever the setup: the pass-through's state and what it has sent are determined by
/// what came to it alone, from its first Identifier and MaxRetrans, by its own table (RFC 4137 section 7); and what it
/// sent is all that was sent to an end. The octets that come to it are those of a packet that was sent to its port, as
/// they are, altered or cut by the event that brings them, or are injected there.
pub fn pass_is_alone()
    ensures alone { PassIsAlone }
    ensures delivers { PassIsDelivered }
{}

/// The pass-through learns nothing that isn't delivered to it: two runs in mode through in which the same came to it
/// leave it the same and make it send the same, whatever keys, names, nonces, methods, users and policies the ends have
/// in either.
pub fn pass_learns_nothing()
    ensures { PassLearnsNothing }
{}

/// In every run in mode through each packet that the pass-through sends is its own Identity Request, or came to it from
/// the other side, and goes on without its padding.
pub fn pass_carries()
    ensures { PassCarries }
{}

/// In every run, whatever the settings and the events: the state of each end determines exactly which tags it has
/// accepted and made in its present conversation, also after a login that failed, and no other; what its method keeps
/// is of its own settings, with the nonce of that conversation, but for the other end's name and nonce and the suite
/// that it picked of a list; a decision other than FAIL comes from a method that has succeeded, and SUCCESS from such a
/// decision. It is said by the history of the method that is selected or current: `peer_histories_imply` and
/// `server_histories_imply` of `method_laws` say what each implies.
pub fn end_invariants()
    ensures { EndInvariants }
{}

/// Two ends with objects of any methods agree in every run if their methods do: each object stands at its own Type, which
/// the settings of its end name, both nonces have 32 octets, any two objects of theirs agree by what their histories
/// imply, as `both_agree` of `method_laws` says of the two, each accepted tag was made earlier by either end, and no end
/// has begun a second conversation. Then two ends that are both in SUCCESS report the same, names, key and suite are
/// their own, and both policies allow it. A maker of a method owes that its objects agree.
pub fn methods_agree()
    ensures { MethodsAgree }
{}

/// What [`end_invariants`] says, of ends with objects of any methods.
pub fn any_end_invariants()
    ensures { AnyEndInvariants }
{}

/// A run of so many events sends at most one packet more.
pub fn few_packets()
    ensures { FewPackets }
{}

/// However many events there are, an end that has begun so many conversations has accepted at most twice as many tags in
/// them on the whole, and made at most twice as many, so that the book has at most four for each conversation that has
/// begun. That it is at most two in each is said by [`conversations_are_all`].
pub fn few_tags()
    ensures { FewTags }
{}

/// Each step of a run is lawful, seen from outside: what the peer sends is a Response with the Identifier of what was
/// delivered to it (RFC 3748 section 4.1); what is sent again is the last packet to its port; in mode
/// alone a Request that the server sends in a delivery has the next Identifier; a party that has ended sends
/// nothing, unless it begins again; an end in SUCCESS has accepted a tag in its present conversation.
pub fn steps_are_lawful()
    ensures { StepsAreLawful }
{}

/// Downgrade by a Nak. If the server's current method is one that the peer allows, and not the first such one of the
/// server's order, then in its present conversation the server took a Nak, or an Expanded Nak, that was delivered to it
/// (RFC 3748 section 5.3). And wherever the peer sends these octets anew, not by RETRANSMIT, it answers a Request of a Type
/// that it doesn't allow, as [`naks_refuse`] says, so none for that first method. So no run without such a Nak leads the
/// server past that method: somebody else made the Nak, or led the peer to it by such a Request. A server that reads
/// Expanded Types asks for a method by a Request of Type 254, which a peer that doesn't read them doesn't allow.
pub fn downgrades_need_naks()
    ensures { DowngradesNeedNaks }
{}

/// In every run each Nak or Expanded Nak that the peer sends anew, not by RETRANSMIT, answers a delivery that begins with a
/// Request of a Type that the peer doesn't allow: by its plain form, if the peer reads Expanded Types (RFC 3748 section 5.7).
pub fn naks_refuse()
    ensures { NaksRefuse }
{}
