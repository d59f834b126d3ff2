//! Laws of two ends that run alone. Each is the contract of a function that does nothing.

ghost use Rattle.joined_laws.specs.EndsAlone.{EndsAloneMatch, ServersAloneMatch};
ghost use Rattle.joined_laws.specs.Joined.{BookIsDetermined, InterleavingsAreRuns, JoinedEndsAgree};

/// Two ends that run alone, and whose packets somebody carries, are the ends of a world. Take any settings of mode alone,
/// inputs of each end, and any interleaving of them; make each input an event, octets an injection at that end's port.
/// Then the run of these events has, for each end, exactly the variables and views that the end has alone after its own
/// inputs. So it is after each of the events, since each prefix of an interleaving is one.
pub fn interleavings_are_runs()
    ensures { InterleavingsAreRuns }
{}

/// The book of that world is given by both ends: the tags that each returns at its inputs, in the order of the
/// interleaving. So whoever has both ends and knows in which order their inputs came can judge whether tags are honest.
pub fn book_is_determined()
    ensures { BookIsDetermined }
{}

/// Two ends that run alone agree as those of a world do: whatever was carried between them, if each tag that one of
/// them accepted was made earlier by either, as the world over the interleaving books them, and both are in SUCCESS,
/// both report the same method, identities, suite, MSK and EMSK, which both policies allow. These are their own: ID_P
/// is the peer's name and ID_S the server's, the server has a user of that name and method who isn't barred, with the
/// peer's own key, and the suite, if the method has one, is the first of the server's list that the peer allows.
pub fn joined_ends_agree()
    ensures { JoinedEndsAgree }
{}

/// Any number of ends that run alone, each over its own inputs and with a nonce of its own, as the handles of the library for C that are
/// peers and stand-alone servers: what `any_ends_match` of login_laws says of conversations holds of them. An end's inputs are
/// packets, timers and indications of the lower layer, in any order and number; who carries packets between which ends isn't
/// asked.
pub fn ends_alone_match()
    ensures { EndsAloneMatch }
{}

/// What [`ends_alone_match`] says of one server in SUCCESS, whatever the peers and the other servers accepted: as `any_server_matches` of
/// login_laws, of the tags it is asked only that one of the peers made each under the key that this server accepted.
pub fn servers_alone_match()
    ensures { ServersAloneMatch }
{}
