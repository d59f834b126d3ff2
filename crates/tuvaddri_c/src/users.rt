//! The users of a server: those that it is given one by one, and the one that is given while it runs.

ghost use Rattle.std.specs.Prelude.{◌≡◌, [], ◌∷◌, ◌++◌, true, false, None, IfSome, if◌then◌else◌};
ghost use Rattle.octet_lists.specs.Among.{is_kind};
ghost use Rattle.login_setup.specs.Setup.{has_valid_key};
ghost use Rattle.login_setup.specs.Users.{HasCapacity};
ghost use Rattle.server_machine.specs.ServerTable.{with_users};
ghost use Rattle.end_objects.specs.Refusals.{IsSoundOther, user_refusal};
ghost use Rattle.end_objects.specs.Settings.{max_others, settings_of, users_of};
ghost use Rattle.tuvaddri_c.specs.Answers.{ok, wrong_end, refusal_number};
ghost use Rattle.tuvaddri_c.specs.Ends.{IfServer, AsServer, IfBackend, AsBackend, can_restart};
ghost use Rattle.tuvaddri_c.specs.Methods.{IfServerMethod, is_server_method};
ghost use Rattle.tuvaddri_c.specs.Sent.{sent_of};
ghost use Rattle.tuvaddri_c.specs.Settled.{is_settled};
ghost use Rattle.tuvaddri_c.specs.Users.{has_users, AcceptsUser};

use crate::answers::{BAD_KEY, NO_PLACE, STARTED, number_of_refusal};
use crate::by_method::add_users;
use crate::handle::TuvEnd;
use crate::session::{Backend, CheckedUsers, End, Server};
use eap_method::ServerMethod;
use end_objects::{ServerObject, Settings, keyed_kinds, user_refusal};
use login_setup::{User, UserList};
use octet_lists::is_among;

/// A machine that has users: a stand-alone server or a backend.
pub trait HasUsers {
    ghost use Rattle.end_objects.specs.declared.objects.ServerObject.{ServerObject};
    ghost use Rattle.server_machine.specs.ServerTable.{ServerValue};

    /// What contracts see of it.
    ghost seen: { Self → ServerValue ServerObject };

    /// It knows this user too.
    fn add(&mut self, user: User)
        requires capacity { HasCapacity max_others (seen self.old).vars.setup.users user }
        requires kind { is_kind user.kind ≡ true }
        requires key { has_valid_key user ≡ true }
        ensures { seen self.new
            ≡ with_users (seen self.old) ((seen self.old).vars.setup.users ++ user ∷ []) };

    /// It knows no user.
    fn clear(&mut self)
        ensures { seen self.new ≡ with_users (seen self.old) [] };
}

impl HasUsers for Server {
    ghost seen = { λ m. m };

    #[tactic(auto, using(login_setup::proofs::Sound::kind_is_of_method))]
    #[inline(always)]
    fn add(&mut self, user: User) {
        self.add_user(user)
    }

    fn clear(&mut self) {
        self.set_users(UserList::new())
    }
}

impl HasUsers for Backend {
    ghost seen = { λ m. m };

    #[tactic(auto, using(login_setup::proofs::Sound::kind_is_of_method))]
    #[inline(always)]
    fn add(&mut self, user: User) {
        self.add_user(user)
    }

    fn clear(&mut self) {
        self.set_users(UserList::new())
    }
}

/// The user of the settings takes the place of those before. (They are added where they stay.)
fn change_users<M: HasUsers>(machine: &mut M, settings: &Settings)
    requires { IsSoundOther (settings_of settings.now) }
    ensures { M.seen machine.new
        ≡ with_users (M.seen machine.old) (users_of (settings_of settings.now)) }
{
    machine.clear();
    add_users(machine, settings);
}

/// Gives a stand-alone server or a backend its one user, the other end of the settings with its keys, in place of the
/// users that it had, in any state, and answers 0. Else it answers the number of the refusal, or 9 at another end,
/// and nothing is changed.
#[unsafe(no_mangle)]
pub extern "C" fn tuv_server_set_user(end: &mut TuvEnd, settings: &Settings) -> u8
    ensures refused { IfSome (user_refusal (settings_of settings.now))
        (λ reason. result ≡ refusal_number reason) }
    ensures accepted { user_refusal (settings_of settings.now) ≡ None
        → result ≡ (if has_users end.old.value.end then ok else wrong_end) }
    ensures server { result ≡ ok
        → IfServer end.old.value.end (λ m. AsServer end.new.value.end (λ n.
        n ≡ with_users m (users_of (settings_of settings.now)))) }
    ensures backend { result ≡ ok
        → IfBackend end.old.value.end (λ m. AsBackend end.new.value.end (λ n.
        n ≡ with_users m (users_of (settings_of settings.now)))) }
    ensures objects { can_restart end.old.value.end ≡ true → can_restart end.new.value.end ≡ true }
    ensures settled { is_settled end.old.value.end ≡ true → is_settled end.new.value.end ≡ true }
    ensures sent { sent_of end.new.value ≡ sent_of end.old.value }
    ensures unchanged { (result ≡ ok → ⊥) → end.new.value ≡ end.old.value }
{
    match user_refusal(settings) {
        Some(refusal) => number_of_refusal(refusal),
        None => match &mut end.session().end {
            End::Server(machine, _) => {
                change_users(machine, settings);
                STARTED
            }
            End::Backend(machine, _) => {
                change_users(machine, settings);
                STARTED
            }
            _ => NO_PLACE,
        },
    }
}

/// The user of the settings takes the place of those before.
pub fn put(known: &mut CheckedUsers, settings: &Settings)
    requires { IsSoundOther (settings_of settings.now) }
    ensures { known.new.users ≡ users_of (settings_of settings.now) }
{
    known.users = UserList::new();
    end_objects::add_users(&mut known.users, settings);
}

/// Gives a server's method its one user, as `tuv_server_set_user`, and answers 0. If there is no key for its method it
/// answers 6; at another end 9.
#[unsafe(no_mangle)]
pub extern "C" fn tuv_server_method_user(end: &mut TuvEnd, settings: &Settings) -> u8
    ensures refused { IfSome (user_refusal (settings_of settings.now))
        (λ reason. result ≡ refusal_number reason) }
    ensures method { user_refusal (settings_of settings.now) ≡ None
        → IfServerMethod end.old.value.end (λ o before.
        AcceptsUser (settings_of settings.now) o result end.new.value.end) }
    ensures misplaced { user_refusal (settings_of settings.now) ≡ None
        → is_server_method end.old.value.end ≡ false → result ≡ wrong_end }
    ensures sent { sent_of end.new.value ≡ sent_of end.old.value }
    ensures unchanged { (result ≡ ok → ⊥) → end.new.value ≡ end.old.value }
{
    match user_refusal(settings) {
        Some(refusal) => number_of_refusal(refusal),
        None => match &mut end.session().end {
            End::ServerMethod(object, known, _) => {
                if is_among(keyed_kinds(settings).as_slice(), object.kind()) {
                    put(known, settings);
                    STARTED
                } else {
                    BAD_KEY
                }
            }
            _ => NO_PLACE,
        },
    }
}
