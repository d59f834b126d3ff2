//! The users that a server knows.

ghost use Rattle.std.specs.Prelude.{◌≡◌, ◌↔◌, ◌≤◌, ◌<◌, [], ◌∷◌, ◌++◌, length, IsTrue};
ghost use Rattle.std.specs.Prelude.{option_copied};
ghost use Rattle.login_setup.specs.Users.{user_of, is_named, HasCapacity, AreDistinct, max_users};

use arrayvec::ArrayVec;
use octet_lists::{Identity, Secret};
use std::marker::Model;

/// The most users of a server.
pub const MAX_USERS: usize = 16;

/// A user of a server: a name and a method, with the key that both share.
#[derive(Drop, Default)]
pub struct User {
    /// The user's name, of 1 to 253 octets.
    pub name: Identity,
    /// The method that the key is for: 47 (EAP-PSK), 51 (EAP-GPSK), or the Type of a maker's.
    pub kind: u8,
    /// The key: 16 octets for 47, 32 to 64 for 51, at most 64 for any other.
    pub psk: Secret,
    /// True if the server refuses the user by a protected failure.
    pub barred: bool,
}

impl User {
    /// An equal value.
    pub fn copy(&self) -> User
        ensures { result ≡ self.now }
    {
        User {
            name: self.name.copy(),
            kind: self.kind,
            psk: self.psk.copy(),
            barred: self.barred,
        }
    }

    /// True if the user has this name and kind.
    fn is_named(&self, name: &[u8], kind: u8) -> bool
        ensures { result ≡ is_named name.now kind self.now }
    {
        self.kind == kind && self.name.as_slice() == name
    }
}

/// At most 16 users whose pairs of name and kind are distinct.
pub type Users = UserList<MAX_USERS>;

/// At most `N` users, and at most 16, whose pairs of name and kind are distinct. Contracts see the list of the users.
#[derive(Drop)]
pub struct UserList<const N: usize> {
    list: ArrayVec<User, N>,
}

impl<const N: usize> Model for UserList<N> {
    ghost use Rattle.std.specs.Prelude.{List};
    ghost use Rattle.login_setup.specs.declared.users.User.{User};
    ghost use Rattle.login_setup.specs.Users.{AreUsers};

    ghost Value = { List User };

    ghost view = { λ u. u.list.items };

    ghost invariant = { λ u. AreUsers u.list.items };
}

impl<const N: usize> UserList<N> {
    /// No users.
    pub fn new() -> UserList<N>
        ensures { result ≡ [] }
    {
        UserList {
            list: ArrayVec::new(),
        }
    }

    /// The list of users equal to these, of which there are at most `N`.
    pub fn of(users: &[User]) -> UserList<N>
        requires distinct { AreDistinct users.now }
        requires few { length users.now ≤ max_users }
        requires capacity { length users.now ≤ N }
        ensures { result ≡ users.now }
    {
        let mut copied = ArrayVec::new();
        for user in users {
            copied.push(user.copy());
        }
        UserList { list: copied }
    }

    /// The user of this name and kind, or None if there is none.
    pub fn find(&self, name: &[u8], kind: u8) -> Option<&User>
        ensures { option_copied result ≡ user_of self.now name.now kind }
    {
        find_user(self.list.as_slice(), name, kind)
    }

    /// Appends the user and answers true. If `N` or 16 users are there, or one of them has the same name and kind, it
    /// answers false and changes nothing.
    pub fn add(&mut self, user: User) -> bool
        ensures capacity { IsTrue result ↔ HasCapacity N self.old user }
        ensures added { HasCapacity N self.old user → self.new ≡ self.old ++ user ∷ [] }
        ensures unchanged { (HasCapacity N self.old user → ⊥) → self.new ≡ self.old }
    {
        if !self.has_capacity() || self.find(user.name.as_slice(), user.kind).is_some() {
            return false;
        }
        self.list.push(user);
        true
    }

    /// Whether there is room for one user more.
    fn has_capacity(&self) -> bool
        ensures { IsTrue result ↔ ((length self.now < N) × (length self.now < max_users)) }
    {
        !self.list.is_full() && self.list.len() < MAX_USERS
    }

    /// The users in order.
    pub fn as_slice(&self) -> &[User]
        ensures same { result.now ≡ self.now }
        ensures distinct { AreDistinct result.now }
        ensures few { length result.now ≤ max_users }
    {
        self.list.as_slice()
    }

    /// An equal value.
    pub fn copy(&self) -> UserList<N>
        ensures { result ≡ self.now }
    {
        UserList::of(self.list.as_slice())
    }
}

/// The user of this name and kind among these, or None if there is none.
pub fn find_user<'a>(users: &'a [User], name: &[u8], kind: u8) -> Option<&'a User>
    ensures { option_copied result ≡ user_of users.now name.now kind }
{
    users.iter().find(|user| user.is_named(name, kind))
}
