//! The users that a text gives.

ghost use Rattle.std.specs.Prelude.{◌≡◌};
ghost use Rattle.text_tables.specs.Users.{with_user};

use login_setup::{User, Users};

/// Adds a user, unless 16 are there or one of them has its name and kind.
pub fn add_user(users: &mut Users, user: User)
    ensures { users.new ≡ with_user users.old user }
{
    users.add(user);
}
