//! Where a handle is made.

ghost use Rattle.std.specs.Prelude.{◌≡◌, Option, Some};
ghost use Rattle.tuvaddri_c.specs.declared.session.Session.{Session};

use crate::parts::Parts;
use crate::session::Session;
use std::alloc::Global;
use std::marker::Model;

/// The place of a handle, before and after it is made: it owns the block of a session, or nothing.
#[repr(C)]
#[derive(Drop)]
pub struct TuvPlace {
    at: *mut u8,
    alloc: Global,
    pub ghost content: { Option Session },
}

impl Model for TuvPlace {
    ghost use Rattle.std.specs.contracts.impls.GlobalAllocator.TheImpl.{ghosts};
    ghost use Rattle.tuvaddri_c.specs.Place.{owns_if};

    ghost also_owns = { λ p. owns_if (ghosts.dealloc_token p.alloc) p.at p.content };
}

impl TuvPlace {
    /// The place of this session.
    pub fn of(session: Box<Session>) -> TuvPlace
        ensures { result.content ≡ Some session.value }
    {
        TuvPlace::of_parts(Parts::of(session))
    }

    /// The same of its parts. (C has no name for what the pointer points to.)
    fn of_parts(parts: Parts<Session, Global>) -> TuvPlace
        ensures { result.content ≡ Some parts.value }
    {
        let Parts { at, alloc } = parts;
        TuvPlace {
            at: at as *mut u8,
            alloc,
        }
    }
}
