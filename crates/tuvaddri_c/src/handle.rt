//! The handle that a program in C keeps.

ghost use Rattle.std.specs.Prelude.{◌≡◌, IsTrue, Some};
ghost use Rattle.tuvaddri_c.specs.declared.session.Session.{Session};
ghost use Rattle.tuvaddri_c.specs.Capacities.{IsCopied};
ghost use Rattle.tuvaddri_c.specs.Sent.{no_end, sent_of, turn_packet};
ghost use Rattle.tuvaddri_c.specs.contracts.session.Session.{the_row};
ghost use denote.Param.{layout};
ghost use prog.Memory.{size, capped};

use crate::place::TuvPlace;
use crate::rooms::copy;
use crate::session::{End, Session};
use std::alloc::Global;
use std::marker::Model;
use std::mem::size_of;

/// A session on the heap. The program stores it by value, and passes it to each call.
#[repr(C)]
pub struct TuvEnd {
    at: *mut u8,
    alloc: Global,
    pub ghost value: { Session },
}

impl Model for TuvEnd {
    ghost use Rattle.std.specs.Box.Ownership.{box_owns};
    ghost use Rattle.std.specs.contracts.impls.GlobalAllocator.TheImpl.{ghosts};
    ghost use Rattle.tuvaddri_c.specs.contracts.session.Session.{the_row};

    ghost also_owns = { λ e. box_owns (ghosts.dealloc_token e.alloc) the_row e.at e.value };
}

impl TuvEnd {
    ghost use Rattle.std.specs.Borrow.{sem};
    ghost use Rattle.tuvaddri_c.specs.Borrowing.{BorrowsSession};

    /// The session.
    pub fn session(&mut self) -> &mut Session
        ensures* writes_back { sem 𝓛 (BorrowsSession self.entry result) }
        ensures value { result.now ≡ self.old.value }
    {
        unsafe { &mut *(self.at as *mut Session) }
    }
}

/// The number of this interface: a program compares it with that of its header.
#[unsafe(no_mangle)]
pub extern "C" fn tuv_version() -> u32
    ensures { result ≡ 2 }
{
    2
}

/// Makes a session without an end at this place, and answers true; false for want of memory, and the place stays as it
/// was. The program releases its block by `tuv_end_free`.
#[unsafe(no_mangle)]
pub extern "C" fn tuv_end_new(alloc: Global, place: &mut TuvPlace) -> bool
    ensures created { IsTrue result → place.new.content ≡ Some no_end }
    ensures refused { (IsTrue result → ⊥) → place.new ≡ place.old }
{
    match Box::new(alloc, Session::closed()) {
        Err(_) => false,
        Ok(session) => {
            *place = TuvPlace::of(session);
            true
        }
    }
}

/// The octets of the block: the program clears so many before it releases the block.
#[unsafe(no_mangle)]
pub extern "C" fn tuv_end_size() -> usize
    ensures { result ≡ capped (size (layout the_row)) }
{
    size_of::<Session>()
}

/// Drops the end and what it has, and its last packet. A handle that is closed stays so.
#[unsafe(no_mangle)]
pub extern "C" fn tuv_end_close(end: &mut TuvEnd)
    ensures { end.new.value ≡ no_end }
{
    let session = end.session();
    session.end = End::Closed;
    session.fresh = false;
}

/// Answers the length of the packet of the end's last turn, or of `tuv_server_method_begin`: 0 if that turn sent none.
/// Copies the packet to the start of `room` if it fits; else it copies nothing, and the packet is still there.
#[unsafe(no_mangle)]
pub extern "C" fn tuv_end_packet(end: &mut TuvEnd, room: &mut [u8]) -> usize
    ensures same { end.new.value ≡ end.old.value }
    ensures packet { IsCopied (turn_packet (sent_of end.old.value)) room.old result room.new }
{
    copy_fresh(end.session(), room)
}

fn copy_fresh(session: &Session, room: &mut [u8]) -> usize
    ensures { IsCopied (turn_packet (sent_of session.now)) room.old result room.new }
{
    if session.fresh {
        copy(session.end.last_packet(), room)
    } else {
        copy(&[], room)
    }
}

/// The same of the packet that the end sent last since its begin or restart, whatever came since.
#[unsafe(no_mangle)]
pub extern "C" fn tuv_end_last_packet(end: &mut TuvEnd, room: &mut [u8]) -> usize
    ensures same { end.new.value ≡ end.old.value }
    ensures packet { IsCopied (sent_of end.old.value).packet room.old result room.new }
{
    copy(end.session().end.last_packet(), room)
}
