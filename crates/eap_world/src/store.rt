//! The packets that were sent.

ghost use Rattle.std.specs.Prelude.{◌≡◌, ◌≤◌, ◌+◌, ◌++◌, ◌∷◌, [], true, length, take, drop, Some};
ghost use Rattle.std.specs.Prelude.{IfSome, is_some};
ghost use Rattle.octet_lists.specs.Sizes.{max_packet};
ghost use Rattle.eap_world.specs.Sent.{last_to, packet_numbered, same_port};
ghost use Rattle.eap_world.specs.Store.{AreThere, IsThere, last_slot, sent_of_slot, packet_at};
ghost use Rattle.eap_world.specs.Store.{packets_at};

use login_setup::Port;
use octet_lists::MAX_PACKET;
use std::alloc::Global;
use std::marker::Model;

/// The place of a packet's octets, and the port to which it goes.
#[derive(Clone, Copy, PartialEq, Eq, Debug)]
pub struct Slot {
    pub port: Port,
    /// The place of its first octet among the octets of all packets.
    pub place: usize,
    /// How many octets it has.
    pub length: usize,
}

/// A packet that was sent, as the store shows it.
#[derive(Clone, Copy)]
pub struct Stored<'a> {
    pub port: Port,
    pub octets: &'a [u8],
}

/// The packets that were sent, in their order. One whose octets are those of the last packet to the same
/// port shares the octets of that one. Contracts see the packets, and how much more there is room for.
#[derive(Drop)]
pub struct Store {
    octets: Vec<u8>,
    slots: Vec<Slot>,
}

impl Model for Store {
    ghost use Rattle.std.specs.Prelude.{◌-◌, vec_len, vec_capacity};
    ghost use Rattle.eap_world.specs.Store.{StoreValue, AreThere, packets_at};

    ghost Value = { StoreValue };

    ghost view = { λ s. record {
      packets = packets_at s.octets.items s.slots.items;
      stored = vec_len s.octets;
      octets_capacity = vec_capacity s.octets - vec_len s.octets;
      packets_capacity = vec_capacity s.slots - vec_len s.slots;
    } };

    ghost invariant = { λ s. AreThere (vec_len s.octets) s.slots.items };
}

impl Store {
    /// No packets. It allocates no memory.
    pub fn new(alloc: Global) -> Store
        ensures packets { result.packets ≡ [] }
        ensures stored { result.stored ≡ 0 }
        ensures octets_capacity { result.octets_capacity ≡ 0 }
        ensures packets_capacity { result.packets_capacity ≡ 0 }
    {
        Store {
            octets: Vec::new(alloc),
            slots: Vec::new(alloc),
        }
    }

    /// The number of packets.
    pub fn len(&self) -> usize
        ensures { result ≡ length self.now.packets }
    {
        self.slots.len()
    }

    /// How many octets are stored: those that a packet shares with an earlier one are stored once.
    pub fn stored(&self) -> usize
        ensures { result ≡ self.now.stored }
    {
        self.octets.len()
    }

    /// Makes room for one more packet of at most 1,500 octets. False for want of memory, which comes only if
    /// that room lacked. The packets stay, and no room is lost.
    pub fn reserve_packet(&mut self) -> bool
        ensures packets { self.new.packets ≡ self.old.packets }
        ensures stored { self.new.stored ≡ self.old.stored }
        ensures octets_capacity { result ≡ true → max_packet ≤ self.new.octets_capacity }
        ensures packets_capacity { result ≡ true → 1 ≤ self.new.packets_capacity }
        ensures octets_stay { self.old.octets_capacity ≤ self.new.octets_capacity }
        ensures packets_stay { self.old.packets_capacity ≤ self.new.packets_capacity }
        ensures lacked { max_packet ≤ self.old.octets_capacity → 1 ≤ self.old.packets_capacity
            → result ≡ true }
    {
        self.octets.reserve(MAX_PACKET).is_ok() && self.slots.reserve(1).is_ok()
    }

    /// Stores a packet of at most 1,500 octets, for which there is room. One whose octets are those of the
    /// last packet to the same port takes no more octets.
    #[tactic(auto, using(crate::proofs::Storing::one_more, crate::proofs::Storing::stored_after, crate::proofs::Storing::are_there))]
    pub fn append(&mut self, port: Port, octets: &[u8])
        requires bounded { length octets.now ≤ max_packet }
        requires octets_capacity { max_packet ≤ self.old.octets_capacity }
        requires packets_capacity { 1 ≤ self.old.packets_capacity }
        ensures packets { self.new.packets
            ≡ self.old.packets ++ (record { port = port; octets = octets.now }) ∷ [] }
        ensures stored { self.new.stored ≤ self.old.stored + length octets.now }
        ensures repeats { last_to port self.old.packets ≡ Some octets.now
            → self.new.stored ≡ self.old.stored }
    {
        let length = octets.len();
        match place_of(self.octets.as_slice(), self.slots.as_slice(), port, octets) {
            Some(place) => {
                let _ = self.slots.push(Slot {
                    port,
                    place,
                    length,
                });
            }
            None => {
                let place = self.octets.len();
                let _ = self.octets.extend_from_slice(octets);
                let _ = self.slots.push(Slot {
                    port,
                    place,
                    length,
                });
            }
        }
    }

    /// The packet of this number, counted from 1; None if none was sent with it.
    pub fn get(&self, number: u32) -> Option<Stored>
        ensures packet { sent_of_slot result ≡ packet_numbered self.now.packets number }
        ensures bounded { IfSome result (λ packet. length packet.octets.now ≤ max_packet) }
    {
        if number == 0 {
            return None;
        }
        match self.slots.get(number as usize - 1) {
            None => None,
            Some(slot) => Some(Stored {
                port: slot.port,
                octets: octets_at(self.octets.as_slice(), slot),
            }),
        }
    }
}

/// The place of a packet's octets if they are those of the last packet to its port.
#[tactic(auto, using(crate::proofs::Storing::last_is, crate::proofs::Storing::none_last))]
fn place_of(octets: &[u8], slots: &[Slot], port: Port, packet: &[u8]) -> Option<usize>
    requires { AreThere (length octets.now) slots.now }
    ensures there { IfSome result (λ place. place + length packet.now ≤ length octets.now) }
    ensures same { IfSome result
        (λ place. take (length packet.now) (drop place octets.now) ≡ packet.now) }
    ensures repeats { last_to port (packets_at octets.now slots.now) ≡ Some packet.now
        → is_some result ≡ true }
{
    match last_to(slots, port) {
        None => None,
        Some(slot) => place_at(octets, &slot, packet),
    }
}

/// The place of a slot if a packet's octets are those at it.
fn place_at(octets: &[u8], slot: &Slot, packet: &[u8]) -> Option<usize>
    requires { IsThere (length octets.now) slot.now }
    ensures there { IfSome result (λ place. place + length packet.now ≤ length octets.now) }
    ensures same { IfSome result
        (λ place. take (length packet.now) (drop place octets.now) ≡ packet.now) }
    ensures repeats { (packet_at octets.now slot.now).octets ≡ packet.now → is_some result ≡ true }
{
    if octets_at(octets, slot) == packet {
        Some(slot.place)
    } else {
        None
    }
}

/// The last slot to a port, searched from the end.
#[tactic(auto, using(crate::proofs::Storing::passes_over, crate::proofs::Storing::stops_at, crate::proofs::Storing::none_left))]
fn last_to(slots: &[Slot], port: Port) -> Option<Slot>
    ensures { result ≡ last_slot port slots.now }
{
    for back in 0..slots.len() {
        let slot = slots[slots.len() - 1 - back];
        if is_to(&slot, port) {
            return Some(slot);
        }
    }
    None
}

fn is_to(slot: &Slot, port: Port) -> bool
    ensures { result ≡ same_port slot.now.port port }
{
    slot.port == port
}

/// The octets at a slot.
fn octets_at<'a>(octets: &'a [u8], slot: &Slot) -> &'a [u8]
    requires { IsThere (length octets.now) slot.now }
    ensures same { result.now ≡ (packet_at octets.now slot.now).octets }
    ensures bounded { length result.now ≤ max_packet }
{
    &octets[slot.place..slot.place + slot.length]
}
