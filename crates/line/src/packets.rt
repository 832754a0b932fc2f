//! A line of eight packets of 16 bytes: an offer fills fresh packets, and a packet is free once its last byte is taken.
ghost use Rattle.std.specs.Prelude.{◌≤◌, length};
ghost use Rattle.line.specs.Content.{EachWaits, EachFits};

pub mod iter;

use crate::Line;
use crate::shortage::Shortage;
use arrayvec::ArrayVec;
use iter::Iter;

/// The bytes of one packet that are yet to be taken.
type Packet = ArrayVec<u8, 16>;

/// The packets in which bytes wait, the oldest first. None is empty: with its last byte a packet leaves.
#[derive(Drop)]
pub struct Packets {
    packets: ArrayVec<Packet, 8>,
    ghost some: { EachWaits packets.items },
    ghost few: { length packets.items ≤ 8 },
    ghost short: { EachFits packets.items },
}

impl Packets {
    ghost use Rattle.std.specs.Prelude.{◌≡◌, ℕ};
    ghost use Rattle.std.specs.Map.Iter.{ShowsInOrder, deref};
    ghost use Rattle.queue.specs.Nth.{nth};
    ghost use Rattle.line.specs.PacketWire.{packet_wire};
    ghost use Rattle.line.specs.Wire.{idle};

    /// A line on which nothing waits.
    pub fn new() -> Packets
        ensures { packet_wire result ≡ idle 128 }
    {
        Packets {
            packets: ArrayVec::new(),
        }
    }

    /// What waits, the byte first that leaves first.
    pub fn iter(&self) -> Iter<'_>
        ensures rest { result ≡ (packet_wire self.now).waiting }
        ensures runs { ShowsInOrder (deref {X = ℕ}) }
    {
        Iter::new(self.packets.as_slice())
    }

    /// The byte behind `i` others, which stays.
    pub fn get(&self, i: usize) -> Option<u8>
        ensures { result ≡ nth (packet_wire self.now).waiting i }
    {
        self.iter().nth(i).copied()
    }
}

impl Line for Packets {
    ghost use Rattle.line.specs.PacketWire.{packet_wire, packet_lawful};

    ghost carried = { λ s. packet_wire s };

    ghost lawful = { packet_lawful };

    fn room(&self) -> usize {
        16 * self.packets.remaining_capacity()
    }

    fn capacity(&self) -> usize {
        128
    }

    fn offer(&mut self, bytes: &[u8]) -> Result<(), Shortage> {
        Shortage::check(bytes.len(), self.room())?;
        for part in bytes.chunks(16) {
            let mut packet = Packet::new();
            packet.try_extend_from_slice(part).unwrap();
            self.packets.push(packet);
        }
        Ok(())
    }

    fn take(&mut self) -> Option<u8> {
        let packet = self.packets.get_mut(0)?;
        let byte = packet.remove(0);
        if packet.is_empty() {
            self.packets.remove(0);
        }
        Some(byte)
    }
}
