//! What waits in packets, one byte after the other.
ghost use Rattle.std.specs.Prelude.{length};
ghost use Rattle.std.specs.Iterator.{at_most};
ghost use Rattle.std.specs.Map.Iter.{TakesFirst, deref};

use super::Packet;
use std::iter::FusedIterator;
use std::marker::Model;

/// The bytes of a packet and of those behind it, all of which stay. Clauses see the list of those that are left.
#[derive(Drop)]
pub struct Iter<'a> {
    packet: &'a [u8],
    behind: &'a [Packet],
}

impl<'a> Iter<'a> {
    ghost use Rattle.std.specs.Prelude.{◌≡◌};
    ghost use Rattle.line.specs.Content.{contents, EachWaits};

    pub(crate) fn new(packets: &'a [Packet]) -> Iter<'a>
        requires { EachWaits packets.now }
        ensures { result ≡ contents packets.now }
    {
        Iter {
            packet: &[],
            behind: packets,
        }
    }
}

impl<'a> Model for Iter<'a> {
    ghost use Rattle.std.specs.Prelude.{ℕ, List, ◌++◌};
    ghost use Rattle.line.specs.Content.{contents, EachWaits};

    ghost Value = { List ℕ };

    ghost view = { λ s. s.packet.now ++ contents s.behind.now };

    ghost invariant = { λ s. EachWaits s.behind.now };
}

impl<'a> Iterator for Iter<'a> {
    type Item = &'a u8;

    ghost next_gives = { TakesFirst deref };

    ghost remaining = { λ s. at_most (length s) };

    fn next(&mut self) -> Option<&'a u8> {
        if let Some((byte, rest)) = self.packet.split_first() {
            self.packet = rest;
            return Some(byte);
        }
        let (packet, behind) = self.behind.split_first()?;
        let (byte, rest) = packet.as_slice().split_first()?;
        self.packet = rest;
        self.behind = behind;
        Some(byte)
    }
}

impl<'a> FusedIterator for Iter<'a> {}
