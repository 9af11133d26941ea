// Sectors of a file that were read at once.
ghost use Rattle.std.specs.Prelude.{◌≡◌, ◌*◌, ◌+◌, ◌<◌, ◌≤◌, OnOk, OnErr, IfSome, IfNone, take};
ghost use Rattle.std.specs.Io.KnownBytes.{Consumes};
ghost use Rattle.file_disks.specs.FileDisks.{HeldSectors, IsHeld, held_sector};

use crate::held::held_at;
use sector_parts::Sector;
use std::io;
use std::io::{ErrorKind, Read};
use std::marker::Model;

/// Up to eight neighbouring sectors of a file, as they were read.
#[derive(Drop)]
pub(crate) struct Ahead {
    first: u64,
    count: u64,
    bytes: [u8; 4096],
}

impl Model for Ahead {
    ghost Value = { HeldSectors };

    ghost view = { λ held. record { first = held.first; count = held.count; bytes = held.bytes } };

    ghost invariant = { λ held. held.count ≤ 8 };
}

impl Ahead {
    /// Holds nothing.
    pub(crate) fn new() -> Ahead
        ensures { result.count ≡ 0 }
    {
        Ahead {
            first: 0,
            count: 0,
            bytes: [0; 4096],
        }
    }

    /// The bytes of a sector, where it is held.
    pub(crate) fn get(&self, sector: u64) -> Option<Sector>
        ensures some { IfSome result (λ bytes. IsHeld self.now sector × (bytes ≡ held_sector self.now sector)) }
        ensures none { IfNone result (IsHeld self.now sector → ⊥) }
    {
        held_at(&self.bytes, self.first, self.count, sector)
    }

    /// How many sectors to read from one on, of a file with so many: only one that follows those that are held
    /// has others read with it.
    pub(crate) fn count_from(&self, sector: u64, sectors: u64) -> u64
        requires { sector < sectors }
        ensures some { 0 < result }
        ensures few { result ≤ 8 }
        ensures within { sector + result ≤ sectors }
    {
        if self.count > 0 && sector > self.first && sector - self.first == self.count {
            return (sectors - sector).min(8);
        }
        1
    }

    /// Reads sectors from where the file is, and holds them alone. After an error nothing is held.
    pub(crate) fn fill<F: Read>(&mut self, file: &mut F, first: u64, count: u64) -> io::Result<()>
        requires { count ≤ 8 }
        ensures first { OnOk result (self.new.first ≡ first) }
        ensures count { OnOk result (self.new.count ≡ count) }
        ensures bytes { OnOk result
            (Consumes (F.remaining file.old) (F.remaining file.new) (take (count * 512) self.new.bytes)) }
        ensures err { OnErr result (self.new.count ≡ 0) }
    {
        self.count = 0;
        read_whole(file, &mut self.bytes[..count as usize * 512])?;
        self.first = first;
        self.count = count;
        Ok(())
    }

    /// Holds nothing any more.
    pub(crate) fn clear(&mut self)
        ensures { self.new.count ≡ 0 }
    {
        self.count = 0;
    }
}

// Reads the next bytes of a file, as many as there is room for.
fn read_whole<F: Read>(file: &mut F, into: &mut [u8]) -> io::Result<()>
    ensures { OnOk result (Consumes (F.remaining file.old) (F.remaining file.new) into.new) }
{
    let mut at = 0;
    while at < into.len() {
        match file.read(&mut into[at..])? {
            0 => return Err(io::Error::from(ErrorKind::UnexpectedEof)),
            count => at += count,
        }
    }
    Ok(())
}
