// Sectors of a file that are to be written at once.
ghost use Rattle.std.specs.Prelude.{◌≡◌, ◌⊎◌, ◌*◌, ◌+◌, ◌<◌, ◌≤◌, ◌^◌, ◌↔◌, IsTrue, OnOk, OnErr, IfSome, IfNone, take};
ghost use Rattle.std.specs.Io.KnownBytes.{Appends};
ghost use Rattle.file_disks.specs.FileDisks.{HeldSectors, IsHeld, held_sector, HasRoom, IsPut, emptied};

use crate::held::held_at;
use sector_parts::Sector;
use std::io;
use std::io::{ErrorKind, Write};
use std::marker::Model;

/// Up to 64 neighbouring sectors that were taken, and that the file doesn't have yet.
#[derive(Drop)]
pub(crate) struct Gathered {
    first: u64,
    count: u64,
    bytes: [u8; 32768],
}

impl Model for Gathered {
    ghost Value = { HeldSectors };

    ghost view = { λ held. record { first = held.first; count = held.count; bytes = held.bytes } };

    ghost invariant = { λ held. (held.count ≤ 64) × ((held.first + held.count) * 512 ≤ 2 ^ 64) };
}

impl Gathered {
    /// Holds nothing.
    pub(crate) fn new() -> Gathered
        ensures { result.count ≡ 0 }
    {
        Gathered {
            first: 0,
            count: 0,
            bytes: [0; 32768],
        }
    }

    /// The first sector, where any is held.
    pub(crate) fn first(&self) -> Option<u64>
        ensures some { IfSome result (λ first. (first ≡ self.now.first) × (0 < self.now.count)) }
        ensures addressed { IfSome result (λ first. first * 512 < 2 ^ 64) }
        ensures none { IfNone result (self.now.count ≡ 0) }
    {
        (self.count > 0).then_some(self.first)
    }

    /// The sector after those that are held.
    pub(crate) fn end(&self) -> u64
        ensures { result ≡ self.now.first + self.now.count }
    {
        self.first + self.count
    }

    /// The bytes of a sector, where it is held.
    pub(crate) fn get(&self, sector: u64) -> Option<Sector>
        ensures some { IfSome result (λ bytes. IsHeld self.now sector × (bytes ≡ held_sector self.now sector)) }
        ensures none { IfNone result (IsHeld self.now sector → ⊥) }
    {
        held_at(&self.bytes, self.first, self.count, sector)
    }

    /// Whether a sector may be put: none is held, or this one is, or it comes right after them and there is room.
    pub(crate) fn takes(&self, sector: u64) -> bool
        ensures { IsTrue result ↔ HasRoom self.now sector }
    {
        if self.count == 0 {
            return true;
        }
        if sector < self.first {
            return false;
        }
        let place = sector - self.first;
        place <= self.count && place < 64
    }

    /// Holds these bytes of a sector, and of the others what it held.
    pub(crate) fn put(&mut self, sector: u64, from: &Sector)
        requires room { HasRoom self.old sector }
        requires addressed { sector * 512 < 2 ^ 64 }
        ensures { IsPut self.old sector from.now self.new }
    {
        let first = self.first_with(sector);
        let place = sector - first;
        let at = place as usize * 512;
        self.bytes[at..at + 512].copy_from_slice(from);
        self.first = first;
        self.count = self.count.max(place + 1);
    }

    // The first sector that is held once this one is put.
    fn first_with(&self, sector: u64) -> u64
        requires { HasRoom self.now sector }
        ensures begun { result ≤ sector }
        ensures near { sector ≤ result + self.now.count }
        ensures room { sector < result + 64 }
        ensures same { (self.now.count ≡ 0) ⊎ (result ≡ self.now.first) }
    {
        if self.count == 0 { sector } else { self.first }
    }

    /// Writes what is held from where the file is, and then holds nothing. After an error all is held as before,
    /// and any part of it may be written.
    pub(crate) fn write_to<F: Write>(&mut self, file: &mut F) -> io::Result<()>
        ensures emptied { OnOk result (self.new ≡ emptied self.old) }
        ensures written { OnOk result
            (Appends (F.contents file.old) (F.contents file.new) (take (self.old.count * 512) self.old.bytes)) }
        ensures err { OnErr result (self.new ≡ self.old) }
    {
        write_whole(file, &self.bytes[..self.count as usize * 512])?;
        self.count = 0;
        Ok(())
    }
}

// Writes bytes at the file's position.
fn write_whole<F: Write>(file: &mut F, bytes: &[u8]) -> io::Result<()>
    ensures { OnOk result (Appends (F.contents file.old) (F.contents file.new) bytes.now) }
{
    let mut rest = bytes;
    while !rest.is_empty() {
        match file.write(rest)? {
            0 => return Err(io::Error::from(ErrorKind::WriteZero)),
            count => rest = &rest[count..],
        }
    }
    Ok(())
}
