// One disk over an opened image file.
ghost use Rattle.std.specs.Prelude.{◌≡◌, ◌⊎◌, ◌*◌, ◌/◌, ◌<◌, ◌≤◌, ◌^◌, ◌↔◌, IsTrue, length, IfOk, IfSome, IsOkAnd, OnOk, OnErr, OnSome};
ghost use Rattle.file_disks.specs.FileDisks.{DiskState, IsDurable, IsHeld, held_sector, Takes};
ghost use Rattle.file_disks.specs.FileDisks.{touched, written_out, made_durable};

use crate::sector_file::SectorFile;
use disk_trait::Geometry;
use sector_parts::Sector;
use std::fs::OpenFile;
use std::io;
use std::io::{Read, Seek, SeekFrom, Write};
use std::marker::Model;

/// An opened image file or block device. Bytes past its last whole sector aren't part of the disk.
#[derive(Drop)]
pub struct FileDisk<F> {
    file: SectorFile<F>,
    sectors: u64,
    geometry: Geometry,
}

impl<F> Model for FileDisk<F> {
    ghost Value = { DiskState };

    ghost view = { λ disk. record {
      sectors = disk.sectors;
      geometry = disk.geometry;
      gathered = disk.file.gathered;
      synced = disk.file.synced;
    } };

    ghost invariant = { λ disk. disk.sectors * 512 < 2 ^ 64 };
}

impl<F> FileDisk<F> {
    /// The size of the disk in sectors of 512 bytes.
    pub fn sectors(&self) -> u64
        ensures { result ≡ self.now.sectors }
    {
        self.sectors
    }

    /// The heads and the sectors per track that it was given.
    pub fn geometry(&self) -> Geometry
        ensures { result ≡ self.now.geometry }
    {
        self.geometry
    }
}

impl<F: Seek + Drop> FileDisk<F> {
    /// Takes a file that is opened for reading and writing, and finds its size by a seek to the end,
    /// so that a block device serves too. An error is the seek's, and drops the file.
    pub fn new(mut file: F, geometry: Geometry) -> io::Result<FileDisk<F>>
        ensures geometry { IfOk result (λ disk. disk.geometry ≡ geometry) }

        // Where the file's bytes are known, they give the size.
        ensures size { OnSome (F.stream_position file) (IfSome (F.stream_bytes file)
            (λ bytes. IfOk result (λ disk. disk.sectors ≡ length bytes / 512))) }

        // Nothing was written yet.
        ensures durable { IfOk result (λ disk. IsDurable disk) }
    {
        let bytes = file.seek(SeekFrom::End(0))?;
        Ok(FileDisk {
            file: SectorFile::new(file),
            sectors: bytes / 512,
            geometry,
        })
    }
}

impl<F: Read + Write + Seek + OpenFile> FileDisk<F> {
    /// Reads a sector. An error is the file's, or says that it ends within the sector.
    pub(crate) fn read(&mut self, sector: u64) -> io::Result<Sector>
        requires { sector < self.old.sectors }
        ensures state { self.new ≡ self.old }
        ensures gathered { IsHeld self.old.gathered sector
            → IsOkAnd result (λ bytes. bytes ≡ held_sector self.old.gathered sector) }
    {
        self.file.read(sector, self.sectors)
    }

    /// Takes a sector, which later reads give. An error is of the sectors that were taken before: they stay taken, and
    /// this one isn't.
    pub(crate) fn write(&mut self, sector: u64, from: &Sector) -> io::Result<()>
        requires { sector < self.old.sectors }
        ensures ok { OnOk result (Takes self.old sector from.now self.new) }
        ensures err { OnErr result (self.new ≡ touched self.old) }
    {
        self.file.write(sector, from)
    }

    /// Forgets what was read ahead, so that the next read is of the file as it is then.
    pub(crate) fn forget(&mut self)
        ensures { self.new ≡ self.old }
    {
        self.file.forget();
    }

    /// Writes the sectors that were taken to the file. After an error they stay taken.
    pub(crate) fn write_out(&mut self) -> io::Result<()>
        ensures ok { OnOk result (self.new ≡ written_out self.old) }
        ensures err { OnErr result (self.new ≡ touched self.old) }
    {
        self.file.write_out()
    }

    /// Writes the sectors that were taken, and makes the writes so far durable.
    pub(crate) fn sync(&mut self) -> io::Result<()>
        ensures ok { OnOk result (self.new ≡ made_durable self.old) }
        ensures err { OnErr result ((self.new ≡ touched self.old) ⊎ (self.new ≡ touched (written_out self.old))) }
    {
        self.file.sync()
    }

    /// Whether all that was written is durable.
    pub(crate) fn is_durable(&self) -> bool
        ensures { IsTrue result ↔ IsDurable self.now }
    {
        self.file.is_durable()
    }
}
