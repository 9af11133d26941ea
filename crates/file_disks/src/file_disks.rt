// Disks over opened image files.
ghost use Rattle.std.specs.Prelude.{◌≡◌, ◌≢◌, ◌↔◌, ℕ, ◌<◌, ◌≤◌, [], ◌∷◌, ◌++◌, length, IsTrue, OnOk, OnErr, IsOk, IfOk, None};
ghost use Rattle.disk_trait.specs.Cause.{HasCause, HasFlushCause};
ghost use Rattle.disk_trait.specs.Count.{risen};
ghost use Rattle.file_disks.specs.FileDisks.{FileState, file_sizes_of, file_geometries_of, shapes_of, disk_at};
ghost use Rattle.file_disks.specs.FileDisks.{IsHeld, held_sector, touched, written_out, IsDurable, AreDurable};
ghost use Rattle.file_disks.specs.FileDisks.{AllHandOn, AllMaySync, AllWrittenOut, OthersWrittenOut, WriteTaken, MaySync, IsOnlyAt};

use crate::{FileDisk, slot};
use disk_trait::{DiskFault, Disks, Geometry};
use sector_parts::Sector;
use std::alloc::{AllocError, Global};
use std::fs::OpenFile;
use std::io;
use std::io::{Read, Seek, Write};
use std::marker::Model;

/// Up to four opened image files, each there or absent. They report no past, since nothing is known of
/// what a file keeps. Each failure of a file is counted.
#[derive(Drop)]
pub struct FileDisks<F> {
    disks: Vec<Option<FileDisk<F>>>,
    faults: u64,
}

impl<F> Model for FileDisks<F> {
    ghost Value = { FileState };

    ghost view = { λ files. record { disks = files.disks.items; faults = files.faults } };

    ghost invariant = { λ files. length files.disks.items ≤ 4 };
}

impl<F> FileDisks<F> {
    /// No disks.
    pub fn new(alloc: Global) -> FileDisks<F>
        ensures { result ≡ record { disks = []; faults = 0 } }
    {
        FileDisks {
            disks: Vec::new(alloc),
            faults: 0,
        }
    }

    // Counts a failure.
    fn failure(&mut self) -> DiskFault
        ensures answer { result ≡ DiskFault.Failed }
        ensures counted { self.new ≡ record self.old { faults = risen self.old.faults } }
    {
        self.faults = self.faults.saturating_add(1);
        DiskFault::Failed
    }
}

impl<F: Drop> FileDisks<F> {
    /// Adds a disk after the others, or with `None` one that is absent. An error drops it.
    pub fn push(&mut self, disk: Option<FileDisk<F>>) -> Result<(), AllocError>
        requires { length self.old.disks < 4 }
        ensures ok { OnOk result (self.new ≡ record self.old { disks = self.old.disks ++ disk ∷ [] }) }
        ensures err { OnErr result (self.new ≡ self.old) }
    {
        self.disks.push(disk)?;
        Ok(())
    }
}

impl<F: Read + Write + Seek + OpenFile> FileDisks<F> {
    /// Hands the files what was written and is still gathered, as a flush does, and syncs none. A program that may end
    /// without a flush calls it last, so that nothing is lost that was written before a fault.
    ///
    /// # Errors
    ///
    /// `Failed` alone, where a file failed. What it didn't take stays gathered.
    pub fn write_out(&mut self) -> Result<(), DiskFault>
        ensures cause { HasFlushCause self.old.faults self.new.faults result }
        ensures disks { AllHandOn self.old.disks self.new.disks }
        ensures ok { OnOk result (AllWrittenOut self.old.disks self.new.disks) }
        ensures durable { AreDurable self.new.disks → AreDurable self.old.disks }
    {
        if !self.write_out_all() {
            return Err(self.failure());
        }
        Ok(())
    }

    // Two disks may be over the same file, so that a read finds what was written by any of them.
    fn read_sector(&mut self, disk: u8, sector: u64) -> io::Result<Sector>
        requires { sector < file_sizes_of self.old disk }
        ensures faults { self.new.faults ≡ self.old.faults }
        ensures disks { AllHandOn self.old.disks self.new.disks }
        ensures others { OnOk result (OthersWrittenOut self.old.disks disk self.new.disks) }
        ensures gathered { IsHeld (disk_at self.old.disks disk).gathered sector
            → IfOk result (λ bytes. bytes ≡ held_sector (disk_at self.old.disks disk).gathered sector) }
    {
        self.write_out_others(usize::from(disk))?;
        slot::read(&mut self.disks[usize::from(disk)], sector)
    }

    // Two disks may be over the same file, so that a write leaves nothing that any of them has read ahead, and comes
    // after all that the others have gathered.
    fn write_sector(&mut self, disk: u8, sector: u64, from: &Sector) -> io::Result<()>
        requires { sector < file_sizes_of self.old disk }
        ensures faults { self.new.faults ≡ self.old.faults }
        ensures ok { OnOk result (WriteTaken self.old.disks disk sector from.now self.new.disks) }
        ensures err { OnErr result (AllHandOn self.old.disks self.new.disks) }
        ensures durable { AreDurable self.new.disks → ⊥ }
    {
        self.forget_all();
        self.write_out_others(usize::from(disk))?;
        slot::write(&mut self.disks[usize::from(disk)], sector, from)
    }

    // Forgets what each file has read ahead.
    fn forget_all(&mut self)
        ensures { self.new ≡ self.old }
    {
        for disk in 0..self.disks.len() {
            self.forget(disk);
        }
    }

    // Forgets what one file has read ahead.
    fn forget(&mut self, disk: usize)
        requires { disk < length self.old.disks }
        ensures { self.new ≡ self.old }
    {
        slot::forget(&mut self.disks[disk]);
    }

    // Writes out what each file but one has gathered.
    fn write_out_others(&mut self, disk: usize) -> io::Result<()>
        ensures faults { self.new.faults ≡ self.old.faults }
        ensures disks { AllHandOn self.old.disks self.new.disks }
        ensures own { disk_at self.new.disks disk ≡ disk_at self.old.disks disk }
        ensures ok { OnOk result (OthersWrittenOut self.old.disks disk self.new.disks) }
        ensures err { OnErr result (AreDurable self.new.disks → ⊥) }
    {
        for other in 0..self.disks.len() {
            if other != disk {
                self.write_out_one(other)?;
            }
        }
        Ok(())
    }

    // Writes out what each file has gathered, also after one has failed, and says whether all did.
    fn write_out_all(&mut self) -> bool
        ensures faults { self.new.faults ≡ self.old.faults }
        ensures disks { AllHandOn self.old.disks self.new.disks }
        ensures ok { IsTrue result → AllWrittenOut self.old.disks self.new.disks }
    {
        let mut done = true;
        for disk in 0..self.disks.len() {
            done &= self.write_out_one(disk).is_ok();
        }
        done
    }

    // Writes out what one file has gathered.
    fn write_out_one(&mut self, disk: usize) -> io::Result<()>
        requires { disk < length self.old.disks }
        ensures faults { self.new.faults ≡ self.old.faults }
        ensures only { IsOnlyAt disk self.old.disks self.new.disks }
        ensures ok { OnOk result (disk_at self.new.disks disk ≡ written_out (disk_at self.old.disks disk)) }
        ensures err { OnErr result (disk_at self.new.disks disk ≡ touched (disk_at self.old.disks disk)) }
    {
        slot::write_out(&mut self.disks[disk])
    }

    // Writes out and syncs each file, also after one has failed, and says whether all did.
    fn sync_all(&mut self) -> bool
        ensures faults { self.new.faults ≡ self.old.faults }
        ensures disks { AllMaySync self.old.disks self.new.disks }
        ensures durable { IsTrue result ↔ AreDurable self.new.disks }
    {
        let mut done = true;
        for disk in 0..self.disks.len() {
            done &= self.sync(disk).is_ok();
        }
        done
    }

    // Writes out and syncs one file.
    fn sync(&mut self, disk: usize) -> io::Result<()>
        requires { disk < length self.old.disks }
        ensures faults { self.new.faults ≡ self.old.faults }
        ensures only { IsOnlyAt disk self.old.disks self.new.disks }
        ensures ok { OnOk result (IsDurable (disk_at self.new.disks disk)) }
        ensures err { OnErr result (IsDurable (disk_at self.new.disks disk) → ⊥) }
        ensures kept { MaySync (disk_at self.old.disks disk) (disk_at self.new.disks disk) }
    {
        slot::sync(&mut self.disks[disk])
    }

    // Whether all that was written to any disk is durable.
    fn is_durable(&self) -> bool
        ensures { IsTrue result ↔ AreDurable self.now.disks }
    {
        for disk in 0..self.disks.len() {
            if !slot::is_durable(&self.disks[disk]) {
                return false;
            }
        }
        true
    }
}

impl<F: Read + Write + Seek + OpenFile + Drop> Disks for FileDisks<F> {
    ghost past = { λ _. None };

    ghost faults = { λ files. files.faults };

    ghost size_of = { λ files. file_sizes_of files };

    ghost count_of = { λ files. length files.disks };

    ghost geometry_of = { λ files. file_geometries_of files };

    fn read(&mut self, disk: u8, sector: u64, into: &mut Sector) -> Result<(), DiskFault>
        ensures cause { HasCause (file_sizes_of self.old disk) sector self.old.faults self.new.faults result }
        ensures refused { OnErr result (into.new ≡ into.old) }
        ensures size { file_sizes_of self.new ≡ file_sizes_of self.old }
        ensures count { length self.new.disks ≡ length self.old.disks }
        ensures geometry { file_geometries_of self.new ≡ file_geometries_of self.old }

        // What is gathered of the disk is read as it was written, what others gathered comes to their files first, and
        // nothing becomes durable.
        ensures gathered { IsHeld (disk_at self.old.disks disk).gathered sector
            → OnOk result (into.new ≡ held_sector (disk_at self.old.disks disk).gathered sector) }
        ensures others { OnOk result (OthersWrittenOut self.old.disks disk self.new.disks) }
        ensures disks { AllHandOn self.old.disks self.new.disks }
        ensures durable { AreDurable self.new.disks → AreDurable self.old.disks }
    {
        if self.size(disk) <= sector {
            return Err(DiskFault::OutOfRange);
        }
        match self.read_sector(disk, sector) {
            Ok(bytes) => {
                *into = bytes;
                Ok(())
            }
            Err(_) => Err(self.failure()),
        }
    }

    fn write(&mut self, disk: u8, sector: u64, from: &Sector) -> Result<(), DiskFault>
        ensures cause { HasCause (file_sizes_of self.old disk) sector self.old.faults self.new.faults result }
        ensures size { file_sizes_of self.new ≡ file_sizes_of self.old }
        ensures count { length self.new.disks ≡ length self.old.disks }
        ensures geometry { file_geometries_of self.new ≡ file_geometries_of self.old }

        // It is taken after all that other disks gathered, or nothing but what was gathered came to the files. In
        // either way not all is durable then.
        ensures taken { OnOk result (WriteTaken self.old.disks disk sector from.now self.new.disks) }
        ensures failed { OnErr result (AllHandOn self.old.disks self.new.disks) }
        ensures durable { sector < file_sizes_of self.old disk → AreDurable self.new.disks → ⊥ }
    {
        if self.size(disk) <= sector {
            return Err(DiskFault::OutOfRange);
        }
        match self.write_sector(disk, sector, from) {
            Ok(()) => Ok(()),
            Err(_) => Err(self.failure()),
        }
    }

    /// Writes out what each file that is there has gathered, and syncs it, also after one has failed. What failed a
    /// later flush tries again. Where nothing was written to these disks since all were synced, or at all, there is
    /// nothing to sync.
    fn flush(&mut self) -> Result<(), DiskFault>
        ensures cause { HasFlushCause self.old.faults self.new.faults result }
        ensures size { file_sizes_of self.new ≡ file_sizes_of self.old }
        ensures count { length self.new.disks ≡ length self.old.disks }
        ensures geometry { file_geometries_of self.new ≡ file_geometries_of self.old }

        // It answers Ok exactly where all is durable then. After an error what came to no file is still gathered.
        ensures durable { IsOk result ↔ AreDurable self.new.disks }
        ensures nothing { AreDurable self.old.disks → self.new ≡ self.old }
        ensures disks { AllMaySync self.old.disks self.new.disks }
    {
        if self.is_durable() || self.sync_all() {
            return Ok(());
        }
        Err(self.failure())
    }

    fn count(&self) -> u8 {
        self.disks.len() as u8
    }

    fn size(&self, disk: u8) -> u64 {
        match self.disks.get(usize::from(disk)) {
            Some(disk) => slot::sectors(disk),
            None => 0,
        }
    }

    fn geometry(&self, disk: u8) -> Geometry {
        match self.disks.get(usize::from(disk)) {
            Some(disk) => slot::geometry(disk),
            None => Geometry::absent(),
        }
    }
}
