// A file that is read and written by sectors.
ghost use Rattle.std.specs.Prelude.{◌≡◌, ◌≢◌, ◌⊎◌, ◌*◌, ◌+◌, ◌<◌, ◌≤◌, ◌^◌, ◌==◌, ◌&&◌, true, false, IsTrue, ◌↔◌};
ghost use Rattle.std.specs.Prelude.{IfOk, IsOkAnd, OnOk, OnErr, IsOk, Some, None};
ghost use Rattle.std.specs.Io.Seek.{MovesTo};
ghost use Rattle.file_disks.specs.FileDisks.{IsHeld, held_sector, HasRoom, IsPut, IsWritten, emptied};

use crate::ahead::Ahead;
use crate::gathered::Gathered;
use sector_parts::Sector;
use std::fs::OpenFile;
use std::io;
use std::io::{Read, Seek, SeekFrom, Write};

/// A file, and the sector at whose start it is, where that is known. Neighbouring sectors need no seek, and are
/// read and written at once.
#[derive(Drop)]
pub(crate) struct SectorFile<F> {
    file: F,
    at: Option<u64>,
    ahead: Ahead,
    gathered: Gathered,
    // Whether the last `sync`, if any, answered Ok, and the file was given no bytes since.
    synced: bool,
}

impl<F> SectorFile<F> {
    /// A file that is anywhere.
    pub(crate) fn new(file: F) -> SectorFile<F>
        ensures file { result.file ≡ file }
        ensures at { result.at ≡ None }
        ensures ahead { result.ahead.count ≡ 0 }
        ensures gathered { result.gathered.count ≡ 0 }
        ensures synced { IsTrue result.synced }
    {
        SectorFile {
            file,
            at: None,
            ahead: Ahead::new(),
            gathered: Gathered::new(),
            synced: true,
        }
    }
}

impl<F: Read + Write + Seek + OpenFile> SectorFile<F> {
    /// Reads a sector of a file with so many. One that is gathered or was read ahead needs no call of the file. An error
    /// is the file's, or says that it ends within the sector; where the file is then isn't known. What is read with the
    /// sector doesn't fail it.
    pub(crate) fn read(&mut self, sector: u64, sectors: u64) -> io::Result<Sector>
        requires within { sector < sectors }
        requires addressed { sectors * 512 < 2 ^ 64 }
        ensures gathered { IsHeld self.old.gathered sector → (self.new ≡ self.old)
            × IsOkAnd result (λ bytes. bytes ≡ held_sector self.old.gathered sector) }
        ensures ok { (IsHeld self.old.gathered sector → ⊥) → IfOk result
            (λ bytes. IsHeld self.new.ahead sector × (bytes ≡ held_sector self.new.ahead sector)) }
        ensures held { IsHeld self.old.ahead sector → IsOk result × (self.new ≡ self.old) }
        ensures err { OnErr result (self.new.at ≡ None) }
        ensures kept { self.new.gathered ≡ self.old.gathered }
        ensures synced { self.new.synced ≡ self.old.synced }
    {
        if let Some(bytes) = self.gathered.get(sector) {
            return Ok(bytes);
        }
        if let Some(bytes) = self.ahead.get(sector) {
            return Ok(bytes);
        }
        let count = self.ahead.count_from(sector, sectors);
        if count > 1
            && let Ok(bytes) = self.read_ahead(sector, count)
        {
            return Ok(bytes);
        }
        self.read_ahead(sector, 1)
    }

    // Reads sectors at once, and holds them.
    fn read_ahead(&mut self, sector: u64, count: u64) -> io::Result<Sector>
        requires some { 0 < count }
        requires few { count ≤ 8 }
        requires addressed { (sector + count) * 512 < 2 ^ 64 }
        ensures ok { IfOk result (λ bytes. IsHeld self.new.ahead sector × (bytes ≡ held_sector self.new.ahead sector)) }
        ensures at { OnOk result (self.new.at ≡ Some (sector + count)) }
        ensures err { OnErr result (self.new.at ≡ None) }
        ensures gathered { self.new.gathered ≡ self.old.gathered }
        ensures synced { self.new.synced ≡ self.old.synced }
    {
        self.go_to(sector)?;
        self.ahead.fill(&mut self.file, sector, count)?;
        self.at = Some(sector + count);
        match self.ahead.get(sector) {
            Some(bytes) => Ok(bytes),
            None => unreachable!(),
        }
    }

    /// Takes a sector, which every later read gives and the next `write_out` writes at the latest. Where the gathered
    /// ones have no room for it, they are written out first: an error is that write's, and then it isn't taken.
    pub(crate) fn write(&mut self, sector: u64, from: &Sector) -> io::Result<()>
        requires { sector * 512 < 2 ^ 64 }
        ensures near { HasRoom self.old.gathered sector → IsOk result
            × IsPut self.old.gathered sector from.now self.new.gathered
            × (self.new.file ≡ self.old.file) × (self.new.at ≡ self.old.at) }
        ensures far { (HasRoom self.old.gathered sector → ⊥) → OnOk result
            (IsPut (emptied self.old.gathered) sector from.now self.new.gathered
            × (self.new.at ≡ Some (self.old.gathered.first + self.old.gathered.count))
            × IsWritten self.old.gathered self.old.at (F.contents self.old.file) (F.contents self.new.file)) }
        ensures err { OnErr result (self.new.at ≡ None) }
        ensures kept { OnErr result (self.new.gathered ≡ self.old.gathered) }
        ensures synced { OnOk result (IsTrue self.new.synced → IsTrue self.old.synced) }
        ensures unsynced { OnErr result (self.new.synced ≡ false) }
        ensures ahead { self.new.ahead.count ≡ 0 }
    {
        self.forget();
        if !self.gathered.takes(sector) {
            self.write_out()?;
        }
        self.gathered.put(sector, from);
        Ok(())
    }

    /// Writes what is gathered to the file, and forgets what was read ahead, which may be of the same sectors. After an
    /// error any part may be written, all stays gathered, so that a later call tries again, and where the file is isn't
    /// known.
    pub(crate) fn write_out(&mut self) -> io::Result<()>
        ensures nothing { self.old.gathered.count ≡ 0 → IsOk result × (self.new ≡ self.old) }
        ensures emptied { OnOk result (self.new.gathered ≡ emptied self.old.gathered) }
        ensures at { 0 < self.old.gathered.count → OnOk result
            (self.new.at ≡ Some (self.old.gathered.first + self.old.gathered.count)) }
        ensures written { OnOk result
            (IsWritten self.old.gathered self.old.at (F.contents self.old.file) (F.contents self.new.file)) }
        ensures err { OnErr result (self.new.at ≡ None) }
        ensures kept { OnErr result (self.new.gathered ≡ self.old.gathered) }
        ensures synced { OnOk result (self.new.synced ≡ (self.old.synced && (self.old.gathered.count == 0))) }
        ensures unsynced { OnErr result (self.new.synced ≡ false) }
        ensures ahead { 0 < self.old.gathered.count → self.new.ahead.count ≡ 0 }
    {
        let Some(first) = self.gathered.first() else {
            return Ok(());
        };
        self.ahead.clear();
        self.synced = false;
        let end = self.gathered.end();
        self.go_to(first)?;
        self.gathered.write_to(&mut self.file)?;
        self.at = Some(end);
        Ok(())
    }

    /// Forgets what was read ahead.
    pub(crate) fn forget(&mut self)
        ensures ahead { self.new.ahead.count ≡ 0 }
        ensures file { self.new.file ≡ self.old.file }
        ensures at { self.new.at ≡ self.old.at }
        ensures gathered { self.new.gathered ≡ self.old.gathered }
        ensures synced { self.new.synced ≡ self.old.synced }
    {
        self.ahead.clear();
    }

    /// Writes out what is gathered, and makes the writes so far durable. The file is synced also where it didn't take
    /// them all, and is durable only where it did and the sync answered Ok.
    pub(crate) fn sync(&mut self) -> io::Result<()>
        ensures ok { OnOk result (self.new.gathered ≡ emptied self.old.gathered) }
        ensures err { OnErr result ((self.new.gathered ≡ self.old.gathered)
            ⊎ (self.new.gathered ≡ emptied self.old.gathered)) }
        ensures synced { OnOk result (IsTrue self.new.synced) }
        ensures unsynced { OnErr result (self.new.synced ≡ false) }
        ensures ahead { 0 < self.old.gathered.count → self.new.ahead.count ≡ 0 }
    {
        let written = self.write_out();
        self.synced = false;
        self.file.sync_all()?;
        written?;
        self.synced = true;
        Ok(())
    }

    /// Whether nothing is gathered and the file is synced.
    pub(crate) fn is_durable(&self) -> bool
        ensures { IsTrue result ↔ ((self.now.gathered.count ≡ 0) × IsTrue self.now.synced) }
    {
        self.synced && self.gathered.first().is_none()
    }

    // Goes to the start of a sector, where the file isn't there already, and forgets where it was.
    fn go_to(&mut self, sector: u64) -> io::Result<()>
        requires { sector * 512 < 2 ^ 64 }
        ensures there { self.old.at ≡ Some sector → IsOk result × (self.new.file ≡ self.old.file) }
        ensures elsewhere { self.old.at ≢ Some sector → MovesTo (F.stream_position self.old.file)
            (F.stream_position self.new.file) (sector * 512) result }
        ensures at { self.new.at ≡ None }
        ensures ahead { self.new.ahead ≡ self.old.ahead }
        ensures gathered { self.new.gathered ≡ self.old.gathered }
        ensures synced { self.new.synced ≡ self.old.synced }
    {
        if self.at.take() == Some(sector) {
            return Ok(());
        }
        self.file.seek(SeekFrom::Start(sector * 512))?;
        Ok(())
    }
}
