// A disk that is there or absent. Of one that is absent nothing waits, and so nothing is to be written out or synced.
ghost use Rattle.std.specs.Prelude.{◌≡◌, ◌↔◌, ◌<◌, IsTrue, IsOkAnd, OnOk, OnErr, option_map};
ghost use Rattle.file_disks.specs.FileDisks.{disk_of, shape_of, IsDurable, IsHeld, held_sector, Takes, MaySync};
ghost use Rattle.file_disks.specs.FileDisks.{touched, written_out};

use crate::FileDisk;
use disk_trait::Geometry;
use sector_parts::Sector;
use std::fs::OpenFile;
use std::io;
use std::io::{Read, Seek, Write};

/// How many sectors a disk has.
pub(crate) fn sectors<F>(disk: &Option<FileDisk<F>>) -> u64
    ensures { result ≡ (disk_of disk.now).sectors }
{
    match disk {
        Some(disk) => disk.sectors(),
        None => 0,
    }
}

/// How a disk is divided.
pub(crate) fn geometry<F>(disk: &Option<FileDisk<F>>) -> Geometry
    ensures { result ≡ (disk_of disk.now).geometry }
{
    match disk {
        Some(disk) => disk.geometry(),
        None => Geometry::absent(),
    }
}

/// Reads a sector of a disk that has it. One that is gathered is as it was written.
pub(crate) fn read<F: Read + Write + Seek + OpenFile>(
    disk: &mut Option<FileDisk<F>>,
    sector: u64,
) -> io::Result<Sector>
    requires { sector < (disk_of disk.old).sectors }
    ensures state { disk.new ≡ disk.old }
    ensures gathered { IsHeld (disk_of disk.old).gathered sector
        → IsOkAnd result (λ bytes. bytes ≡ held_sector (disk_of disk.old).gathered sector) }
{
    match disk {
        Some(disk) => disk.read(sector),
        None => unreachable!(),
    }
}

/// Takes a sector of a disk that has it.
pub(crate) fn write<F: Read + Write + Seek + OpenFile>(
    disk: &mut Option<FileDisk<F>>,
    sector: u64,
    from: &Sector,
) -> io::Result<()>
    requires { sector < (disk_of disk.old).sectors }
    ensures shape { option_map shape_of disk.new ≡ option_map shape_of disk.old }
    ensures ok { OnOk result (Takes (disk_of disk.old) sector from.now (disk_of disk.new)) }
    ensures err { OnErr result (disk_of disk.new ≡ touched (disk_of disk.old)) }
{
    match disk {
        Some(disk) => disk.write(sector, from),
        None => unreachable!(),
    }
}

/// Forgets what was read ahead of a disk.
pub(crate) fn forget<F: Read + Write + Seek + OpenFile>(disk: &mut Option<FileDisk<F>>)
    ensures { disk.new ≡ disk.old }
{
    if let Some(disk) = disk {
        disk.forget();
    }
}

/// Writes out what is gathered of a disk.
pub(crate) fn write_out<F: Read + Write + Seek + OpenFile>(
    disk: &mut Option<FileDisk<F>>,
) -> io::Result<()>
    ensures shape { option_map shape_of disk.new ≡ option_map shape_of disk.old }
    ensures ok { OnOk result (disk_of disk.new ≡ written_out (disk_of disk.old)) }
    ensures err { OnErr result (disk_of disk.new ≡ touched (disk_of disk.old)) }
{
    match disk {
        Some(disk) => disk.write_out(),
        None => Ok(()),
    }
}

/// Writes out what is gathered of a disk, and syncs it.
pub(crate) fn sync<F: Read + Write + Seek + OpenFile>(
    disk: &mut Option<FileDisk<F>>,
) -> io::Result<()>
    ensures shape { option_map shape_of disk.new ≡ option_map shape_of disk.old }
    ensures ok { OnOk result (IsDurable (disk_of disk.new)) }
    ensures err { OnErr result (IsDurable (disk_of disk.new) → ⊥) }
    ensures kept { MaySync (disk_of disk.old) (disk_of disk.new) }
{
    match disk {
        Some(disk) => disk.sync(),
        None => Ok(()),
    }
}

/// Whether all that was written to a disk is durable.
pub(crate) fn is_durable<F: Read + Write + Seek + OpenFile>(disk: &Option<FileDisk<F>>) -> bool
    ensures { IsTrue result ↔ IsDurable (disk_of disk.now) }
{
    match disk {
        Some(disk) => disk.is_durable(),
        None => true,
    }
}
