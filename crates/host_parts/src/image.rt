// Disk images.
ghost use Rattle.std.specs.Prelude.{◌≤◌, IfSome};

use disk_trait::Geometry;
use file_disks::FileDisk;
use std::fs::{File, OpenFile, OpenOptions};
use std::io;

/// The most sectors of a disk, 2 TiB in all.
const MOST_SECTORS: u64 = 4_294_967_296;

/// Opens the image at a path: for reading and writing, or else for reading alone, so that a write
/// to it is then a fault of the device. A folder, a file that has no size, and one of more than
/// 4,294,967,296 sectors can't be used.
pub fn open_image(rt: &HostRuntime, path: &str, geometry: Geometry) -> Option<FileDisk<File>>
    ensures few { IfSome result (λ disk. disk.sectors ≤ 4294967296) }
{
    let file = open_file(rt, path).ok()?;
    if file.metadata().ok()?.is_dir() {
        return None;
    }
    let disk = FileDisk::new(file, geometry).ok()?;
    (disk.sectors() <= MOST_SECTORS).then_some(disk)
}

/// Makes the file at a path an image of so many sectors of zeros, whether or not it was there before. A folder, a file
/// that can't be written, and a size that the file system refuses leave it as it was, and can't be used.
pub fn create_image(
    rt: &HostRuntime,
    path: &str,
    sectors: u32,
    geometry: Geometry,
) -> Option<FileDisk<File>>
    ensures few { IfSome result (λ disk. disk.sectors ≤ 4294967296) }
{
    let file = create_file(rt, path, u64::from(sectors) * 512).ok()?;
    let disk = FileDisk::new(file, geometry).ok()?;
    (disk.sectors() <= MOST_SECTORS).then_some(disk)
}

/// A file of so many zeros. Only once it can have as many bytes are those that it held dropped.
fn create_file(rt: &HostRuntime, path: &str, bytes: u64) -> io::Result<File> {
    let mut options = OpenOptions::new();
    options.read(true).write(true).create(true);
    let file = options.open(rt, path)?;
    file.set_len(bytes)?;
    file.set_len(0)?;
    file.set_len(bytes)?;
    Ok(file)
}

fn open_file(rt: &HostRuntime, path: &str) -> io::Result<File> {
    match OpenOptions::new().read(true).write(true).open(rt, path) {
        Ok(file) => Ok(file),
        Err(_) => File::open(rt, path),
    }
}
