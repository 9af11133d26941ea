// Disk images, which are read and never written.
use disk_trait::Geometry;
use file_disks::{FileDisk, FileDisks};
use std::fs::File;

/// The image at a path as disk hda, with 16 heads and 63 sectors on a track.
pub fn open_image(rt: &HostRuntime, path: &str) -> Option<FileDisks<File>> {
    let file = File::open(rt, path).ok()?;
    let disk = FileDisk::new(file, Geometry::new(16, 63).ok()?).ok()?;
    let mut disks = FileDisks::new(rt.alloc());
    disks.push(Some(disk)).ok()?;
    Some(disks)
}
