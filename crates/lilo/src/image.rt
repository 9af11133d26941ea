// An IMAGE argument of the command line.
ghost use Rattle.std.specs.Prelude.{◌≤◌, IfSome};

use disk_trait::Geometry;
use file_disks::FileDisk;
use std::fs::File;

/// Opens the image that an argument names. One that can't be opened, or is too large for a disk, can't be used.
pub fn open_image(rt: &HostRuntime, word: &str) -> Option<FileDisk<File>>
    ensures few { IfSome result (λ disk. disk.sectors ≤ 4294967296) }
{
    let (path, geometry) = parts_of(word)?;
    host_parts::open_image(rt, path, geometry)
}

/// The path of an image, and its geometry: what is stated, else 16 heads and 63 sectors. A geometry is
/// stated exactly where the argument has three parts between colons and the last two are decimal numbers in
/// range; every other argument is a path.
fn parts_of(word: &str) -> Option<(&str, Geometry)> {
    match stated(word) {
        Some(parts) => Some(parts),
        None => Some((word, Geometry::new(16, 63).ok()?)),
    }
}

fn stated(word: &str) -> Option<(&str, Geometry)> {
    let (path, rest) = word.split_once(':')?;
    let (heads, sectors) = rest.split_once(':')?;
    let geometry = Geometry::new(decimal(heads)?, u8::try_from(decimal(sectors)?).ok()?).ok()?;
    Some((path, geometry))
}

/// A decimal number without a sign or a leading zero.
fn decimal(text: &str) -> Option<u16> {
    match text.as_bytes() {
        [b'1'..=b'9', ..] => text.parse().ok(),
        _ => None,
    }
}
