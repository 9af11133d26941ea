// The block of a new directory.
ghost use Rattle.std.specs.Prelude.{◌≡◌};
ghost use Rattle.minix_create.specs.Chosen.{HasDots};
ghost use Rattle.minix_create.specs.Dots.{dots_of, directory_bytes};
ghost use Rattle.minix_layout.specs.View.{kind_view};

use minix_layout::FsKind;
use minix_tree::entry_size;
use sector_parts::{Sector, put_name, put_u16};

/// The block of a directory with an inode's number in another, with nothing in it but `.` and `..`, and zeros after
/// them.
pub fn directory_block(kind: FsKind, inode: u16, directory: u16) -> [u8; 1024]
    ensures dots { HasDots (kind_view kind) result inode directory }
    ensures bytes { result ≡ directory_bytes (kind_view kind) inode directory }
{
    let mut block = [0; 1024];
    block[..512].copy_from_slice(&dots(kind, inode, directory));
    block
}

// Its first sector.
fn dots(kind: FsKind, inode: u16, directory: u16) -> Sector
    ensures { result ≡ dots_of (kind_view kind) inode directory }
{
    let size = usize::from(entry_size(kind));
    let mut sector = [0; 512];
    put_u16(&mut sector, 0, inode);
    put_name(&mut sector, 2, size - 2, b".");
    put_u16(&mut sector, size, directory);
    put_name(&mut sector, size + 2, size - 2, b"..");
    sector
}
