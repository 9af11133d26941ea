// The superblock of an empty volume.
ghost use Rattle.std.specs.Prelude.{◌≡◌};
ghost use Rattle.std.specs.Option.{option_map};
ghost use Rattle.minix_layout.specs.View.{kind_view, super_view};
ghost use Rattle.ldisk_model.specs.MinixFormat.{zones_for, size_for, format_layout};

use minix_layout::{FsKind, Super};

/// The bits of one block of a bitmap.
const BLOCK_BITS: u64 = 8192;

/// The bytes of a block.
const BLOCK: u32 = 1024;

/// The most zones that version 1 counts, and the last first data zone.
const LAST: u64 = 65535;

/// The superblock of an empty volume in some sectors, with so many inodes, or none where they don't suffice for the
/// tables and the root, or where the first data zone doesn't fit its field.
pub fn format_layout(kind: FsKind, sectors: u64, inodes: u16) -> Option<Super>
    ensures { option_map super_view result ≡ format_layout (kind_view kind) sectors inodes }
{
    let zones = zones_for(kind, sectors);
    let imap = (u64::from(inodes) + 1).div_ceil(BLOCK_BITS);
    let zmap = zones.div_ceil(BLOCK_BITS);
    let table = (u32::from(inodes) * u32::from(kind.inode_size())).div_ceil(BLOCK);
    let first = 2 + imap + zmap + u64::from(table);
    if inodes == 0 || first >= zones || first > LAST {
        return None;
    }
    Some(Super {
        kind,
        inodes: u32::from(inodes),
        zones: zones as u32,
        imap: imap as u32,
        zmap: zmap as u32,
        first: first as u32,
        max_size: size_for(kind),
        state: 1,
    })
}

// The zones of a volume of some sectors.
fn zones_for(kind: FsKind, sectors: u64) -> u64
    ensures { result ≡ zones_for (kind_view kind) sectors }
{
    let zones = sectors / 2;
    if kind.is_v1() { zones.min(LAST) } else { zones }
}

// The greatest size of a file that is stated.
fn size_for(kind: FsKind) -> u32
    ensures { result ≡ size_for (kind_view kind) }
{
    if kind.is_v1() {
        268_966_912
    } else {
        2_147_483_647
    }
}
