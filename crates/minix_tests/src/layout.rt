// Superblocks, inodes and places, byte by byte.
use minix_layout::{FsKind, Inode, LayoutFault, Place, SizeField, Super, where_inode, where_zone};
use sector_parts::{FieldMut, FieldRef, Sector, put_part, put_u16};

// The superblock of a volume of 64 sectors with 14-byte names, as mkfs.minix writes it.
const SUPER: &[u8] = b"\x10\0\x20\0\x01\0\x01\0\x05\0\0\0\0\x1C\x08\x10\x7F\x13\x01\0";

const LAYOUT: Super = Super {
    kind: FsKind::V1Short,
    inodes: 16,
    zones: 32,
    imap: 1,
    zmap: 1,
    first: 5,
    max_size: 0x1008_1C00,
    state: 1,
};

#[test]
fn superblock_is_written(rt: HostRuntime) {
    let mut sector: Sector = [0; 512];
    put_part(&mut sector, 0, SUPER);
    let mut written: Sector = [0; 512];
    LAYOUT.write_into(&mut written);
    assert!(rt; written == sector);
}

// Fields of two bytes that are changed, the sectors of the volume, and what is read. Version 2 has its zones at 20.
struct Changed {
    fields: &'static [(usize, u16)],
    sectors: u64,
    read: Result<Super, LayoutFault>,
}

// Each field that is broken is told before those after it in this order.
const CHANGED: &[Changed] = &[
    Changed {
        fields: &[],
        sectors: 64,
        read: Ok(LAYOUT),
    },
    Changed {
        fields: &[(8, 4)],
        sectors: 64,
        read: Err(LayoutFault::BadSize(SizeField::FirstZone)),
    },
    Changed {
        fields: &[(8, 4), (6, 0)],
        sectors: 64,
        read: Err(LayoutFault::BadSize(SizeField::ZoneMap)),
    },
    Changed {
        fields: &[(8, 4), (6, 0), (4, 0)],
        sectors: 64,
        read: Err(LayoutFault::BadSize(SizeField::InodeMap)),
    },
    Changed {
        fields: &[(8, 4), (6, 0), (4, 0)],
        sectors: 63,
        read: Err(LayoutFault::BadSize(SizeField::Zones)),
    },
    Changed {
        fields: &[(8, 4), (6, 0), (4, 0), (0, 0)],
        sectors: 63,
        read: Err(LayoutFault::BadSize(SizeField::Inodes)),
    },
    Changed {
        fields: &[(8, 4), (6, 0), (4, 0), (0, 0), (10, 1)],
        sectors: 63,
        read: Err(LayoutFault::ZoneSize),
    },
    Changed {
        fields: &[(10, 1), (16, 0x4D5A)],
        sectors: 63,
        read: Err(LayoutFault::BadMagic),
    },
    // A first data zone after the zones passes the check of the zone bitmap, even where that has no blocks.
    Changed {
        fields: &[(6, 0), (8, 33)],
        sectors: 64,
        read: Err(LayoutFault::BadSize(SizeField::FirstZone)),
    },
    Changed {
        fields: &[(6, 0), (8, 32)],
        sectors: 64,
        read: Err(LayoutFault::BadSize(SizeField::ZoneMap)),
    },
    Changed {
        fields: &[(16, 0x2478), (20, 30)],
        sectors: 64,
        read: Ok(Super {
            kind: FsKind::V2Long,
            zones: 30,
            ..LAYOUT
        }),
    },
];

fn is_read(row: &Changed) -> bool {
    let mut sector: Sector = [0; 512];
    put_part(&mut sector, 0, SUPER);
    for (at, value) in row.fields {
        if *at < 500 {
            put_u16(&mut sector, *at, *value);
        }
    }
    Super::read(&sector, row.sectors) == row.read
}

#[test]
fn first_broken_field_is_told(rt: HostRuntime) {
    for row in CHANGED {
        assert!(rt; is_read(row), "{:?}", row.read);
    }
}

const V1: [u8; 32] =
    *b"\xA4\x81\x01\x00\x05\x04\0\0\x44\x33\x22\x11\x07\x02\x09\0\x0A\0\0\0\0\0\0\0\0\0\0\0\x0B\0\x0C\0";

const INODE: Inode = Inode {
    mode: 0o100644,
    links: 2,
    uid: 1,
    gid: 7,
    size: 1029,
    times: [0x1122_3344; 3],
    zones: [9, 10, 0, 0, 0, 0, 0, 11, 12, 0],
};

#[test]
fn inode_of_version_1(rt: HostRuntime) {
    assert!(rt; Inode::read(&FieldRef { bytes: &V1 }, FsKind::V1Long) == Ok(INODE));
    let mut written = [0xFF; 32];
    INODE.write_into(
        &mut FieldMut {
            bytes: &mut written,
        },
        FsKind::V1Long,
    );
    assert!(rt; written == V1);
}

// The same with the greatest size, and with one more.
const GREATEST: [u8; 32] =
    *b"\xA4\x81\x01\x00\0\x1C\x08\x10\x44\x33\x22\x11\x07\x02\x09\0\x0A\0\0\0\0\0\0\0\0\0\0\0\x0B\0\x0C\0";

const BEYOND: [u8; 32] =
    *b"\xA4\x81\x01\x00\x01\x1C\x08\x10\x44\x33\x22\x11\x07\x02\x09\0\x0A\0\0\0\0\0\0\0\0\0\0\0\x0B\0\x0C\0";

#[test]
fn size_beyond_version_1(rt: HostRuntime) {
    let refused = Err(LayoutFault::BadSize(SizeField::FileSize));
    assert!(rt; Inode::read(&FieldRef { bytes: &GREATEST }, FsKind::V1Short).is_ok());
    assert!(rt; Inode::read(&FieldRef { bytes: &BEYOND }, FsKind::V1Short) == refused);
}

// The second inode of version 2 is 64 bytes after the first, the ninth in the next sector.
#[test]
fn places(rt: HostRuntime) {
    let volume = Super {
        kind: FsKind::V2Long,
        ..LAYOUT
    };
    assert!(rt; where_inode(&volume, 2) == Place { sector: 8, at: 64 });
    assert!(rt; where_inode(&volume, 9) == Place { sector: 9, at: 0 });
    assert!(rt; where_zone(9) == 18);
}
