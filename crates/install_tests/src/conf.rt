// A configuration's file, where each read on the way to it fails.
use crate::pieces::{Piece, disk_of};
use conf_file::{FileFault, read_conf_file};
use disk_trait::{Failing, MemDisks};
use mbr_table::TableFault;
use std::alloc::Global;

const TEXT: &[u8] = b"image=/kernel\n";

// A volume of version 1 with names of 14 bytes from sector 0 on: 16 inodes, 32 zones, the first data zone 5. The root in
// zone 5 has the file `conf`, whose text lies in zone 6.
const VOLUME: &[Piece] = &[
    (2, 0, b"\x10\0\x20\0\x01\0\x01\0\x05"),
    (2, 16, b"\x7F\x13"),
    (8, 0, b"\xED\x41\0\0\x30"),
    (8, 14, b"\x05"),
    (8, 32, b"\xA4\x81\0\0\x0E"),
    (8, 46, b"\x06"),
    (10, 0, b"\x01\0."),
    (10, 16, b"\x01\0.."),
    (10, 32, b"\x02\0conf"),
    (12, 0, TEXT),
];

// What each read comes to where it fails. The search reads the superblock, and the volume reads it again; on the way to the
// file are the root, the two halves of its zone, the inode of the file and the two halves of its own zone.
const READS: &[Option<FileFault>] = &[
    Some(FileFault::Place(TableFault::Device)),
    Some(FileFault::Device),
    Some(FileFault::Device),
    Some(FileFault::Device),
    Some(FileFault::Device),
    Some(FileFault::Device),
    Some(FileFault::Device),
    Some(FileFault::Device),
    None,
];

fn is_read(alloc: Global, disks: &mut MemDisks, fault: Option<FileFault>) -> bool {
    match read_conf_file(alloc, disks, None, b"/conf") {
        Ok(file) => fault == None && file.text.bytes() == TEXT,
        Err(found) => fault == Some(found),
    }
}

fn comes(alloc: Global, call: usize, fault: Option<FileFault>) -> bool {
    let failing = Failing {
        call: call as u64,
        made: false,
    };
    match disk_of(alloc, VOLUME, &[], failing) {
        Ok(mut disks) => is_read(alloc, &mut disks, fault),
        Err(_) => false,
    }
}

#[test]
fn each_read_of_a_configuration_fails(rt: HostRuntime) {
    for (call, fault) in READS.iter().enumerate() {
        assert!(rt; comes(rt.alloc(), call, *fault), "{call}");
    }
}
