// Two pairs of disks, the first with a volume of version 2 and the second with other systems, byte by byte; and what a
// configuration plans on them.
ghost use Rattle.std.specs.Prelude.{◌≡◌, IfOk};
ghost use Rattle.lilo_model.specs.ConfLawful.{IsLawful};
ghost use Rattle.lilo_conf.specs.View.{config_view};

use disk_trait::{Disks, Failing, Geometry, MemDisk, MemDisks, Span};
use lilo_conf::{Config, parse};
use map_plan::PlanFault;
use map_sectors::{MapPlan, plan};
use minix_zones::Volume;
use sector_parts::{Sector, put_part};
use std::alloc::{AllocError, Global};

/// Bytes of a sector, from an offset on.
pub type Edit = (u32, usize, &'static [u8]);

/// Which disks. On those that are near each sector has a slot in each mode; on those that are far, of one head and one
/// sector per track, none from 1024 on has one in mode Chs.
#[derive(Clone, Copy, PartialEq, Eq)]
pub enum On {
    Near,
    Far,
}

// A volume of 200 zones and 16 inodes in block 4, with names of 14 bytes and the first data zone 6.
const NEAR: &[Edit] = &[
    (
        11,
        0,
        b"\x10\0\0\0\x01\0\x01\0\x06\0\0\0\0\0\0\0\x68\x24\0\0\xC8",
    ),
    // The root, in zone 13.
    (17, 0, b"\xED\x41\0\0\0\0\0\0\xC0"),
    (17, 24, b"\x0D"),
    // A kernel with a hole.
    (17, 64, b"\xA4\x81\0\0\0\0\0\0\x05\x10"),
    (17, 88, b"\x0A\0\0\0\x0B\0\0\0\0\0\0\0\x0C\0\0\0\x09"),
    // 63 sectors, and 64, but for the first two in holes.
    (17, 128, b"\xA4\x81\0\0\0\0\0\0\0\x7E"),
    (17, 152, b"\x0E"),
    (17, 192, b"\xA4\x81\0\0\0\0\0\0\0\x80"),
    (17, 216, b"\x0F"),
    // An initial ramdisk.
    (17, 256, b"\xA4\x81\0\0\0\0\0\0\0\x04"),
    (17, 280, b"\x3A"),
    // 128 sectors in zones 64 to 127, with the indirect zone 16.
    (17, 320, b"\xA4\x81\0\0\0\0\0\0\0\0\x01"),
    (
        17,
        344,
        b"\x40\0\0\0\x41\0\0\0\x42\0\0\0\x43\0\0\0\x44\0\0\0\x45\0\0\0\x46\0\0\0\x10",
    ),
    // Without a byte; one that ends in a hole; one with two bytes past a sector.
    (17, 384, b"\xA4\x81"),
    (17, 408, b"\x0A\0\0\0\x0B"),
    (17, 448, b"\xA4\x81\0\0\0\0\0\0\x01\x08"),
    (17, 472, b"\x3C"),
    (18, 0, b"\xA4\x81\0\0\0\0\0\0\x02\x02"),
    (18, 24, b"\x07\0\0\0\x08"),
    // A zone that isn't there.
    (18, 64, b"\xA4\x81\0\0\0\0\0\0\0\x08"),
    (18, 88, b"\x0A\0\0\0\xC8"),
    // Seven zones and the next through the indirect zone 20 adjoin each other; the last one doesn't.
    (18, 128, b"\xA4\x81\0\0\0\0\0\0\0\x24"),
    (
        18,
        152,
        b"\x15\0\0\0\x16\0\0\0\x17\0\0\0\x18\0\0\0\x19\0\0\0\x1A\0\0\0\x1B\0\0\0\x14",
    ),
    (35, 0, b"\x01\0."),
    (35, 16, b"\x01\0.."),
    (35, 32, b"\x02\0kernel"),
    (35, 48, b"\x03\0k63"),
    (35, 64, b"\x04\0k64"),
    (35, 80, b"\x05\0initrd"),
    (35, 96, b"\x06\0run"),
    (35, 112, b"\x07\0empty"),
    (35, 128, b"\x08\0ends"),
    (35, 144, b"\x09\0two"),
    (35, 160, b"\x0A\0outside"),
    (35, 176, b"\x0B\0joins"),
    (
        41,
        0,
        b"\x47\0\0\0\x48\0\0\0\x49\0\0\0\x4A\0\0\0\x4B\0\0\0\x4C\0\0\0\x4D\0\0\0\x4E",
    ),
    (
        41,
        32,
        b"\x4F\0\0\0\x50\0\0\0\x51\0\0\0\x52\0\0\0\x53\0\0\0\x54\0\0\0\x55\0\0\0\x56",
    ),
    (
        41,
        64,
        b"\x57\0\0\0\x58\0\0\0\x59\0\0\0\x5A\0\0\0\x5B\0\0\0\x5C\0\0\0\x5D\0\0\0\x5E",
    ),
    (
        41,
        96,
        b"\x5F\0\0\0\x60\0\0\0\x61\0\0\0\x62\0\0\0\x63\0\0\0\x64\0\0\0\x65\0\0\0\x66",
    ),
    (
        41,
        128,
        b"\x67\0\0\0\x68\0\0\0\x69\0\0\0\x6A\0\0\0\x6B\0\0\0\x6C\0\0\0\x6D\0\0\0\x6E",
    ),
    (
        41,
        160,
        b"\x6F\0\0\0\x70\0\0\0\x71\0\0\0\x72\0\0\0\x73\0\0\0\x74\0\0\0\x75\0\0\0\x76",
    ),
    (
        41,
        192,
        b"\x77\0\0\0\x78\0\0\0\x79\0\0\0\x7A\0\0\0\x7B\0\0\0\x7C\0\0\0\x7D\0\0\0\x7E",
    ),
    (41, 224, b"\x7F"),
    (49, 0, b"\x1C\0\0\0\x1E"),
    // The kernels: each is one setup sector of protocol 2.06.
    (29, 0x1F1, b"\x01"),
    (29, 0x1FE, b"\x55\xAA"),
    (30, 0x02, b"HdrS\x06\x02"),
    (30, 0x11, b"\x01"),
    (30, 0x2C, b"\xFF\xFF\xFF\x37"),
    (30, 0x38, b"\xFF"),
    (37, 0x1F1, b"\x01"),
    (37, 0x1FE, b"\x55\xAA"),
    (38, 0x02, b"HdrS\x06\x02"),
    (38, 0x11, b"\x01"),
    (38, 0x2C, b"\xFF\xFF\xFF\x37"),
    (38, 0x38, b"\xFF"),
    (39, 0x1F1, b"\x01"),
    (39, 0x1FE, b"\x55\xAA"),
    (40, 0x02, b"HdrS\x06\x02"),
    (40, 0x11, b"\x01"),
    (40, 0x2C, b"\xFF\xFF\xFF\x37"),
    (40, 0x38, b"\xFF"),
    (137, 0x1F1, b"\x01"),
    (137, 0x1FE, b"\x55\xAA"),
    (138, 0x02, b"HdrS\x06\x02"),
    (138, 0x11, b"\x01"),
    (138, 0x2C, b"\xFF\xFF\xFF\x37"),
    (138, 0x38, b"\xFF"),
    (31, 0, b"HELLO"),
    (33, 0, b"AFTER"),
    (27, 0, b"WORLD"),
    (125, 0, b"FIRST"),
];

// A volume of 800 zones and 16 inodes in block 4, with names of 14 bytes and the first data zone 6.
const FAR: &[Edit] = &[
    (
        10,
        0,
        b"\x10\0\0\0\x01\0\x01\0\x06\0\0\0\0\0\0\0\x68\x24\0\0\x20\x03",
    ),
    // The root, in zone 13.
    (16, 0, b"\xED\x41\0\0\0\0\0\0\xD0"),
    (16, 24, b"\x0D"),
    // A kernel; two files that are too short for kernels; two kernels that are too far.
    (16, 64, b"\xA4\x81\0\0\0\0\0\0\0\x06"),
    (16, 88, b"\x25\0\0\0\x26"),
    (16, 128, b"\xA4\x81\0\0\0\0\0\0\x64"),
    (16, 152, b"\x58\x02"),
    (16, 192, b"\xA4\x81\0\0\0\0\0\0\x64"),
    (16, 216, b"\x59\x02"),
    (16, 256, b"\xA4\x81\0\0\0\0\0\0\0\x06"),
    (16, 280, b"\x5A\x02\0\0\x5B\x02"),
    (16, 320, b"\xA4\x81\0\0\0\0\0\0\0\x06"),
    (16, 344, b"\x5C\x02\0\0\x5D\x02"),
    // Messages that are too far, of which the second is too long.
    (16, 384, b"\xA4\x81\0\0\0\0\0\0\x05"),
    (16, 408, b"\x5E\x02"),
    (16, 448, b"\xA4\x81\0\0\0\0\0\0\0\0\x01"),
    (16, 472, b"\x5F\x02"),
    // Two kernels that say 0 setup sectors, the first with a byte less than the real-mode part of 5 sectors.
    (17, 0, b"\xA4\x81\0\0\0\0\0\0\xFF\x09"),
    (17, 24, b"\x28\0\0\0\x29\0\0\0\x2A"),
    (17, 64, b"\xA4\x81\0\0\0\0\0\0\x05\x0A"),
    (17, 88, b"\x2C\0\0\0\x2D\0\0\0\x2E"),
    // 4,128,706 sectors of a hole.
    (17, 128, b"\xA4\x81\0\0\0\0\0\0\0\x84\xFF\x7D"),
    // The longest message.
    (17, 192, b"\xA4\x81\0\0\0\0\0\0\xFF\xFF"),
    (17, 216, b"\x5F\x02"),
    (34, 0, b"\x01\0."),
    (34, 16, b"\x02\0kernel"),
    (34, 32, b"\x03\0short"),
    (34, 48, b"\x04\0shorter"),
    (34, 64, b"\x05\0high"),
    (34, 80, b"\x06\0higher"),
    (34, 96, b"\x07\0far"),
    (34, 112, b"\x08\0long"),
    (34, 128, b"\x09\0less"),
    (34, 144, b"\x0A\0least"),
    (34, 160, b"\x0B\0vast"),
    (34, 176, b"\x0C\0most"),
    (34, 192, b"\x01\0.."),
    // The kernels: each is one setup sector of protocol 2.06, but for two without that number.
    (82, 0x1F1, b"\x01"),
    (82, 0x1FE, b"\x55\xAA"),
    (83, 0x02, b"HdrS\x06\x02"),
    (83, 0x11, b"\x01"),
    (83, 0x2C, b"\xFF\xFF\xFF\x37"),
    (83, 0x38, b"\xFF"),
    (1212, 0x1F1, b"\x01"),
    (1212, 0x1FE, b"\x55\xAA"),
    (1213, 0x02, b"HdrS\x06\x02"),
    (1213, 0x11, b"\x01"),
    (1213, 0x2C, b"\xFF\xFF\xFF\x37"),
    (1213, 0x38, b"\xFF"),
    (1216, 0x1F1, b"\x01"),
    (1216, 0x1FE, b"\x55\xAA"),
    (1217, 0x02, b"HdrS\x06\x02"),
    (1217, 0x11, b"\x01"),
    (1217, 0x2C, b"\xFF\xFF\xFF\x37"),
    (1217, 0x38, b"\xFF"),
    (88, 0x1FE, b"\x55\xAA"),
    (89, 0x02, b"HdrS\x06\x02"),
    (89, 0x11, b"\x01"),
    (89, 0x2C, b"\xFF\xFF\xFF\x37"),
    (89, 0x38, b"\xFF"),
    (96, 0x1FE, b"\x55\xAA"),
    (97, 0x02, b"HdrS\x06\x02"),
    (97, 0x11, b"\x01"),
    (97, 0x2C, b"\xFF\xFF\xFF\x37"),
    (97, 0x38, b"\xFF"),
    (84, 0, b"HELLO"),
    (101, 0, b"HELLO"),
    (1220, 0, b"Hey!\n"),
];

// What is on the first disk and on the second. All other bytes are zeros. The second disk that is far has the
// partitions of sectors 1100 to 1109, with a boot sector, and 1200 to 1209.
fn bytes_on(on: On) -> (&'static [Edit], &'static [Edit]) {
    match on {
        On::Near => (NEAR, &[(0, 510, b"\x55\xAA")]),
        On::Far => (
            FAR,
            &[
                (0, 450, b"\x83\0\0\0\x4C\x04\0\0\x0A"),
                (0, 466, b"\x83\0\0\0\xB0\x04\0\0\x0A"),
                (0, 510, b"\x55\xAA"),
                (1100, 510, b"\x55\xAA"),
            ],
        ),
    }
}

/// The disks, whose calls in a list fail.
pub fn disks_of(alloc: Global, on: On, failing: &[Failing]) -> Result<MemDisks, AllocError> {
    let (sectors, heads, track) = match on {
        On::Near => (512, 16, 63),
        On::Far => (2048, 1, 1),
    };
    let Ok(geometry) = Geometry::new(heads, track) else {
        return Err(AllocError);
    };
    let disk = MemDisk { sectors, geometry };
    let mut disks = MemDisks::new(alloc, &[disk, disk], 8, failing)?;
    let (first, second) = bytes_on(on);
    for (number, ..) in first {
        put(&mut disks, 0, *number, &sector_of(first, *number));
    }
    for (number, ..) in second {
        put(&mut disks, 1, *number, &sector_of(second, *number));
    }
    Ok(disks)
}

/// Where the volume lies: zone n in the sectors 9 + 2n and 10 + 2n of the disk that is near, and one before these of
/// the disk that is far.
pub fn volume_on(on: On) -> Span
    ensures { result.disk ≡ 0 }
{
    let (start, count) = match on {
        On::Near => (9, 400),
        On::Far => (8, 1600),
    };
    Span {
        disk: 0,
        start,
        count,
    }
}

fn sector_of(edits: &[Edit], number: u32) -> Sector {
    let mut sector = [0; 512];
    for (edited, at, bytes) in edits {
        if *edited == number && bytes.len() <= 512 && *at <= 512 - bytes.len() {
            put_part(&mut sector, *at, bytes);
        }
    }
    sector
}

/// Changes the bytes that a sector has at first, where nothing was written yet.
pub fn put(disks: &mut MemDisks, disk: u8, sector: u32, bytes: &Sector) {
    if disks.events() == 0 && u64::from(sector) < disks.size(disk) {
        disks.set(disk, sector, bytes);
    }
}

/// The map that a configuration plans there, for the boot sector of the first disk, at the time 7.
pub fn planned(alloc: Global, on: On, text: &[u8]) -> Result<MapPlan, PlanFault>
    ensures { IfOk result (λ plan. plan.disk ≡ 0) }
{
    let mut disks = disks_of(alloc, on, &[])?;
    match parse(alloc, text) {
        Ok(config) => plan_on(alloc, on, &mut disks, config),
        Err(_) => Err(PlanFault::Memory),
    }
}

// The same of a configuration.
fn plan_on(
    alloc: Global,
    on: On,
    disks: &mut MemDisks,
    config: Config,
) -> Result<MapPlan, PlanFault>
    requires { IsLawful (config_view config) }
    ensures { IfOk result (λ plan. plan.disk ≡ 0) }
{
    let size = disks.size(0);
    let span = volume_on(on);
    let boot = Span {
        disk: 0,
        start: 0,
        count: size,
    };
    if span.count < 4 || size < span.count || size - span.count < span.start {
        return Err(PlanFault::Device);
    }
    match Volume::attach(disks, span) {
        Ok(mut volume) => plan(alloc, config, &mut volume, boot, 7),
        Err(_) => Err(PlanFault::Device),
    }
}
