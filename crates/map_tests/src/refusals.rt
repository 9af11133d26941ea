// What is refused: each fault alone, and of two that can be there together the first.
use crate::disks::{On, planned};
use conf_settings::Opt;
use map_plan::PlanFault;
use mbr_table::TableFault;
use minix_tree::TreeFault;
use minix_zones::ZoneFault;
use sector_address::AddressFault;
use setup_header::SetupFault;
use std::alloc::{AllocError, Global};
use std::mem::drop;
use std::test::Fail;

// What is reported: of a header that it is too short, of a device that its disk isn't there, and of an address the
// cylinder.
#[derive(Clone, Copy)]
enum Told {
    Nothing,
    Missing(&'static [u8]),
    NoDisk(u8),
    NoImagesLeft,
    Geometry(Opt, u32),
    TooLong(u32),
    Short(&'static [u8]),
    OtherIsBoot(&'static [u8]),
    NoSignature(&'static [u8]),
    Address(Opt, u64),
    Slots(Opt, u32),
    NotFile(&'static [u8]),
    NoZone(&'static [u8], u32),
}

fn is_told(fault: &PlanFault, told: Told) -> bool {
    match told {
        Told::Nothing => false,
        Told::NoImagesLeft => matches!(fault, PlanFault::NoImagesLeft),
        Told::Missing(name) => matches!(fault, PlanFault::Missing(path) if path.bytes() == name),
        Told::OtherIsBoot(name) => {
            matches!(fault, PlanFault::OtherIsBoot(path) if path.bytes() == name)
        }
        Told::NoSignature(name) => {
            matches!(fault, PlanFault::NoSignature(path) if path.bytes() == name)
        }
        Told::TooLong(count) => matches!(fault, PlanFault::MessageTooLong(size) if *size == count),
        _ => is_told_within(fault, told),
    }
}

// The same of what has a fault within it, or an option.
fn is_told_within(fault: &PlanFault, told: Told) -> bool {
    match told {
        Told::NoDisk(disk) => {
            matches!(fault, PlanFault::Table(within) if *within == TableFault::NoDisk(disk))
        }
        Told::Geometry(named, count) => {
            matches!(fault, PlanFault::GeometryDiffers(option, have) if *option == named && *have == count)
        }
        Told::Slots(named, count) => {
            matches!(fault, PlanFault::TooManySlots(option, have) if *option == named && *have == count)
        }
        Told::Address(named, at) => {
            matches!(fault, PlanFault::Address(option, within)
                if *option == named && *within == AddressFault::Cylinder(at))
        }
        Told::Short(name) => {
            matches!(fault, PlanFault::Header(path, within)
                if path.bytes() == name && *within == SetupFault::TooShort)
        }
        Told::NotFile(name) => is_told_of_path(fault, name, TreeFault::NotFile),
        Told::NoZone(name, zone) => {
            is_told_of_path(fault, name, TreeFault::Zone(ZoneFault::ZoneOutside(zone)))
        }
        _ => false,
    }
}

fn is_told_of_path(fault: &PlanFault, name: &[u8], told: TreeFault) -> bool {
    matches!(fault, PlanFault::Tree(path, within) if path.bytes() == name && *within == told)
}

// Whether this is told of a configuration.
fn tells(alloc: Global, on: On, text: &[u8], told: Told) -> bool {
    match planned(alloc, on, text) {
        Ok(plan) => {
            drop(plan);
            matches!(told, Told::Nothing)
        }
        Err(fault) => {
            let is_so = is_told(&fault, told);
            drop(fault);
            is_so
        }
    }
}

// A configuration on disks, and what is told of it.
const ALONE: &[(On, &[u8], Told)] = &[
    // A disk has what is said of it.
    (
        On::Near,
        b"disk=/dev/hda\nsectors=63\nheads=16\nimage=/kernel\n",
        Told::Nothing,
    ),
    (
        On::Near,
        b"disk=/dev/hda\nsectors=17\nheads=4\nimage=/kernel\n",
        Told::Geometry(Opt::Sectors, 63),
    ),
    (
        On::Near,
        b"disk=/dev/hda\nsectors=63\nheads=4\nimage=/kernel\n",
        Told::Geometry(Opt::Heads, 16),
    ),
    // A message has 65,535 bytes at most.
    (
        On::Far,
        b"lba32\nmessage=/most\nimage=/kernel\n",
        Told::Nothing,
    ),
    (
        On::Far,
        b"lba32\nmessage=/long\nimage=/kernel\n",
        Told::TooLong(65_536),
    ),
    // 0 setup sectors stand for 4, which are 2560 bytes with the boot sector.
    (On::Far, b"image=/less\n", Told::Short(b"/less")),
    (On::Far, b"image=/least\n", Told::Nothing),
    // What leads to no file, and to one that is broken.
    (On::Near, b"image=/none\n", Told::Missing(b"/none")),
    (On::Near, b"image=/.\n", Told::NotFile(b"/.")),
    (
        On::Near,
        b"image=/kernel\ninitrd=/other\noptional\n",
        Told::Missing(b"/other"),
    ),
    (
        On::Near,
        b"image=/kernel\ninitrd=/outside\n",
        Told::NoZone(b"/outside", 200),
    ),
    // Where no section is left, only files that aren't there come before, and a default that is omitted.
    (
        On::Far,
        b"image=/none\nlabel=linux\noptional\n",
        Told::NoImagesLeft,
    ),
    (
        On::Far,
        b"image=/none\ninitrd=/other\nlabel=linux\noptional\n",
        Told::NoImagesLeft,
    ),
    (
        On::Far,
        b"install=/a\nimage=/none\nlabel=linux\noptional\n",
        Told::Missing(b"/a"),
    ),
    (
        On::Far,
        b"message=/b\nimage=/none\nlabel=linux\noptional\n",
        Told::Missing(b"/b"),
    ),
    (
        On::Far,
        b"default=linux\nimage=/none\nlabel=linux\noptional\n",
        Told::Missing(b"linux"),
    ),
    (
        On::Far,
        b"disk=/dev/hda\nsectors=2\nimage=/none\nlabel=linux\noptional\n",
        Told::NoImagesLeft,
    ),
    (
        On::Far,
        b"message=/long\nimage=/none\nlabel=linux\noptional\n",
        Told::NoImagesLeft,
    ),
    (
        On::Far,
        b"message=/far\nimage=/none\nlabel=linux\noptional\n",
        Told::NoImagesLeft,
    ),
    // An initial ramdisk with a slot more than 4,128,705 comes after its kernel's addresses, and before the next
    // section's.
    (
        On::Far,
        b"image=/high\ninitrd=/vast\n",
        Told::Address(Opt::Image, 1212),
    ),
    (
        On::Far,
        b"image=/kernel\ninitrd=/vast\nother=/dev/hdb1\n",
        Told::Slots(Opt::Initrd, 4_128_706),
    ),
];

#[test]
fn each_fault_is_told(rt: HostRuntime) {
    for (at, (on, text, told)) in ALONE.iter().enumerate() {
        assert!(rt; tells(rt.alloc(), *on, text, *told), "{at}");
    }
}

// A fault in one place of a configuration.
type Broken = (usize, &'static [u8], Told);

// Files in the order of the configuration; a default that is omitted; what files hold; addresses. What has two faults
// in one place: the long message is too far, and so are the short kernels and the partition without a signature; the
// first disk's first sector, the boot sector, has none either.
const IN_ORDER: &[Broken] = &[
    (0, b"install=/a\n", Told::Missing(b"/a")),
    (1, b"message=/b\n", Told::Missing(b"/b")),
    (4, b"image=/c\nlabel=a\n", Told::Missing(b"/c")),
    (5, b"initrd=/boot/initrd\n", Told::Missing(b"/boot/initrd")),
    (6, b"other=/dev/sda\nlabel=b\n", Told::NoDisk(2)),
    (7, b"table=/dev/sdb\n", Told::NoDisk(3)),
    (8, b"image=/d\nlabel=c\n", Told::Missing(b"/d")),
    (2, b"default=o\n", Told::Missing(b"o")),
    (
        3,
        b"disk=/dev/hda\nsectors=2\n",
        Told::Geometry(Opt::Sectors, 1),
    ),
    (1, b"message=/long\n", Told::TooLong(65_536)),
    (4, b"image=/short\nlabel=a\n", Told::Short(b"/short")),
    (
        6,
        b"other=/dev/hda\nlabel=b\n",
        Told::OtherIsBoot(b"/dev/hda"),
    ),
    (
        6,
        b"other=/dev/hdb2\nlabel=b\n",
        Told::NoSignature(b"/dev/hdb2"),
    ),
    (8, b"image=/shorter\nlabel=c\n", Told::Short(b"/shorter")),
    (1, b"message=/far\n", Told::Address(Opt::Message, 1220)),
    (
        4,
        b"image=/high\nlabel=a\n",
        Told::Address(Opt::Image, 1212),
    ),
    (5, b"initrd=/far\n", Told::Address(Opt::Initrd, 1220)),
    (
        6,
        b"other=/dev/hdb1\nlabel=b\n",
        Told::Address(Opt::OtherDevice, 1100),
    ),
    (7, b"table=/dev/hdb1\n", Told::Address(Opt::Table, 1100)),
    (
        8,
        b"image=/higher\nlabel=c\n",
        Told::Address(Opt::Image, 1216),
    ),
];

// What is in the places of a configuration without a fault: in the first four nothing, then a kernel and its initial
// ramdisk, another system and its table, a kernel, and one that may be omitted and is.
const SOUND: &[&[u8]] = &[
    b"",
    b"",
    b"",
    b"",
    b"image=/kernel\nlabel=a\n",
    b"",
    b"other=/dev/hdb\nlabel=b\n",
    b"",
    b"image=/kernel\nlabel=c\n",
    b"image=/none\nlabel=o\noptional\n",
];

#[test]
fn of_two_faults_the_first_is_told(rt: HostRuntime) -> Result<(), Fail> {
    for (index, first) in IN_ORDER.iter().enumerate() {
        for (more, second) in IN_ORDER[index..].iter().enumerate() {
            assert!(rt; comes_first(rt.alloc(), first, second)?, "{index} {more}");
        }
    }
    Ok(())
}

// Whether the first of two faults is told, where both can be there together.
fn comes_first(alloc: Global, first: &Broken, second: &Broken) -> Result<bool, AllocError> {
    if first.0 == second.0 {
        return Ok(true);
    }
    let mut text = Vec::new(alloc);
    for (place, sound) in SOUND.iter().enumerate() {
        let part = if place == first.0 {
            first.1
        } else if place == second.0 {
            second.1
        } else {
            *sound
        };
        text.extend_from_slice(part)?;
    }
    Ok(tells(alloc, On::Far, text.as_slice(), first.2))
}
