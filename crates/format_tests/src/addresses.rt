use disk_trait::Geometry;
use sector_address::{AddressFault, Chs, to_chs, to_lba};

// The last sector of a disk that INT 13h can name, by its number and by its place on cylinder 1023.
struct End {
    heads: u16,
    sectors: u8,
    last: u64,
    head: u8,
    sector: u8,
}

// Of a usual disk, of the one with the most heads and sectors, and of the one with the fewest.
const ENDS: &[End] = &[
    End {
        heads: 16,
        sectors: 63,
        last: 1_032_191,
        head: 15,
        sector: 63,
    },
    End {
        heads: 255,
        sectors: 63,
        last: 16_450_559,
        head: 254,
        sector: 63,
    },
    End {
        heads: 1,
        sectors: 1,
        last: 1023,
        head: 0,
        sector: 1,
    },
];

fn is_end(end: &End) -> bool {
    let Ok(disk) = Geometry::new(end.heads, end.sectors) else {
        return false;
    };
    let at = Chs {
        cylinder: 1023,
        head: end.head,
        sector: end.sector,
    };
    to_chs(disk, end.last) == Ok(at)
        && to_lba(disk, at) == Ok(end.last)
        && to_chs(disk, end.last.saturating_add(1)) == Err(AddressFault::Cylinder(1024))
}

#[test]
fn the_last_cylinder_is_the_last_of_int_13h(rt: HostRuntime) {
    for end in ENDS {
        assert!(rt; is_end(end));
    }
}
