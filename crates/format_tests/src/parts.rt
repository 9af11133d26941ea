use sector_parts::{
    FieldMut, FieldRef, Sector, half, half_mut, part, part_mut, put_name, put_part, put_u16,
    put_u32, u16_at, u32_at,
};

fn written_sector() -> Sector {
    let mut sector: Sector = [0xFF; 512];
    put_u32(&mut sector, 0, 0x0102_0304);
    put_name(&mut sector, 5, 8, b"linux");
    put_part(&mut sector, 14, b"\0\0");
    put_u16(&mut sector, 20, 0x0708);
    put_u16(&mut sector, 510, 0xAA55);
    part_mut(&mut sector, 17, 2).fill(9);
    sector
}

// Whether a sector that was written is read as it should be: a name ends before a zero byte, or with its field.
fn is_read(sector: &Sector) -> bool {
    let fields = FieldRef { bytes: sector };
    part(sector, 0, 23)
        == b"\x04\x03\x02\x01\xFFlinux\0\0\0\xFF\0\0\xFF\x09\x09\xFF\x08\x07\xFF".as_slice()
        && part(sector, 507, 5) == b"\xFF\xFF\xFF\x55\xAA".as_slice()
        && [u16_at(sector, 1), fields.u16_at(1)] == [0x0203; 2]
        && [u32_at(sector, 508), fields.u32_at(1)] == [0xAA55_FFFF, 0xFF01_0203]
        && fields.u8_at(5) == b'l'
        && fields.name(5, 8) == b"linux".as_slice()
        && fields.name(5, 4) == b"linu".as_slice()
}

fn written_fields() -> [u8; 16] {
    let mut bytes = [0xFF; 16];
    let mut fields = FieldMut { bytes: &mut bytes };
    fields.put_u8(0, 7);
    fields.put_u16(1, 0x0506);
    fields.put_u32(3, 0x0102_0304);
    fields.put_name(7, 8, b"linux");
    bytes
}

// Halves are lent by code that the prover takes as it is.
fn written_halves() -> [u8; 1024] {
    let mut block = [7; 1024];
    half_mut(&mut block, true).fill(1);
    put_u16(half_mut(&mut block, false), 510, 0xAA55);
    block
}

fn are_halves(block: &[u8; 1024]) -> bool {
    part(half(block, false), 508, 4) == b"\x07\x07\x55\xAA".as_slice()
        && *half(block, true) == [1; 512]
        && [block[0], block[509], block[512], block[1023]] == [7, 7, 1, 1]
}

#[test]
fn bytes_stand_where_they_are_written(rt: HostRuntime) {
    assert!(rt; is_read(&written_sector()));
    assert!(rt; written_fields() == *b"\x07\x06\x05\x04\x03\x02\x01linux\0\0\0\xFF");
    assert!(rt; are_halves(&written_halves()));
}
