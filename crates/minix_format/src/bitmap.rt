// The sectors of a new bitmap.
ghost use Rattle.std.specs.Prelude.{◌≡◌, ◌<◌, ◌^◌};
ghost use Rattle.ldisk_model.specs.MinixFormat.{map_byte, map_sector};

use sector_parts::Sector;

// A sector of a bitmap, counted from the bitmap's first. Numbers up to `last` have a bit; those of 0 and 1 are set,
// and those past it.
pub(crate) fn map_sector(last: u32, sector: u64) -> Sector
    requires { sector < 2 ^ 32 }
    ensures { result ≡ map_sector last sector }
{
    let mut bytes = [0; 512];
    for (at, byte) in bytes.iter_mut().enumerate() {
        *byte = map_byte(last, 4096 * sector + 8 * at as u64);
    }
    bytes
}

// A byte of a bitmap, by the number of its first bit.
#[tactic(auto, unfolding(ldisk_model::specs::MinixFormat::map_byte))]
fn map_byte(last: u32, number: u64) -> u8
    ensures { result ≡ map_byte last number }
{
    let low = if number == 0 { 3 } else { 0 };
    let past = (u64::from(last) + 1).saturating_sub(number).min(8);
    low | (256 - (1u16 << past)) as u8
}
