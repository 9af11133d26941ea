// Where the bits of zones lie.
ghost use Rattle.std.specs.Prelude.{◌≡◌, ◌≤◌};
ghost use Rattle.lilo_model.specs.MinixParts.{zone_bit, zone_mark_sector};
ghost use Rattle.minix_layout.specs.View.{super_view};

use minix_layout::Super;

/// The bits of a sector.
const SECTOR_BITS: u64 = 4096;

/// The number of a zone's bit in the zone bitmap: the first data zone has bit 1.
pub fn zone_bit(layout: &Super, zone: u32) -> u64
    requires { layout.now.first ≤ zone }
    ensures { result ≡ zone_bit (super_view layout.now) zone }
{
    u64::from(zone) + 1 - u64::from(layout.first)
}

/// The sector with a zone's bit, counted from the start of the volume. There it is bit `zone_bit` modulo 4096.
pub fn zone_bit_sector(layout: &Super, zone: u32) -> u64
    requires { layout.now.first ≤ zone }
    ensures { result ≡ zone_mark_sector (super_view layout.now) zone }
{
    2 * (2 + u64::from(layout.imap)) + zone_bit(layout, zone) / SECTOR_BITS
}
