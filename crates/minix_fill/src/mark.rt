// The bits of many zones.
ghost use Rattle.std.specs.Prelude.{◌≡◌, ◌≤◌, ◌<◌, All, length, take};
ghost use Rattle.minix_layout.specs.View.{super_view};
ghost use Rattle.minix_zones.specs.View.{IsDataZone};
ghost use Rattle.minix_steps.specs.Steps.{IsReady};
ghost use Rattle.minix_fill.specs.Marks.{with_marks, AreTogether, MarksZones};

use disk_trait::Disks;
use minix_layout::Super;
use minix_steps::{put_bit, write_beside, zone_bit, zone_bit_sector};
use minix_zones::{Volume, ZoneFault};
use sector_parts::Sector;

/// The bits of a sector.
const SECTOR_BITS: u64 = 4096;

/// Sets the bits of data zones in the zone bitmap, whatever they are: where the zones rise, each of its sectors is
/// read and written once. They aren't flushed.
///
/// # Errors
///
/// `Device` alone. Then some of the bits may be set.
pub fn mark_zones<D: Disks>(volume: &mut Volume<'_, D>, zones: &[u32]) -> Result<(), ZoneFault>
    requires data { All (IsDataZone volume.old.layout) zones.now }
    requires ready { IsReady volume.old }
    ensures { MarksZones volume.old volume.new zones.now result }
{
    let mut at = 0;
    while at < zones.len() {
        let rest = &zones[at..];
        let many = count_together(volume.layout(), rest);
        mark_together(volume, &rest[..many])?;
        at += many;
    }
    Ok(())
}

// How many zones have their bits in one sector, from the first on.
fn count_together(layout: &Super, zones: &[u32]) -> usize
    requires some { 0 < length zones.now }
    requires data { All (IsDataZone layout.now) zones.now }
    ensures some { 0 < result }
    ensures few { result ≤ length zones.now }
    ensures together { AreTogether (super_view layout.now) (take result zones.now) }
{
    let sector = zone_bit_sector(layout, zones[0]);
    let mut many = 1;
    while many < zones.len() && zone_bit_sector(layout, zones[many]) == sector {
        many += 1;
    }
    many
}

// Sets the bits of zones that are in one sector.
fn mark_together<D: Disks>(volume: &mut Volume<'_, D>, zones: &[u32]) -> Result<(), ZoneFault>
    requires some { 0 < length zones.now }
    requires data { All (IsDataZone volume.old.layout) zones.now }
    requires together { AreTogether (super_view volume.old.layout) zones.now }
    requires ready { IsReady volume.old }
    ensures { MarksZones volume.old volume.new zones.now result }
{
    let sector = zone_bit_sector(volume.layout(), zones[0]);
    let mut bytes = [0; 512];
    volume.read_sector(sector, &mut bytes)?;
    set_marks(volume.layout(), zones, &mut bytes);
    write_beside(volume, sector, &bytes)
}

// Sets the bits of zones in a sector.
fn set_marks(layout: &Super, zones: &[u32], bytes: &mut Sector)
    requires { All (IsDataZone layout.now) zones.now }
    ensures { bytes.new ≡ with_marks (super_view layout.now) bytes.old zones.now }
{
    for zone in zones {
        let at = zone_bit(layout, *zone) % SECTOR_BITS;
        put_bit(bytes, at as usize, true);
    }
}
