// New zones, before anything names them.
ghost use Rattle.std.specs.Prelude.{◌≡◌, ◌≤◌, ◌<◌, ◌^◌, ℕ, true, length, replicate, slice_index, OnOk};
ghost use Rattle.disk_trait.specs.Moments.{IsTold, IsQuiet};
ghost use Rattle.lilo_model.specs.Bytes.{with_part};
ghost use Rattle.lilo_model.specs.MinixLayout.{numbers_in_zone, number_size};
ghost use Rattle.minix_grow.specs.Others.{ChangesZonesNow};
ghost use Rattle.minix_grow.specs.Way.{grown_bytes};
ghost use Rattle.minix_grow.specs.Zones.{AreData, AreUnused, AreMarked, AreWritten, AreGrownNow, WritesZonesAlone};
ghost use Rattle.minix_layout.specs.View.{kind_view};
ghost use Rattle.minix_steps.specs.Steps.{IsReady, Steps};
ghost use Rattle.minix_change_laws.specs.Part.{number_bytes, offset_of_number};
ghost use Rattle.minix_zones.specs.Volume.{past_of, HasDeviceCause};

use crate::way::index_above;
use disk_trait::Disks;
use minix_layout::FsKind;
use minix_steps::{put_zone_mark, settle, write_zone};
use minix_zones::{Volume, ZoneFault};
use sector_parts::FieldMut;

/// The bytes of an indirect zone with one number.
fn number_zone(kind: FsKind, index: u32, number: u32) -> [u8; 1024]
    requires low { index < numbers_in_zone (kind_view kind) }
    requires fits { number < 256 ^ number_size (kind_view kind) }
    ensures { result ≡ with_part (replicate 1024 0) (offset_of_number (kind_view kind) index)
        (number_bytes (kind_view kind) number) }
{
    let mut bytes = [0; 1024];
    let mut fields = FieldMut { bytes: &mut bytes };
    let index = index as usize;
    if kind.is_v1() {
        fields.put_u16(2 * index, number as u16);
    } else {
        fields.put_u32(4 * index, number);
    }
    bytes
}

/// What the new zone of a level holds: zeros, but for the number of the next one below.
#[tactic(auto, unfolding(crate::specs::Way::grown_bytes))]
fn grown_bytes(kind: FsKind, block: u32, growth: &[u32], level: u32) -> [u8; 1024]
    requires few { level ≤ 4 }
    requires there { level < length growth.now }
    requires fit { (other : ℕ) → other < length growth.now
        → slice_index growth.now other < 256 ^ number_size (kind_view kind) }
    ensures { result ≡ grown_bytes (kind_view kind) block growth.now level }
{
    if level == 0 {
        return [0; 1024];
    }
    let below = level - 1;
    number_zone(
        kind,
        index_above(kind, block, below),
        growth[below as usize],
    )
}

/// Marks zones as used. They aren't flushed.
fn mark_all<D: Disks>(volume: &mut Volume<'_, D>, zones: &[u32]) -> Result<(), ZoneFault>
    requires data { AreData volume.old.layout zones.now }
    requires ready { IsReady volume.old }
    ensures steps { Steps volume.old volume.new }
    ensures marked { IsTold (past_of volume.old) → OnOk result (AreMarked volume.new zones.now (length zones.now)) }
    ensures only { IsTold (past_of volume.old) → OnOk result (ChangesZonesNow volume.old volume.new zones.now) }
    ensures others { WritesZonesAlone volume.old volume.new zones.now }
    ensures device { HasDeviceCause volume.old volume.new ZoneFault.Device result }
{
    for zone in zones {
        put_zone_mark(volume, *zone)?;
    }
    Ok(())
}

/// Writes the new zones by which the way to a block is completed, the lowest first. They aren't flushed.
fn write_all<D: Disks>(
    volume: &mut Volume<'_, D>,
    block: u32,
    growth: &[u32],
) -> Result<(), ZoneFault>
    requires few { length growth.now ≤ 4 }
    requires data { AreData volume.old.layout growth.now }
    requires ready { IsReady volume.old }
    requires unused { AreUnused volume.old growth.now }
    ensures steps { Steps volume.old volume.new }
    ensures written { IsTold (past_of volume.old) → OnOk result (AreWritten
        (kind_view volume.old.layout.kind) volume.new block growth.now (length growth.now)) }
    ensures marked { IsTold (past_of volume.old) → AreMarked volume.old growth.now (length growth.now)
        → OnOk result (AreMarked volume.new growth.now (length growth.now)) }
    ensures only { IsTold (past_of volume.old) → OnOk result (ChangesZonesNow volume.old volume.new growth.now) }
    ensures others { WritesZonesAlone volume.old volume.new growth.now }
    ensures device { HasDeviceCause volume.old volume.new ZoneFault.Device result }
{
    let kind = volume.layout().kind;
    for level in 0..growth.len() {
        let bytes = grown_bytes(kind, block, growth, level as u32);
        write_zone(volume, growth[level], &bytes)?;
    }
    Ok(())
}

/// Marks and writes new zones that no name needs, by which the way to a block is completed, the lowest first, and makes
/// that durable: the bitmap bits before the bytes.
///
/// # Errors
///
/// `Device` alone.
#[tactic(auto, using(minix_steps::proofs::StepLemmas::steps_join))]
pub fn make_zones<D: Disks>(
    volume: &mut Volume<'_, D>,
    block: u32,
    growth: &[u32],
) -> Result<(), ZoneFault>
    requires few { length growth.now ≤ 4 }
    requires data { AreData volume.old.layout growth.now }
    requires ready { IsReady volume.old }
    requires unused { AreUnused volume.old growth.now }
    ensures steps { Steps volume.old volume.new }
    ensures grown { IsTold (past_of volume.old) → OnOk result (AreGrownNow volume.new block growth.now) }
    ensures only { IsTold (past_of volume.old) → OnOk result (ChangesZonesNow volume.old volume.new growth.now) }
    ensures others { WritesZonesAlone volume.old volume.new growth.now }
    ensures quiet { OnOk result (IsQuiet (past_of volume.new)) }
    ensures device { HasDeviceCause volume.old volume.new ZoneFault.Device result }
{
    mark_all(volume, growth)?;
    settle(volume)?;
    write_all(volume, block, growth)?;
    settle(volume)
}
