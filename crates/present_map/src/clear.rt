// Whether the present map is Clear.
ghost use Rattle.std.specs.Prelude.{◌≡◌, ℕ, ◌+◌, ◌*◌, ◌<◌, ◌≤◌, ◌^◌, ◌||◌, ◌&&◌, not, List, Result, IfOk, IfErr, IsErr};
ghost use Rattle.disk_trait.specs.Past.{Told};
ghost use Rattle.lilo_model.specs.Disks.{Span as SpanOf};
ghost use Rattle.lilo_model.specs.Faults.{Rose};
ghost use Rattle.lilo_model.specs.MinixFind as finds;
ghost use Rattle.lilo_model.specs.MinixLayout.{table_start, table_blocks};
ghost use Rattle.lilo_model.specs.MinixParts.{parts_of, is_directory};
ghost use Rattle.lilo_model.specs.MinixSurvey.{Met};
ghost use Rattle.minix_steps.specs.Numbers.{has_number};
ghost use Rattle.minix_layout.specs.View.{super_view};
ghost use Rattle.minix_survey.specs.Findings.{indirect_in};
ghost use Rattle.minix_tree.specs.View.{Refuses, HasTreeCause};
ghost use Rattle.minix_zones.specs.Volume.{volume_view, past_of, faults_of, SameVolume, HasDeviceCause};
ghost use Rattle.sector_address.specs.Machine.{OnDisks};
ghost use Rattle.install_laws.specs.InstallVerdict.{is_plain_sector, is_clear};
ghost use Rattle.present_map.specs.Clear.{IsFound, IsThere, clear_answer};
ghost use Rattle.present_map.specs.Old.{IsOldMap};

use crate::old_map::{OldMap, OldMapFault};
use disk_trait::Disks;
use minix_layout::Super;
use minix_survey::Findings;
use minix_tree::{TreeFault, is_directory, stat_of};
use minix_zones::{Volume, ZoneFault};

/// Whether no sector that a boot of the present map may look at lies in the superblock, the bitmaps, the inode table,
/// a zone of a directory or one with numbers of zones, by what a survey of the volume found; `None` where the boot
/// sector is of another system. The inode of each file with such a zone is read, once for each of its zones.
///
/// # Errors
///
/// `Device` alone.
pub fn is_clear<D: Disks>(
    volume: &mut Volume<'_, D>,
    old: &OldMap,
    findings: &Findings,
) -> Result<Option<bool>, OldMapFault>
    ensures clear { OnDisks D.Disks volume.old.disks.now (λ now machine. (boot : SpanOf) (met : List Met)
        → IsOldMap (volume_view volume.old) now machine boot old.now
        → IsFound (volume_view volume.old) now findings.now met
        → IfOk result (λ clear. clear
        ≡ clear_answer old.now.foreign (is_clear (volume_view volume.old) now met machine boot))) }
    ensures device { HasDeviceCause volume.old volume.new OldMapFault.Device result }
    ensures later { faults_of volume.old ≤ faults_of volume.new }
    ensures same { SameVolume volume.old volume.new }
{
    if old.is_foreign() {
        return Ok(None);
    }
    for zone in 0..volume.layout().zones {
        if !is_clear_zone(volume, old, findings, zone)? {
            return Ok(Some(false));
        }
    }
    Ok(Some(true))
}

// Whether no sector of a zone is looked at, or the zone is plain.
fn is_clear_zone<D: Disks>(
    volume: &mut Volume<'_, D>,
    old: &OldMap,
    findings: &Findings,
    zone: u32,
) -> Result<bool, OldMapFault>
    ensures clear { Told (past_of volume.old) (λ now. (met : List Met)
        → IsFound (volume_view volume.old) now findings.now met
        → IfOk result (λ clear. clear ≡ (not (has_number old.now.met.zones zone)
        || is_plain_sector (volume_view volume.old) (parts_of (volume_view volume.old) now) met (2 * zone)))) }
    ensures device { HasDeviceCause volume.old volume.new OldMapFault.Device result }
    ensures later { faults_of volume.old ≤ faults_of volume.new }
    ensures same { SameVolume volume.old volume.new }
{
    if old.has_zone(zone) {
        is_plain(volume, findings, zone)
    } else {
        Ok(true)
    }
}

// Whether a zone is outside the tables, no directory's, and without numbers of zones.
fn is_plain<D: Disks>(
    volume: &mut Volume<'_, D>,
    findings: &Findings,
    zone: u32,
) -> Result<bool, OldMapFault>
    ensures plain { Told (past_of volume.old) (λ now. (met : List Met)
        → IsFound (volume_view volume.old) now findings.now met
        → IfOk result (λ plain. plain
        ≡ is_plain_sector (volume_view volume.old) (parts_of (volume_view volume.old) now) met (2 * zone))) }
    ensures device { HasDeviceCause volume.old volume.new OldMapFault.Device result }
    ensures later { faults_of volume.old ≤ faults_of volume.new }
    ensures same { SameVolume volume.old volume.new }
{
    if zone >= 1 && zone < table_end(volume.layout()) {
        return Ok(false);
    }
    match findings.owner(zone) {
        None => Ok(true),
        Some(number) => is_plain_of(volume, findings, zone, number),
    }
}

// Whether a zone that an inode owns is no directory's, and without numbers of zones.
fn is_plain_of<D: Disks>(
    volume: &mut Volume<'_, D>,
    findings: &Findings,
    zone: u32,
    number: u32,
) -> Result<bool, OldMapFault>
    ensures plain { Told (past_of volume.old) (λ now.
        IsThere (super_view volume.old.layout) (parts_of (volume_view volume.old) now) number
        → IfOk result (λ plain. plain ≡ (not (is_directory ((parts_of (volume_view volume.old) now).node number))
        && not (indirect_in findings.now zone)))) }
    ensures device { HasDeviceCause volume.old volume.new OldMapFault.Device result }
    ensures later { faults_of volume.old ≤ faults_of volume.new }
    ensures same { SameVolume volume.old volume.new }
{
    if findings.indirect(zone) {
        return Ok(false);
    }
    is_no_directory(volume, number)
}

// Whether an inode is no directory. One that isn't there, or has no size that is read, isn't asked for.
fn is_no_directory<D: Disks>(volume: &mut Volume<'_, D>, number: u32) -> Result<bool, OldMapFault>
    ensures plain { Told (past_of volume.old) (λ now.
        IsThere (super_view volume.old.layout) (parts_of (volume_view volume.old) now) number
        → IfOk result (λ plain. plain ≡ not (is_directory ((parts_of (volume_view volume.old) now).node number)))) }
    ensures device { HasDeviceCause volume.old volume.new OldMapFault.Device result }
    ensures later { faults_of volume.old ≤ faults_of volume.new }
    ensures same { SameVolume volume.old volume.new }
{
    if number == 0 || number > volume.layout().inodes {
        return Ok(true);
    }
    match stat_of(volume, number) {
        Ok(stat) => Ok(!is_directory(&stat.node)),
        Err(fault) => refused(fault),
    }
}

// The answer where an inode that is there isn't read: the disk failed.
fn refused(fault: TreeFault) -> Result<bool, OldMapFault>
    ensures device { (before now : ℕ) → HasTreeCause before now fault
        → IfErr result (λ other. (other ≡ OldMapFault.Device) × Rose before now) }
    ensures refused { (before now : ℕ) (found : Result ℕ finds.TreeFault)
        → HasTreeCause before now fault → Refuses fault found
        → IfOk result (λ plain. IsErr found) }
{
    match fault {
        TreeFault::Zone(ZoneFault::Device) => Err(OldMapFault::Device),
        TreeFault::Zone(ZoneFault::Layout(_) | ZoneFault::ZoneOutside(_))
        | TreeFault::NotFound(_)
        | TreeFault::NotDirectory(_)
        | TreeFault::NotFile
        | TreeFault::TooManyLinks
        | TreeFault::BadEntry(_)
        | TreeFault::PathTooLong
        | TreeFault::Memory => Ok(true),
    }
}

// The block after the table of inodes.
fn table_end(layout: &Super) -> u32
    requires { (layout.now.inodes < 2 ^ 16) × (layout.now.imap < 2 ^ 16) × (layout.now.zmap < 2 ^ 16) }
    ensures { result ≡ table_start (super_view layout.now) + table_blocks (super_view layout.now) }
{
    let table_bytes = layout.inodes * u32::from(layout.kind.inode_size());
    2 + layout.imap + layout.zmap + table_bytes.div_ceil(1024)
}
