// The backup of a device's boot sector, on the volume of a run.
ghost use Rattle.std.specs.Prelude.{◌≡◌, ◌≤◌, ◌<◌, true, option_map, IfErr};
ghost use Rattle.disk_trait.specs.Past.{Told};
ghost use Rattle.disk_trait.specs.Calls.{SameOf};
ghost use Rattle.sector_address.specs.Machine.{OnDisks};
ghost use Rattle.lilo_model.specs.Bytes.{hex_digit};
ghost use Rattle.lilo_model.specs.Checks.{with_fault};
ghost use Rattle.lilo_model.specs.MinixFind.{file_block};
ghost use Rattle.lilo_model.specs.MinixParts.{parts_of};
ghost use Rattle.lilo_model.specs.NamePlaces.{default_backup};
ghost use Rattle.mbr_table.specs.View.{device_view, span_view};
ghost use Rattle.minix_layout.specs.View.{super_view, inode_view};
ghost use Rattle.minix_zones.specs.Volume.{volume_view, past_of, faults_of, SameVolume};
ghost use Rattle.minix_search.specs.View.{HasRoom};
ghost use Rattle.boot_backup.specs.Restore.{backup_refusal, is_backup, backup_at, backup_on, backup_of};
ghost use Rattle.boot_backup.specs.View.{Gives, HasCause, IsTreeFault};

use crate::restore_fault::RestoreFault;
use disk_trait::{Disks, Phase, Span};
use mbr_table::{Device, TableFault, number_of};
use minix_layout::Inode;
use minix_search::{VolumeFault, find_volume};
use minix_tree::{Stat, TreeFault, is_file, lookup, read_block};
use minix_zones::{Volume, ZoneFault};
use sector_parts::{Sector, half};

/// Reads the backup of a device's boot sector on the volume of a run.
#[tactic(auto, unfolding(crate::specs::Restore::backup_of))]
pub(crate) fn read_backup<D: Disks>(
    disks: &mut D,
    root: Option<Device>,
    device: Device,
) -> Result<Sector, RestoreFault>
    ensures backup { OnDisks D.Disks disks.old (λ now machine. Gives result
        (backup_of now machine (option_map device_view root) (default_backup (device_view device)))) }
    ensures cause { IfErr result (HasCause (D.faults disks.old) (D.faults disks.new)) }
    ensures later { D.faults disks.old ≤ D.faults disks.new }
    ensures same { SameOf D.Disks disks.old disks.new }
{
    match find_volume(disks, root) {
        Ok(place) => backup_on(disks, place.span, &backup_path(device)),
        Err(VolumeFault::NoVolume) => Err(RestoreFault::NoVolume),
        Err(VolumeFault::Place(TableFault::Device)) => Err(RestoreFault::Device(Phase::Before)),
        Err(VolumeFault::Place(fault)) => Err(RestoreFault::Place(fault)),
    }
}

// The path of a device's backup: its number in four hexadecimal digits.
#[tactic(auto, unfolding(lilo_model::specs::NamePlaces::default_backup))]
fn backup_path(device: Device) -> [u8; 15]
    ensures { result ≡ default_backup (device_view device) }
{
    let number = number_of(device);
    let high = (number / 256) as u8;
    let low = (number % 256) as u8;
    [
        b'/',
        b'b',
        b'o',
        b'o',
        b't',
        b'/',
        b'b',
        b'o',
        b'o',
        b't',
        b'.',
        hex_digit(high / 16),
        hex_digit(high % 16),
        hex_digit(low / 16),
        hex_digit(low % 16),
    ]
}

// A digit of 0 to 15.
fn hex_digit(digit: u8) -> u8
    requires { digit < 16 }
    ensures { result ≡ hex_digit digit }
{
    if digit <= 9 {
        digit + b'0'
    } else {
        digit + (b'a' - 10)
    }
}

// The backup at a path on the volume that lies here.
#[tactic(auto, unfolding(crate::specs::Restore::backup_on))]
fn backup_on<D: Disks>(disks: &mut D, span: Span, path: &[u8]) -> Result<Sector, RestoreFault>
    requires { HasRoom (D.size_of disks.old span.disk) span }
    ensures backup { Told (D.past disks.old) (λ now. Gives result (backup_on now (span_view span) path.now)) }
    ensures cause { IfErr result (HasCause (D.faults disks.old) (D.faults disks.new)) }
    ensures later { D.faults disks.old ≤ D.faults disks.new }
    ensures same { SameOf D.Disks disks.old disks.new }
{
    match Volume::attach(disks, span) {
        Ok(mut volume) => backup_at(&mut volume, path),
        Err((_disks, ZoneFault::Device)) => Err(RestoreFault::Device(Phase::Before)),
        Err((_disks, _)) => Err(RestoreFault::Layout),
    }
}

// The backup at a path in a volume.
#[tactic(auto, unfolding(crate::specs::Restore::backup_at))]
fn backup_at<D: Disks>(volume: &mut Volume<'_, D>, path: &[u8]) -> Result<Sector, RestoreFault>
    ensures backup { Told (past_of volume.old) (λ now. Gives result
        (backup_at (super_view volume.old.layout) (parts_of (volume_view volume.old) now) path.now)) }
    ensures cause { IfErr result (HasCause (faults_of volume.old) (faults_of volume.new)) }
    ensures later { faults_of volume.old ≤ faults_of volume.new }
    ensures same { SameVolume volume.old volume.new }
{
    match lookup(volume, path) {
        Ok(stat) => {
            if !is_backup(&stat.node) {
                return Err(RestoreFault::NotOurs);
            }
            only_sector(volume, &stat)
        }
        Err(fault) => Err(tree_fault(&fault)),
    }
}

// The bytes of a backup, which lie in its first block.
#[tactic(auto, using(crate::proofs::RestoreLemmas::sector_in_block))]
fn only_sector<D: Disks>(volume: &mut Volume<'_, D>, stat: &Stat) -> Result<Sector, RestoreFault>
    requires { is_backup (inode_view stat.now.node) ≡ true }
    ensures backup { Told (past_of volume.old) (λ now. Gives result (with_fault backup_refusal
        (file_block (super_view volume.old.layout) (parts_of (volume_view volume.old) now)
        (inode_view stat.now.node) 0))) }
    ensures cause { IfErr result (HasCause (faults_of volume.old) (faults_of volume.new)) }
    ensures later { faults_of volume.old ≤ faults_of volume.new }
    ensures same { SameVolume volume.old volume.new }
{
    let mut block = [0; 1024];
    match read_block(volume, stat, 0, &mut block) {
        Ok(_) => Ok(*half(&block, false)),
        Err(fault) => Err(tree_fault(&fault)),
    }
}

// Whether an inode is a backup's.
fn is_backup(inode: &Inode) -> bool
    ensures { result ≡ is_backup (inode_view inode.now) }
{
    is_file(inode) && inode.size == 512
}

// How a refusal of the backup's path is reported.
fn tree_fault(fault: &TreeFault) -> RestoreFault
    ensures { IsTreeFault fault.now result }
{
    match fault {
        TreeFault::Zone(ZoneFault::Device) => RestoreFault::Device(Phase::Before),
        TreeFault::Zone(_) => RestoreFault::Layout,
        TreeFault::NotFound(_)
        | TreeFault::NotDirectory(_)
        | TreeFault::NotFile
        | TreeFault::TooManyLinks
        | TreeFault::BadEntry(_)
        | TreeFault::PathTooLong
        | TreeFault::Memory => RestoreFault::NotOurs,
    }
}
