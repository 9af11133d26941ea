// The runs of a file.
ghost use Rattle.std.specs.Prelude.{◌≡◌, ◌≤◌, ◌<◌, ◌+◌, ◌*◌, All, OnOk, IfOk, IfErr, map, length};
ghost use Rattle.std.specs.List.{range_with_len};
ghost use Rattle.disk_trait.specs.Past.{Told};
ghost use Rattle.lilo_model.specs.Checks.{with_fault};
ghost use Rattle.lilo_model.specs.MinixLayout.{reach};
ghost use Rattle.lilo_model.specs.MinixParts.{parts_of, blocks_for};
ghost use Rattle.lilo_model.specs.MinixFind.{Zone};
ghost use Rattle.lilo_model.specs.Planned.{sector_in_zone};
ghost use Rattle.minix_layout.specs.View.{kind_view, inode_view};
ghost use Rattle.minix_zones.specs.Held.{AreHeld};
ghost use Rattle.minix_zones.specs.View.{span_view, zone_number, IsZoneAt};
ghost use Rattle.minix_zones.specs.Volume.{volume_view, past_of, faults_of, SameVolume};
ghost use Rattle.minix_tree.specs.View.{Gives, HasFileCause};
ghost use Rattle.slot_lists.specs.Runs.{IsRun, run_count, run_places, places_in};
ghost use Rattle.file_runs.specs.Needed.{AreJoined, runs_needed};
ghost use Rattle.file_runs.specs.Places.{file_places, places_with_block, sectors_in_block};

use crate::list::add_run;
use disk_trait::Disks;
use minix_layout::{Inode, where_zone};
use minix_tree::TreeFault;
use minix_zones::{HeldZones, Volume, ZoneAt};
use slot_lists::{Run, RunList};
use std::alloc::Global;

/// Where the sectors of an inode's file lie, in as few runs as there can be. Each block is looked up once, and each
/// indirect zone read once.
///
/// # Errors
///
/// `Zone` where a zone's number on the way to a block is refused or the disk failed, and `Memory`.
pub fn runs_of<D: Disks>(
    alloc: Global,
    volume: &mut Volume<'_, D>,
    inode: &Inode,
) -> Result<RunList, TreeFault>
    requires { blocks_for inode.now.size ≤ reach (kind_view volume.old.layout.kind) }

    // What is answered.
    ensures places { Told (past_of volume.old) (λ now. Gives (λ runs. places_in runs) result (with_fault Zone
        (file_places (volume_view volume.old) (parts_of (volume_view volume.old) now) (inode_view inode.now)))) }
    ensures least { IfOk result (λ runs. length runs ≡ runs_needed (places_in runs)) }
    ensures few { IfOk result (λ runs. length (places_in runs) ≤ 2 * blocks_for inode.now.size) }
    ensures runs { volume.old.span.disk ≤ 3 → IfOk result (λ runs. All IsRun runs) }

    // When it is refused.
    ensures cause { IfErr result (HasFileCause (faults_of volume.old) (faults_of volume.new)) }
    ensures later { faults_of volume.old ≤ faults_of volume.new }
    ensures same { SameVolume volume.old volume.new }
{
    let mut held = HeldZones::of(volume);
    let mut runs = Vec::new(alloc);
    for index in 0..blocks_for(inode.size) {
        add_block(&mut held, volume, inode, index, &mut runs)?;
    }
    Ok(RunList::new(runs))
}

// How many blocks a file has.
fn blocks_for(size: u32) -> u32
    ensures { result ≡ blocks_for size }
{
    size.div_ceil(1024)
}

// How many sectors of a file its block with an index has.
fn sectors_in_block(size: u32, index: u32) -> u32
    ensures { result ≡ sectors_in_block size index }
{
    let left = size.div_ceil(512).saturating_sub(index.saturating_mul(2));
    left.min(2)
}

// The run of the first sectors of a block, of which a zone has two.
#[tactic(auto, using(minix_zones::proofs::ZoneLemmas::zones_fit))]
fn block_run<D: Disks>(volume: &Volume<'_, D>, zone: ZoneAt, count: u32) -> Run
    requires zone { IsZoneAt volume.now.layout zone }
    requires count { count ≤ 2 }
    ensures places { run_places result
        ≡ map (sector_in_zone (span_view volume.now.span) (zone_number zone)) (range_with_len 0 count) }
    ensures count { run_count result ≡ count }
    ensures run { volume.now.span.disk ≤ 3 → IsRun result }
{
    let span = volume.span();
    match zone {
        ZoneAt::Hole => Run::Hole { count },
        ZoneAt::Zone(zone) => Run::Stretch {
            disk: span.disk,
            start: span.start + where_zone(zone),
            count,
        },
    }
}

// Adds the sectors of a block to the runs of those before it.
fn add_block<D: Disks>(
    held: &mut HeldZones,
    volume: &mut Volume<'_, D>,
    inode: &Inode,
    index: u32,
    runs: &mut Vec<Run>,
) -> Result<(), TreeFault>
    requires index { index < blocks_for inode.now.size }
    requires reached { index < reach (kind_view volume.old.layout.kind) }
    requires held { AreHeld volume.old held.old }
    requires room { length (places_in runs.old.items) ≤ 2 * index }

    // What is added, and held.
    ensures places { Told (past_of volume.old) (λ now. Gives (λ _. places_in runs.new.items) result (with_fault Zone
        (places_with_block (volume_view volume.old) (parts_of (volume_view volume.old) now) (inode_view inode.now)
        index (places_in runs.old.items)))) }
    ensures long { OnOk result (length (places_in runs.new.items) ≤ 2 * (index + 1)) }
    ensures joined { AreJoined runs.old.items → OnOk result (AreJoined runs.new.items) }
    ensures runs { volume.old.span.disk ≤ 3 → All IsRun runs.old.items → OnOk result (All IsRun runs.new.items) }
    ensures held { AreHeld volume.new held.new }

    // When it is refused.
    ensures cause { IfErr result (HasFileCause (faults_of volume.old) (faults_of volume.new)) }
    ensures later { faults_of volume.old ≤ faults_of volume.new }
    ensures same { SameVolume volume.old volume.new }
{
    let zone = held.zone_at(volume, inode, index)?;
    let run = block_run(volume, zone, sectors_in_block(inode.size, index));
    add_run(runs, run)?;
    Ok(())
}
