// A command that reads a device.
ghost use Rattle.std.specs.Prelude.{◌≡◌, ◌≤◌, Err, IfErr};
ghost use Rattle.disk_trait.specs.Past.{Told};
ghost use Rattle.disk_trait.specs.Calls.{SameOf};
ghost use Rattle.sector_address.specs.Machine.{OnDisks};
ghost use Rattle.stream_trait.specs.Shows.{HasFailed};
ghost use Rattle.lilo_model.specs.MinixParts.{parts_of};
ghost use Rattle.lilo_model.specs.LdiskWords.{device_of};
ghost use Rattle.lilo_model.specs.LdiskVerdict.{verdict_on, command_verdict};
ghost use Rattle.minix_layout.specs.View.{super_view};
ghost use Rattle.minix_zones.specs.Volume.{volume_view, past_of, faults_of, SameVolume};
ghost use Rattle.mbr_table.specs.View.{device_view};
ghost use Rattle.ldisk_run.specs.Pieces.{sink_of, held_by};
ghost use Rattle.ldisk_run.specs.Run.{HasCause, IsZoneHalt, Does};
ghost use Rattle.ldisk_run.specs.View.{reading_view};

use crate::get::get;
use crate::halt::{Halt, zone_halt};
use crate::ls::ls;
use crate::pieces::Pieces;
use crate::reading::Reading;
use crate::room::find_room;
use disk_trait::Disks;
use mbr_table::Device;
use minix_zones::{Volume, ZoneFault};
use stream_trait::Sink;

/// Carries out a command that only reads.
#[tactic(auto, unfolding(lilo_model::specs::LdiskVerdict::command_verdict, lilo_model::specs::LdiskVerdict::volume_on))]
pub(crate) fn carry_out<D: Disks, O: Sink>(
    reading: Reading<'_>,
    disks: &mut D,
    out: &mut Pieces<'_, O>,
) -> Result<(), Halt>
    ensures does { OnDisks D.Disks disks.old (λ now machine.
        Does (command_verdict now machine (reading_view reading.entry)) result
        (held_by O.Sink out.old) (held_by O.Sink out.new)) }
    ensures no_disk { D.size_of disks.old 0 ≡ 0 → result ≡ Err Halt.Refused }
    ensures cause { IfErr result (HasCause (D.faults disks.old) (D.faults disks.new)) }
    ensures later { D.faults disks.old ≤ D.faults disks.new }
    ensures same { SameOf D.Disks disks.old disks.new }
    ensures sink { HasFailed (sink_of O.Sink out.old) (sink_of O.Sink out.new) }
    ensures same_reference { out.new.out.out.ghost_name ≡ out.old.out.out.ghost_name }
{
    let span = find_room(disks, device_of(&reading))?;
    match Volume::attach(disks, span) {
        Ok(mut volume) => carry_out_on(reading, &mut volume, out),
        Err((disks, fault)) => Err(refused(disks, fault)),
    }
}

// How it is reported that there is no volume. The disks are handed back.
fn refused<D: Disks>(disks: &mut D, fault: ZoneFault) -> Halt
    ensures told { IsZoneHalt fault result }
    ensures same { disks.new ≡ disks.old }
{
    zone_halt(fault)
}

/// Carries out a command on a volume.
#[tactic(auto, unfolding(lilo_model::specs::LdiskVerdict::verdict_on))]
fn carry_out_on<D: Disks, O: Sink>(
    reading: Reading<'_>,
    volume: &mut Volume<'_, D>,
    out: &mut Pieces<'_, O>,
) -> Result<(), Halt>
    ensures does { Told (past_of volume.old) (λ now. Does
        (verdict_on (super_view volume.old.layout) (parts_of (volume_view volume.old) now)
        (reading_view reading.entry)) result
        (held_by O.Sink out.old) (held_by O.Sink out.new)) }
    ensures cause { IfErr result (HasCause (faults_of volume.old) (faults_of volume.new)) }
    ensures later { faults_of volume.old ≤ faults_of volume.new }
    ensures same { SameVolume volume.old volume.new }
    ensures sink { HasFailed (sink_of O.Sink out.old) (sink_of O.Sink out.new) }
    ensures same_reference { out.new.out.out.ghost_name ≡ out.old.out.out.ghost_name }
{
    match reading {
        Reading::Get { path, .. } => get(volume, path, out),
        Reading::Ls { path, .. } => ls(volume, path, out),
    }
}

/// The device of a command.
fn device_of(reading: &Reading<'_>) -> Device
    ensures { device_view result ≡ device_of (reading_view reading.now) }
{
    match reading {
        Reading::Get { device, .. } | Reading::Ls { device, .. } => *device,
    }
}
