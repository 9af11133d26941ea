// Devices that lie apart from a volume.
ghost use Rattle.std.specs.Prelude.{◌≡◌, ◌≤◌, IfErr};
ghost use Rattle.std.specs.Option.{option_map};
ghost use Rattle.disk_trait.specs.Past.{Told};
ghost use Rattle.lilo_model.specs.Apart.{is_apart_span, is_apart_device};
ghost use Rattle.lilo_model.specs.Checks.{require};
ghost use Rattle.lilo_model.specs.PlanRefusal.{each_passes};
ghost use Rattle.conf_settings.specs.View.{opt_view};
ghost use Rattle.lilo_conf.specs.View.{config_view, section_view, sections_view};
ghost use Rattle.mbr_table.specs.View.{device_view, span_view};
ghost use Rattle.minix_zones.specs.Volume.{volume_view, past_of, faults_of, SameVolume};
ghost use Rattle.install_apart.specs.Apart.{
  GivesApart,
  HasApartCause,
  machine_by,
  unless_failed,
  part_device,
  device_option,
  device_check,
  device_checks,
};

use crate::fault::{ApartFault, judged};
use conf_settings::Opt;
use disk_trait::{Disks, Span};
use lilo_conf::{Config, Section};
use mbr_table::{Device, TableFault, place_of};
use minix_zones::Volume;

/// Devices of a section.
#[derive(Clone, Copy, Debug, PartialEq, Eq)]
enum DevicePart {
    /// The one of another system.
    Other,
    /// The one whose partition table it is given.
    Table,
}

// Whether a span's first sector isn't one of a volume's past its block 0.
fn is_apart_span<D: Disks>(volume: &Volume<'_, D>, span: Span) -> bool
    ensures { result ≡ is_apart_span (volume_view volume.now) (span_view span) }
{
    let own = volume.span();
    span.disk != own.disk
        || span.start < own.start
        || span.start - own.start < 2
        || span.start - own.start >= own.count
}

// A device without a place is apart, unless the disk failed.
fn unless_failed(fault: TableFault) -> Result<(), ApartFault>
    ensures { result ≡ unless_failed fault }
{
    match fault {
        TableFault::Device => Err(ApartFault::Device),
        _ => Ok(()),
    }
}

// Whether a device's first sector isn't one of the volume's past its block 0; one without a place is refused elsewhere.
fn check_device<D: Disks>(
    volume: &mut Volume<'_, D>,
    device: Device,
    option: Opt,
) -> Result<(), ApartFault>
    ensures apart { Told (past_of volume.old) (λ now. GivesApart result
        (require (is_apart_device now (machine_by volume.old) (volume_view volume.old) (device_view device))
        (opt_view option))) }
    ensures cause { IfErr result (HasApartCause (faults_of volume.old) (faults_of volume.new)) }
    ensures later { faults_of volume.old ≤ faults_of volume.new }
    ensures same { SameVolume volume.old volume.new }
{
    match volume.ask_disks(|disks| place_of(disks, device)) {
        Ok(span) => judged(is_apart_span(volume, span), option),
        Err(fault) => unless_failed(fault),
    }
}

// The device that a part names, if it is there.
fn device_of(section: &Section, part: DevicePart) -> Option<Device>
    ensures { option_map device_view result ≡ part_device part (section_view section.now) }
{
    match part {
        DevicePart::Other => section.other,
        DevicePart::Table => section.table,
    }
}

// The option that names it.
fn option_of(part: DevicePart) -> Opt
    ensures { opt_view result ≡ device_option part }
{
    match part {
        DevicePart::Other => Opt::OtherDevice,
        DevicePart::Table => Opt::Table,
    }
}

// Whether the device that a section names is apart, if there is one.
fn check_part<D: Disks>(
    volume: &mut Volume<'_, D>,
    section: &Section,
    part: DevicePart,
) -> Result<(), ApartFault>
    ensures apart { Told (past_of volume.old) (λ now. GivesApart result
        (device_check now (machine_by volume.old) (volume_view volume.old) part (section_view section.now))) }
    ensures cause { IfErr result (HasApartCause (faults_of volume.old) (faults_of volume.new)) }
    ensures later { faults_of volume.old ≤ faults_of volume.new }
    ensures same { SameVolume volume.old volume.new }
{
    match device_of(section, part) {
        Some(device) => check_device(volume, device, option_of(part)),
        None => Ok(()),
    }
}

// The same of several sections.
fn check_parts<D: Disks>(
    volume: &mut Volume<'_, D>,
    sections: &[Section],
    part: DevicePart,
) -> Result<(), ApartFault>
    ensures apart { Told (past_of volume.old) (λ now. GivesApart result
        (each_passes (device_check now (machine_by volume.old) (volume_view volume.old) part)
        (sections_view sections.now))) }
    ensures cause { IfErr result (HasApartCause (faults_of volume.old) (faults_of volume.new)) }
    ensures later { faults_of volume.old ≤ faults_of volume.new }
    ensures same { SameVolume volume.old volume.new }
{
    for section in sections {
        check_part(volume, section, part)?;
    }
    Ok(())
}

/// Whether the first sectors of the devices that a configuration names, and of the one that is to boot, are none of a
/// volume's past its block 0: what `check_apart` tests first. Takes no memory.
///
/// # Errors
///
/// `NotApart` with the first option that isn't apart, in the order boot, other, table; `Device`.
pub fn check_devices<D: Disks>(
    volume: &mut Volume<'_, D>,
    config: &Config,
    boot: Device,
) -> Result<(), ApartFault>
    ensures apart { Told (past_of volume.old) (λ now. GivesApart result
        (device_checks now (machine_by volume.old) (volume_view volume.old) (config_view config.now)
        (device_view boot))) }
    ensures cause { IfErr result (HasApartCause (faults_of volume.old) (faults_of volume.new)) }
    ensures later { faults_of volume.old ≤ faults_of volume.new }
    ensures same { SameVolume volume.old volume.new }
{
    check_device(volume, boot, Opt::Boot)?;
    check_parts(volume, config.sections.items(), DevicePart::Other)?;
    check_parts(volume, config.sections.items(), DevicePart::Table)
}
