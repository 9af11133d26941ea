// The text of a configuration.
ghost use Rattle.std.specs.Prelude.{◌≡◌, ◌≤◌, option_map, IfErr, IsErrOf};
ghost use Rattle.disk_trait.specs.Past.{Told};
ghost use Rattle.disk_trait.specs.Calls.{SameOf};
ghost use Rattle.sector_address.specs.Machine.{OnDisks};
ghost use Rattle.lilo_model.specs.Faults.{Rose};
ghost use Rattle.lilo_model.specs.Checks.{with_fault};
ghost use Rattle.lilo_model.specs.ConfVerdict.{conf_file, file_on, path_refusal};
ghost use Rattle.lilo_model.specs.MinixFind.{file_at};
ghost use Rattle.lilo_model.specs.MinixParts.{parts_of};
ghost use Rattle.mbr_table.specs.View.{device_view, span_view};
ghost use Rattle.minix_layout.specs.View.{super_view};
ghost use Rattle.minix_zones.specs.Volume.{volume_view, past_of, faults_of, SameVolume};
ghost use Rattle.minix_search.specs.View.{HasRoom};
ghost use Rattle.minix_tree.specs.File.{LeadsToFile};
ghost use Rattle.conf_file.specs.View.{Gives, GivesText, HasCause, LeadsToFileOn, LeadsToConf};

use crate::file_fault::FileFault;
use conf_text::Text;
use disk_trait::{Disks, Span};
use mbr_table::Device;
use minix_search::{VolumeFault, find_volume};
use minix_tree::read_file;
use minix_zones::{Volume, ZoneFault};
use std::alloc::Global;

/// The file of a configuration.
#[derive(Drop)]
pub struct ConfFile {
    /// The device of the volume that has it.
    pub device: Device,
    /// Its bytes.
    pub text: Text,
}

/// Reads the file of a path on the volume of a run: that of the device `root`, where one is given, else the first that
/// is found.
///
/// # Errors
///
/// In this order: there is no volume, its superblock is refused, the path is. A disk that failed is reported where it
/// failed, and out of memory where a regular file is read.
#[tactic(auto, unfolding(lilo_model::specs::ConfVerdict::conf_file))]
pub fn read_conf_file<D: Disks>(
    alloc: Global,
    disks: &mut D,
    root: Option<Device>,
    path: &[u8],
) -> Result<ConfFile, FileFault>
    // What is read.
    ensures file { OnDisks D.Disks disks.old (λ now machine. Gives path.now result
        (conf_file now machine (option_map device_view root) path.now)) }

    // When it is refused.
    ensures memory { IsErrOf result FileFault.Memory → OnDisks D.Disks disks.old (λ now machine.
        LeadsToConf now machine (option_map device_view root) path.now) }
    ensures cause { IfErr result (HasCause (D.faults disks.old) (D.faults disks.new)) }
    ensures later { D.faults disks.old ≤ D.faults disks.new }

    // Nothing else happens.
    ensures same { SameOf D.Disks disks.old disks.new }
{
    match find_volume(disks, root) {
        Ok(place) => {
            let text = text_on(alloc, disks, place.span, path)?;
            Ok(ConfFile {
                device: place.device,
                text,
            })
        }
        Err(VolumeFault::NoVolume) => Err(FileFault::NoVolume),
        Err(VolumeFault::Place(fault)) => Err(FileFault::Place(fault)),
    }
}

// The bytes of the file of a path on the volume that lies here.
#[tactic(auto, unfolding(lilo_model::specs::ConfVerdict::file_on))]
fn text_on<D: Disks>(
    alloc: Global,
    disks: &mut D,
    span: Span,
    path: &[u8],
) -> Result<Text, FileFault>
    requires { HasRoom (D.size_of disks.old span.disk) span }
    ensures text { Told (D.past disks.old) (λ now. GivesText path.now result (file_on now (span_view span) path.now)) }
    ensures memory { IsErrOf result FileFault.Memory → Told (D.past disks.old) (λ now.
        LeadsToFileOn now (span_view span) path.now) }
    ensures cause { IfErr result (HasCause (D.faults disks.old) (D.faults disks.new)) }
    ensures later { D.faults disks.old ≤ D.faults disks.new }
    ensures same { SameOf D.Disks disks.old disks.new }
{
    match Volume::attach(disks, span) {
        Ok(mut volume) => text_in(alloc, &mut volume, path),
        Err((_disks, ZoneFault::Device)) => Err(FileFault::Device),
        Err((_disks, _)) => Err(FileFault::Layout),
    }
}

// The bytes of the file of a path in a volume.
fn text_in<D: Disks>(
    alloc: Global,
    volume: &mut Volume<'_, D>,
    path: &[u8],
) -> Result<Text, FileFault>
    ensures text { Told (past_of volume.old) (λ now. GivesText path.now result (with_fault (path_refusal path.now)
        (file_at (super_view volume.old.layout) (parts_of (volume_view volume.old) now) path.now))) }
    ensures memory { IsErrOf result FileFault.Memory → Told (past_of volume.old) (λ now.
        LeadsToFile (super_view volume.old.layout) (parts_of (volume_view volume.old) now) path.now) }
    ensures cause { IfErr result (HasCause (faults_of volume.old) (faults_of volume.new)) }
    ensures later { faults_of volume.old ≤ faults_of volume.new }
    ensures same { SameVolume volume.old volume.new }
{
    Ok(read_file(alloc, volume, path)?)
}
