// What an installation begins with.
ghost use Rattle.std.specs.Prelude.{◌≡◌, ◌≤◌, ◌<◌, List, ℕ, Some, option_map, IfOk, IfErr, IsTrue};
ghost use Rattle.disk_trait.specs.Calls.{SameOf};
ghost use Rattle.lilo_model.specs.ConfLawful.{IsLawful};
ghost use Rattle.lilo_model.specs.Devices.{IsDevice};
ghost use Rattle.lilo_model.specs.VolumeSearch.{volume_place};
ghost use Rattle.sector_address.specs.Machine.{OnDisks};
ghost use Rattle.mbr_table.specs.View.{device_view, span_view};
ghost use Rattle.minix_search.specs.View.{HasRoom, located_view};
ghost use Rattle.lilo_conf.specs.View.{config_view};
ghost use Rattle.install_begin.specs.Begin.{begun_at, begun_on, named_by, named_conf, named_in, placed_by};
ghost use Rattle.install_begin.specs.View.{named_view, GivesBegun, GivesLocated, GivesNamed, HasBeginCause};

use crate::fault::BeginFault;
use conf_file::{FileFault, read_conf_file};
use disk_trait::{Disks, Span};
use lilo_conf::{Config, parse};
use mbr_table::{Device, place_of};
use minix_search::{Located, VolumeFault, find_volume};
use std::alloc::Global;

/// What an installation begins with.
#[derive(Drop)]
pub struct Begun {
    /// Where the volume lies.
    pub volume: Span,
    /// The configuration, with the boot device in it.
    pub config: Config,
    /// The boot device.
    pub device: Device,
    /// Where that lies.
    pub boot: Span,
}

/// Reads what an installation begins with: the volume of a part, which is that of the device `root`, where one is
/// given, else the first that is found; the configuration in the file of a path on it; and where its boot device lies,
/// which is the volume's where it names none. The superblock is judged as the file is read.
///
/// # Errors
///
/// In this order: there is no volume, its superblock is refused, the path is, the text is, the boot device isn't found.
/// A disk that failed is reported where it failed, and out of memory where the file or the text is read.
pub fn begin<D: Disks>(
    alloc: Global,
    disks: &mut D,
    root: Option<Device>,
    path: &[u8],
) -> Result<Begun, BeginFault>
    // What is read.
    ensures begun { OnDisks D.Disks disks.old (λ now machine.
        GivesBegun path.now result (begun_at now machine (option_map device_view root) path.now)) }
    ensures room { IfOk result (λ begun. HasRoom (D.size_of disks.old begun.volume.disk) begun.volume) }
    ensures boot { IfOk result (λ begun. begun.boot.start < D.size_of disks.old begun.boot.disk) }
    ensures device { IfOk result (λ begun. begun.config.boot ≡ Some begun.device) }
    ensures lawful { IfOk result (λ begun. IsLawful (config_view begun.config)) }

    // When it is refused.
    ensures cause { IfErr result (HasBeginCause (D.faults disks.old) (D.faults disks.new)) }
    ensures later { D.faults disks.old ≤ D.faults disks.new }

    // Nothing else happens.
    ensures same { SameOf D.Disks disks.old disks.new }
{
    match find_place(disks, root) {
        Ok(place) => begin_on(alloc, disks, root, path, place),
        Err(fault) => Err(fault),
    }
}

// Where the volume lies.
fn find_place<D: Disks>(disks: &mut D, root: Option<Device>) -> Result<Located, BeginFault>
    ensures place { (path : List ℕ) → OnDisks D.Disks disks.old (λ now machine.
        GivesLocated path result (volume_place now machine (option_map device_view root))) }
    ensures room { IfOk result (λ place. HasRoom (D.size_of disks.old place.span.disk) place.span) }
    ensures cause { IfErr result (HasBeginCause (D.faults disks.old) (D.faults disks.new)) }
    ensures later { D.faults disks.old ≤ D.faults disks.new }
    ensures same { SameOf D.Disks disks.old disks.new }
{
    match find_volume(disks, root) {
        Ok(place) => Ok(place),
        Err(VolumeFault::NoVolume) => Err(BeginFault::File(FileFault::NoVolume)),
        Err(VolumeFault::Place(fault)) => Err(BeginFault::File(FileFault::Place(fault))),
    }
}

// The same, where the volume lies here.
fn begin_on<D: Disks>(
    alloc: Global,
    disks: &mut D,
    root: Option<Device>,
    path: &[u8],
    place: Located,
) -> Result<Begun, BeginFault>
    requires { HasRoom (D.size_of disks.old place.span.disk) place.span }
    ensures begun { OnDisks D.Disks disks.old (λ now machine. GivesBegun path.now result
        (begun_on now machine (option_map device_view root) path.now (located_view place))) }
    ensures room { IfOk result (λ begun. HasRoom (D.size_of disks.old begun.volume.disk) begun.volume) }
    ensures boot { IfOk result (λ begun. begun.boot.start < D.size_of disks.old begun.boot.disk) }
    ensures device { IfOk result (λ begun. begun.config.boot ≡ Some begun.device) }
    ensures lawful { IfOk result (λ begun. IsLawful (config_view begun.config)) }
    ensures cause { IfErr result (HasBeginCause (D.faults disks.old) (D.faults disks.new)) }
    ensures later { D.faults disks.old ≤ D.faults disks.new }
    ensures same { SameOf D.Disks disks.old disks.new }
{
    match read_named(alloc, disks, root, path) {
        Ok((config, device)) => place_boot(disks, place.span, config, device),
        Err(fault) => Err(fault),
    }
}

// The same by a configuration with its boot device.
fn place_boot<D: Disks>(
    disks: &mut D,
    volume: Span,
    config: Config,
    device: Device,
) -> Result<Begun, BeginFault>
    requires room { HasRoom (D.size_of disks.old volume.disk) volume }
    requires device { config.boot ≡ Some device }
    requires lawful { IsLawful (config_view config) }
    ensures begun { (path : List ℕ) → OnDisks D.Disks disks.old (λ now machine.
        GivesBegun path result (placed_by now machine (span_view volume) (named_view config device))) }
    ensures room { IfOk result (λ begun. HasRoom (D.size_of disks.old begun.volume.disk) begun.volume) }
    ensures boot { IfOk result (λ begun. begun.boot.start < D.size_of disks.old begun.boot.disk) }
    ensures device { IfOk result (λ begun. begun.config.boot ≡ Some begun.device) }
    ensures lawful { IfOk result (λ begun. IsLawful (config_view begun.config)) }
    ensures cause { IfErr result (HasBeginCause (D.faults disks.old) (D.faults disks.new)) }
    ensures later { D.faults disks.old ≤ D.faults disks.new }
    ensures same { SameOf D.Disks disks.old disks.new }
{
    match place_of(disks, device) {
        Ok(boot) => Ok(Begun {
            volume,
            config,
            device,
            boot,
        }),
        Err(fault) => Err(BeginFault::File(FileFault::Place(fault))),
    }
}

// The configuration of a part, with its boot device.
fn read_named<D: Disks>(
    alloc: Global,
    disks: &mut D,
    root: Option<Device>,
    path: &[u8],
) -> Result<(Config, Device), BeginFault>
    ensures named { OnDisks D.Disks disks.old (λ now machine.
        GivesNamed path.now result (named_conf now machine (option_map device_view root) path.now)) }
    ensures device { IfOk result (λ named. named.0.boot ≡ Some named.1) }
    ensures lawful { IfOk result (λ named. IsLawful (config_view named.0)) }
    ensures cause { IfErr result (HasBeginCause (D.faults disks.old) (D.faults disks.new)) }
    ensures later { D.faults disks.old ≤ D.faults disks.new }
    ensures same { SameOf D.Disks disks.old disks.new }
{
    match read_conf_file(alloc, disks, root, path) {
        Ok(file) => named_text(alloc, file.text.bytes(), file.device),
        Err(fault) => Err(BeginFault::File(fault)),
    }
}

// The configuration of a text, with its boot device.
fn named_text(alloc: Global, text: &[u8], device: Device) -> Result<(Config, Device), BeginFault>
    ensures named { (path : List ℕ) → GivesNamed path result (named_in text.now (device_view device)) }
    ensures device { IfOk result (λ named. named.0.boot ≡ Some named.1) }
    ensures lawful { IfOk result (λ named. IsLawful (config_view named.0)) }
    ensures cause { (before now : ℕ) → IfErr result (HasBeginCause before now) }
{
    match parse(alloc, text) {
        Ok(config) => named_by(config, device),
        Err(fault) => Err(BeginFault::Text(fault)),
    }
}

// A configuration, with the volume's device in it where it names none to boot. Each device that is named or searched
// has a name; one without would be reported as memory that didn't suffice.
fn named_by(config: Config, device: Device) -> Result<(Config, Device), BeginFault>
    requires { IsLawful (config_view config) }
    ensures named { IfOk result (λ named. named_view named.0 named.1
        ≡ named_by (config_view config) (device_view device)) }
    ensures device { IfOk result (λ named. named.0.boot ≡ Some named.1) }
    ensures lawful { IfOk result (λ named. IsLawful (config_view named.0)) }
    ensures memory { IfErr result (λ fault. fault ≡ BeginFault.File FileFault.Memory) }
{
    let boot = config.boot.unwrap_or(device);
    if !has_name(boot) {
        return Err(BeginFault::File(FileFault::Memory));
    }
    let mut config = config;
    config.boot = Some(boot);
    Ok((config, boot))
}

// Whether a device has a name.
#[tactic(auto, unfolding(lilo_model::specs::Devices::last_partition))]
fn has_name(device: Device) -> bool
    ensures { IsTrue result → IsDevice (device_view device) }
{
    device.disk <= 3 && device.partition <= if device.disk <= 1 { 63 } else { 15 }
}
