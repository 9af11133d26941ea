// The names in the map of a device.
ghost use Rattle.std.specs.Prelude.{◌≡◌, ◌≤◌, ◌<◌, Err, length, map, All, IfOk, IfSome, IsErrOf, IsTrue};
ghost use Rattle.disk_trait.specs.Past.{Told};
ghost use Rattle.lilo_model.specs.Checks.{with_fault};
ghost use Rattle.lilo_model.specs.BootSector.{boot_at};
ghost use Rattle.lilo_model.specs.Verdict.{map_refusal, table_sectors, names_text, names_behind, name_line, lines_from};
ghost use Rattle.sector_address.specs.View.{slot_view};
ghost use Rattle.lilo_model.specs.Place.{Memory};
ghost use Rattle.sector_address.specs.Machine.{OnDisks};
ghost use Rattle.boot_map.specs.View.{boot_view, table_view};
ghost use Rattle.boot_map.specs.Ranges.{IsNamed, IsOneSector};
ghost use Rattle.mbr_table.specs.View.{device_view};
ghost use Rattle.lilo_run.specs.Run.{Gives, is_plain_status, DoesBeside};
ghost use Rattle.lilo_model.specs.ConfVerdict.{place_at};
ghost use Rattle.lilo_run.specs.Verdict.{early_at, query_effect};
ghost use Rattle.bios_model.specs.Reads.{OnlyReads, ReadsAndShows};

use crate::place::find_device;
use crate::refusal::{Halt, PlaceFault, say};
use arrayvec::ArrayVec;
use bios_model::BiosFault;
use boot_map::{BootSector, MapFault, Table};
use disk_trait::{Disks, Span};
use loader_core::{Reason, Shown};
use mbr_table::Device;
use sector_address::Slot;
use sector_parts::Sector;
use stream_trait::Sink;

/// The names of a map as `-q` prints them, at most 48 lines of 18 bytes.
type Listing = ArrayVec<u8, 1024>;

/// Prints the names in the map of a device, a line each, with ` *` after the default's, and answers the
/// status.
#[tactic(auto, unfolding(crate::specs::Verdict::query_effect, lilo_model::specs::Verdict::query_verdict))]
pub(crate) fn query_device<D: Disks, O: Sink>(
    disks: &mut D,
    device: Device,
    out: &mut Shown<'_, O>,
) -> u8
    ensures does { (memory : Memory) → DoesBeside D.Disks O.Sink disks.old memory result out.old out.new (λ now machine.
        query_effect now machine (place_at now machine (device_view device))) }
    ensures early { IfSome (early_at (D.size_of disks.old) (device_view device)) (λ status. result ≡ status) }
    ensures known { IsTrue (is_plain_status result) }
    ensures only { ReadsAndShows D.Disks O.Sink (disks.old, out.old) (disks.new, out.new) (result ≡ 8) }
{
    match read_listing(disks, device) {
        Ok(text) => {
            out.put(text.as_slice());
            0
        }
        Err(halt) => say(out, halt),
    }
}

/// What `-q` prints of a device.
#[tactic(auto, unfolding(lilo_model::specs::Verdict::names_text))]
fn read_listing<D: Disks>(disks: &mut D, device: Device) -> Result<Listing, Halt>
    ensures names { OnDisks D.Disks disks.old (λ now machine.
        Gives (λ text. text.items) result (names_text now machine (place_at now machine (device_view device)))) }
    ensures no_disk { D.size_of disks.old device.disk ≡ 0 → result ≡ Err (Halt.NoPlace PlaceFault.NoDisk) }
    ensures reads { OnlyReads D.Disks disks.old disks.new (IsErrOf result Halt.Device) }
{
    let span = find_device(disks, device)?;
    let boot = read_boot(disks, &span)?;
    read_names(disks, &boot)
}

/// The boot sector of a device, which is its first sector.
fn read_boot<D: Disks>(disks: &mut D, span: &Span) -> Result<BootSector, Halt>
    requires { span.now.start < D.size_of disks.old span.now.disk }
    ensures boot { Told (D.past disks.old) (λ now.
        Gives boot_view result (with_fault map_refusal (boot_at (now span.now.disk span.now.start)))) }
    ensures table { IfOk result (λ boot. length boot.table.items ≡ 3) }
    ensures slots { IfOk result (λ boot. All IsOneSector boot.table.items) }
    ensures names { IfOk result (λ boot. boot.names ≤ 19) }
    ensures reads { OnlyReads D.Disks disks.old disks.new (IsErrOf result Halt.Device) }
{
    let mut sector = [0; 512];
    if disks.read(span.disk, span.start, &mut sector).is_err() {
        return Err(Halt::Device);
    }
    Ok(BootSector::read(&sector)?)
}

/// The names in the map of a boot sector, a line each.
#[tactic(auto, unfolding(lilo_model::specs::Verdict::names_behind))]
fn read_names<D: Disks>(disks: &mut D, boot: &BootSector) -> Result<Listing, Halt>
    requires table { length boot.now.table.items ≡ 3 }
    requires slots { All IsOneSector boot.now.table.items }
    requires names { boot.now.names ≤ 19 }
    ensures names { OnDisks D.Disks disks.old (λ now machine.
        Gives (λ text. text.items) result (names_behind now machine (boot_view boot.now))) }
    ensures reads { OnlyReads D.Disks disks.old disks.new (IsErrOf result Halt.Device) }
{
    let mut sectors = [[0; 512]; 3];
    read_slots(disks, boot.table.as_slice(), &mut sectors)?;
    let table = Table::read(boot, &sectors)?;
    Ok(listing(boot.default_entry, &table))
}

/// Reads the sectors of a table, in order.
fn read_slots<D: Disks>(disks: &mut D, slots: &[Slot], into: &mut [Sector]) -> Result<(), Halt>
    requires room { length slots.now ≡ length into.old }
    requires slots { All IsOneSector slots.now }
    ensures sectors { OnDisks D.Disks disks.old (λ now machine.
        Gives (λ _. into.new) result (table_sectors now machine (map slot_view slots.now))) }
    ensures reads { OnlyReads D.Disks disks.old disks.new (IsErrOf result Halt.Device) }
{
    match bios_model::read_slots(disks, slots, into) {
        Ok(()) => Ok(()),
        Err(BiosFault::NotFound) => Err(Halt::Boot(Reason::NotFound)),
        Err(_) => Err(Halt::Device),
    }
}

// How `-q` reports what is wrong with a map.
impl From<MapFault> for Halt {
    ghost use Rattle.lilo_run.specs.Run.{IsMapHalt};

    ghost from_gives = { λ fault halt. IsMapHalt fault halt };

    fn from(fault: MapFault) -> Halt {
        match fault {
            MapFault::NotOurs | MapFault::BadVersion(_) => Halt::NotOurs,
            MapFault::BadTable(entry) => Halt::Boot(Reason::BadTable(entry)),
            MapFault::BadLine => Halt::Boot(Reason::BadLine),
        }
    }
}

/// The names of a table, a line each.
fn listing(default_entry: u16, table: &Table) -> Listing
    requires { All IsNamed table.now.entries.items }
    ensures { result.items ≡ lines_from default_entry 0 (table_view table.now) }
{
    let mut text = Listing::new();
    for (place, entry) in table.entries.iter().enumerate() {
        let line = name_line(place == usize::from(default_entry), entry.name.as_slice());
        let _ = text.try_extend_from_slice(line.as_slice());
    }
    text
}

/// The line of a name, with ` *` after the default's.
fn name_line(is_default: bool, name: &[u8]) -> ArrayVec<u8, 18>
    requires { length name.now ≤ 15 }
    ensures { result.items ≡ name_line is_default name.now }
{
    let mut line = ArrayVec::new();
    let _ = line.try_extend_from_slice(name);
    let end: &[u8] = if is_default { b" *\n" } else { b"\n" };
    let _ = line.try_extend_from_slice(end);
    line
}
