// The files of the entry that is started.
ghost use Rattle.std.specs.Prelude.{◌≡◌, ◌≤◌, ◌+◌, true, length, IfOk, IsErrOf};
ghost use Rattle.std.specs.Option.{option_or};
ghost use Rattle.lilo_model.specs.Table.{has_flag, other_flag, table_flag};
ghost use Rattle.lilo_model.specs.Place.{with_bytes, memory_after};
ghost use Rattle.lilo_model.specs.Boot.{boot_address};
ghost use Rattle.sector_address.specs.Machine.{OnDisks};
ghost use Rattle.bios_model.specs.Reads.{OnlyReads};
ghost use Rattle.bios_model.specs.Memory.{memory_of};
ghost use Rattle.boot_map.specs.View.{descriptor_view};
ghost use Rattle.boot_map.specs.Ranges.{HasSectors, FitsFlags};
ghost use Rattle.loader_core.specs.Report.{entry_by, other_by, configured_video};
ghost use Rattle.loader_core.specs.Start.{LiesInside, Starts, table_written};

use crate::kernel::load_kernel;
use crate::outcome::Started;
use bios_model::Ram;
use boot_map::{Descriptor, flags};
use disk_trait::Disks;
use section_loader::{FileReader, Halt, place, read_cut};
use sector_parts::Sector;

/// The address of a boot sector (IBM PC).
const BOOT_ADDRESS: u32 = 0x7C00;

/// The address of the partition table that goes with it.
const TABLE_ADDRESS: u32 = 0x7BE;

/// Loads what an entry starts: a kernel with this command line and video mode, or another system's boot sector.
pub(crate) fn load_entry<D: Disks>(
    disks: &mut D,
    ram: &mut Ram,
    entry: &Descriptor,
    line: &[u8],
    video: Option<u16>,
) -> Result<Started, Halt>
    requires sectors { HasSectors entry.now }
    requires flags { FitsFlags entry.now }
    requires line { length line.now ≤ 760 }
    ensures started { OnDisks D.Disks disks.old (λ now machine.
        Starts result (entry_by now machine (descriptor_view entry.now) line.now video (length ram.old))
        (memory_of ram.old) ram.new) }
    ensures memory { length ram.new ≡ length ram.old }
    ensures inside { IfOk result (LiesInside (length ram.new)) }
    ensures reads { OnlyReads D.Disks disks.old disks.new (IsErrOf result Halt.Device) }
{
    if entry.flags & flags::OTHER == 0 {
        let layout = load_kernel(disks, ram, entry, line, video)?;
        Ok(Started::Loaded(layout))
    } else {
        load_other(disks, ram, entry)
    }
}

/// The video mode of an entry: the one that was typed, or else the one that it is configured with.
pub(crate) fn video_of(entry: &Descriptor, typed: Option<u16>) -> Option<u16>
    ensures { result ≡ option_or typed (configured_video (descriptor_view entry.now)) }
{
    if typed.is_some() {
        return typed;
    }
    if entry.flags & flags::VIDEO == 0 {
        None
    } else {
        Some(entry.vga)
    }
}

/// Loads another system's boot sector, and the partition table that goes with it, where there is one. The table's
/// entries are at 446 in its sector (IBM PC).
fn load_other<D: Disks>(disks: &mut D, ram: &mut Ram, entry: &Descriptor) -> Result<Started, Halt>
    requires sectors { HasSectors entry.now }
    requires flags { FitsFlags entry.now }
    requires other { has_flag entry.now.flags other_flag ≡ true }
    ensures started { OnDisks D.Disks disks.old (λ now machine.
        Starts result (other_by now machine (descriptor_view entry.now)) (memory_of ram.old) ram.new) }
    ensures memory { length ram.new ≡ length ram.old }
    ensures inside { IfOk result (LiesInside (length ram.new)) }
    ensures reads { OnlyReads D.Disks disks.old disks.new (IsErrOf result Halt.Device) }
{
    let mut file = FileReader::new(&entry.first, entry.length, entry.chain);
    let mut boot = [0; 512];
    read_cut(&mut file, disks, &mut boot)?;
    let mut table = [0; 512];
    read_cut(&mut file, disks, &mut table)?;
    place_table(ram, entry, &table);
    place_boot(ram, &boot);
    Ok(Started::Handed)
}

/// Places the entries of a partition table from the sector at hand, where it goes with an entry.
fn place_table(ram: &mut Ram, entry: &Descriptor, table: &Sector)
    ensures memory { memory_of ram.new
        ≡ memory_after (memory_of ram.old) (table_written (has_flag entry.now.flags table_flag) table.now) }
    ensures size { length ram.new ≡ length ram.old }
{
    let _memory = ram.size();
    if entry.flags & flags::TABLE != 0 {
        place(ram, TABLE_ADDRESS, &table[446..510]);
    }
}

/// Places a boot sector.
pub(crate) fn place_boot(ram: &mut Ram, boot: &Sector)
    ensures memory { memory_of ram.new
        ≡ with_bytes (memory_of ram.old) (record { address = boot_address; bytes = boot.now }) }
    ensures inside { boot_address + 512 ≤ length ram.old }
    ensures size { length ram.new ≡ length ram.old }
{
    let _memory = ram.size();
    place(ram, BOOT_ADDRESS, boot);
}
