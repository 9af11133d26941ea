// Regions of memory, handed over as records.
ghost use Rattle.std.specs.Prelude.{◌≡◌, ◌≤◌, ◌+◌, length};
ghost use Rattle.lilo_model.specs.Bytes.{bytes32};
ghost use Rattle.setup_header.specs.Words.{LiesIn, EndsBy};
ghost use Rattle.setup_header.specs.View.{layout_view};
ghost use Rattle.stream_trait.specs.Shows.{Shows, sink_of};
ghost use Rattle.memory_dump.specs.Dump.{written_in};
ghost use Rattle.boot_second.specs.Second.{kernel_records, sector_records, region_record, entry_record};

use bios_model::Ram;
use setup_header::{Layout, Region};
use stream_trait::{Shown, Sink};

/// Where a kernel is entered: at its second sector, 9020:0000 (Linux/x86 boot protocol).
const KERNEL_ENTRY: u32 = 0x90200;

/// The entries of the partition table that goes with another system's boot sector, and that boot sector (IBM PC).
const TABLE: Region = Region {
    address: 0x7BE,
    length: 64,
};

const SECTOR: Region = Region {
    address: 0x7C00,
    length: 512,
};

/// The length in the record of an entry. No region is so long.
const ENTERED: u32 = 0xFFFF_FFFF;

/// Hands over the regions of a kernel's layout, and the kernel's entry.
pub fn hand_kernel<R: Sink>(to: &mut Shown<'_, R>, ram: &mut Ram, layout: &Layout)
    requires { LiesIn (length ram.old) layout.now }
    ensures handed { Shows (sink_of R.Sink to.old) (kernel_records ram.old (layout_view layout.now))
        (sink_of R.Sink to.new) }
    ensures same { ram.new ≡ ram.old }
    ensures same_reference { to.new.out.ghost_name ≡ to.old.out.ghost_name }
{
    hand_region(to, ram, layout.real);
    hand_region(to, ram, layout.protected);
    if let Some(initrd) = layout.initrd {
        hand_region(to, ram, initrd);
    }
    hand_region(to, ram, layout.line);
    hand_entry(to, KERNEL_ENTRY);
}

/// Hands over another system's boot sector, what memory has where its partition table goes, and the sector's entry.
pub fn hand_sector<R: Sink>(to: &mut Shown<'_, R>, ram: &mut Ram)
    ensures handed { Shows (sink_of R.Sink to.old) (sector_records ram.old) (sink_of R.Sink to.new) }
    ensures same { ram.new ≡ ram.old }
    ensures same_reference { to.new.out.ghost_name ≡ to.old.out.ghost_name }
{
    prove!(ram.size() >= 0x7E00);
    hand_region(to, ram, TABLE);
    hand_region(to, ram, SECTOR);
    hand_entry(to, SECTOR.address);
}

/// Hands over a region of memory: its address, its length and its bytes.
fn hand_region<R: Sink>(to: &mut Shown<'_, R>, ram: &mut Ram, region: Region)
    requires { EndsBy (length ram.old) region }
    ensures handed { Shows (sink_of R.Sink to.old) (region_record (written_in ram.old region))
        (sink_of R.Sink to.new) }
    ensures same { ram.new ≡ ram.old }
    ensures same_reference { to.new.out.ghost_name ≡ to.old.out.ghost_name }
{
    to.put(&four_bytes(region.address));
    to.put(&four_bytes(region.length));
    to.put(ram.bytes(region.address, region.length));
}

/// Hands over the address where the machine goes on.
fn hand_entry<R: Sink>(to: &mut Shown<'_, R>, entry: u32)
    ensures handed { Shows (sink_of R.Sink to.old) (entry_record entry) (sink_of R.Sink to.new) }
    ensures same_reference { to.new.out.ghost_name ≡ to.old.out.ghost_name }
{
    to.put(&four_bytes(entry));
    to.put(&four_bytes(ENTERED));
}

/// A number as four bytes, the lowest first.
fn four_bytes(number: u32) -> [u8; 4]
    ensures { result ≡ bytes32 number }
{
    number.to_le_bytes()
}
