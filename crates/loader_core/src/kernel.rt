// A kernel with its initrd and its command line, loaded as the boot protocol has it.
ghost use Rattle.std.specs.Prelude.{◌≡◌, ◌≤◌, ◌<◌, ◌+◌, ◌-◌, ◌^◌, ◌++◌};
ghost use Rattle.std.specs.Prelude.{length, min, is_some, OnOk, IfOk, IfSome, IsErrOf};
ghost use Rattle.std.specs.Option.{option_map};
ghost use Rattle.lilo_model.specs.Header.{header_at, plan_memory};
ghost use Rattle.lilo_model.specs.Boot.{initrd_size};
ghost use Rattle.sector_address.specs.Machine.{OnDisks};
ghost use Rattle.bios_model.specs.Reads.{OnlyReads};
ghost use Rattle.bios_model.specs.Memory.{memory_of};
ghost use Rattle.boot_map.specs.View.{descriptor_view};
ghost use Rattle.boot_map.specs.Ranges.{HasSectors, FitsFlags};
ghost use Rattle.setup_header.specs.View.{header_view, region_view};
ghost use Rattle.setup_header.specs.Words.{IsHeaderFor, HasLengths, LiesIn, AreApart, EndsBy};
ghost use Rattle.loader_core.specs.Report.{initrd_rest, initrd_read, kernel_by};
ghost use Rattle.section_loader.specs.File.{IsCounted, OnFile};
ghost use Rattle.loader_core.specs.Kernel.{ReadsTwo, HoldsKernel, PlacesKernel, PlacesInitrd, LoadsKernel};
ghost use Rattle.loader_core.specs.Kernel.{GivesHeader, GivesLayout};

use bios_model::Ram;
use boot_map::{Descriptor, flags};
use disk_trait::Disks;
use section_loader::{FileReader, Halt, load_bytes, place, read_cut};
use sector_parts::Sector;
use setup_header::{Header, Layout, Region, patch, plan_memory};

/// Reads the first two sectors of a file, with zeros after the file's end.
fn read_two<D: Disks>(
    file: &mut FileReader,
    disks: &mut D,
    first: &mut Sector,
    second: &mut Sector,
) -> Result<(), Halt>
    requires { IsCounted file.old }
    ensures counted { OnOk result (IsCounted file.new) }
    ensures left { OnOk result (file.new.left ≡ file.old.left - min 1024 file.old.left) }
    ensures bytes { OnFile D.Disks disks.old file.old file.new (λ old new.
        ReadsTwo result (min 1024 file.old.left) old (first.new ++ second.new) new) }
    ensures reads { OnlyReads D.Disks disks.old disks.new (IsErrOf result Halt.Device) }
{
    read_cut(file, disks, first)?;
    read_cut(file, disks, second)
}

/// The header in a kernel's first two sectors.
fn read_header(first: &Sector, second: &Sector, length: u32) -> Result<Header, Halt>
    ensures header { GivesHeader result (header_at (first.now ++ second.now) length) }
    ensures readable { IfOk result (λ header. IsHeaderFor header length) }
    ensures device { IsErrOf result Halt.Device → ⊥ }
{
    Ok(Header::read(first, second, length)?)
}

/// The length of an entry's initrd, if it has one.
fn initrd_size(entry: &Descriptor) -> Option<u32>
    ensures { result ≡ initrd_size (descriptor_view entry.now) }
{
    if entry.flags & flags::INITRD == 0 {
        None
    } else {
        Some(entry.initrd_length)
    }
}

/// The layout of memory for a kernel.
fn plan(
    header: &Header,
    length: u32,
    initrd: Option<u32>,
    line: u32,
    memory: u32,
) -> Result<Layout, Halt>
    requires header { IsHeaderFor header.now length }
    requires memory { 1048576 ≤ memory }
    ensures layout { GivesLayout result (plan_memory (header_view header.now) length initrd line memory) }
    ensures lengths { IfOk result (λ layout. HasLengths layout header.now length line) }
    ensures inside { IfOk result (LiesIn memory) }
    ensures apart { IfOk result AreApart }
    ensures device { IsErrOf result Halt.Device → ⊥ }
{
    Ok(plan_memory(header, length, initrd, line, memory)?)
}

/// Places a kernel of which the first two sectors are at hand and the others are read now: the real-mode part, and
/// the protected-mode part after it.
fn place_kernel<D: Disks>(
    file: &mut FileReader,
    disks: &mut D,
    ram: &mut Ram,
    layout: &Layout,
    first: &Sector,
    second: &Sector,
) -> Result<(), Halt>
    requires counted { IsCounted file.old }
    requires kernel { HoldsKernel layout.now file.old.left (length ram.old) }
    ensures placed { OnFile D.Disks disks.old file.old file.new (λ old new.
        PlacesKernel result layout.now (first.now ++ second.now) old (memory_of ram.old) (memory_of ram.new)) }
    ensures memory { length ram.new ≡ length ram.old }
    ensures reads { OnlyReads D.Disks disks.old disks.new (IsErrOf result Halt.Device) }
{
    place(ram, layout.real.address, first);
    place(ram, layout.real.address + 512, second);
    load_bytes(
        file,
        disks,
        ram,
        layout.real.address + 1024,
        layout.real.length - 1024,
    )?;
    load_bytes(
        file,
        disks,
        ram,
        layout.protected.address,
        layout.protected.length,
    )
}

/// Loads an entry's initrd to its region, if there is one.
fn load_initrd<D: Disks>(
    disks: &mut D,
    ram: &mut Ram,
    entry: &Descriptor,
    region: Option<Region>,
) -> Result<(), Halt>
    requires sectors { HasSectors entry.now }
    requires there { is_some region ≡ is_some entry.now.initrd }
    requires size { IfSome region (λ region. region.length ≡ entry.now.initrd_length) }
    requires inside { IfSome region (EndsBy (length ram.old)) }
    requires fits { length ram.old < 2 ^ 32 }
    ensures placed { OnDisks D.Disks disks.old (λ now machine.
        PlacesInitrd result (option_map region_view region)
        (initrd_read (initrd_rest now machine (descriptor_view entry.now)))
        (memory_of ram.old) (memory_of ram.new)) }
    ensures memory { length ram.new ≡ length ram.old }
    ensures reads { OnlyReads D.Disks disks.old disks.new (IsErrOf result Halt.Device) }
{
    let (Some(region), Some(slot)) = (region, entry.initrd) else {
        return Ok(());
    };
    let mut file = FileReader::new(&slot, entry.initrd_length, entry.initrd_chain);
    load_bytes(&mut file, disks, ram, region.address, region.length)
}

/// Loads an entry's kernel with its initrd, a command line, and a video mode where one is given.
pub(crate) fn load_kernel<D: Disks>(
    disks: &mut D,
    ram: &mut Ram,
    entry: &Descriptor,
    line: &[u8],
    video: Option<u16>,
) -> Result<Layout, Halt>
    requires sectors { HasSectors entry.now }
    requires flags { FitsFlags entry.now }
    requires line { length line.now ≤ 760 }
    ensures loaded { OnDisks D.Disks disks.old (λ now machine.
        LoadsKernel result (kernel_by now machine (descriptor_view entry.now) line.now video (length ram.old))
        (memory_of ram.old) ram.new) }
    ensures memory { length ram.new ≡ length ram.old }
    ensures inside { IfOk result (LiesIn (length ram.new)) }
    ensures reads { OnlyReads D.Disks disks.old disks.new (IsErrOf result Halt.Device) }
{
    let mut file = FileReader::new(&entry.first, entry.length, entry.chain);
    let mut first = [0; 512];
    let mut second = [0; 512];
    read_two(&mut file, disks, &mut first, &mut second)?;
    let header = read_header(&first, &second, entry.length)?;
    let memory = ram.size();
    let layout = plan(
        &header,
        entry.length,
        initrd_size(entry),
        line.len() as u32,
        memory,
    )?;
    patch(&header, &layout, video, &mut first, &mut second);
    place_kernel(&mut file, disks, ram, &layout, &first, &second)?;
    load_initrd(disks, ram, entry, layout.initrd)?;
    place(ram, layout.line.address, line);
    place(ram, layout.line.address + line.len() as u32, &[0]);
    Ok(layout)
}
