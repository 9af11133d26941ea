// Files that are placed in memory.
ghost use Rattle.std.specs.Prelude.{◌≡◌, ◌≤◌, ◌<◌, ◌+◌, ◌-◌, ◌^◌, length, min, OnOk, IsErrOf};
ghost use Rattle.lilo_model.specs.Place.{with_bytes};
ghost use Rattle.bios_model.specs.Reads.{OnlyReads};
ghost use Rattle.bios_model.specs.Memory.{memory_of};
ghost use Rattle.sector_address.specs.Machine.{OnDisks};
ghost use Rattle.section_loader.specs.File.{IsCounted, OnFile, rest_in};
ghost use Rattle.section_loader.specs.Load.{IsCut, Loads, ReadsCut};

use crate::file::FileReader;
use crate::reason::Halt;
use bios_model::Ram;
use disk_trait::Disks;
use sector_parts::Sector;

/// Reads the next `size` bytes of a file and places them in memory from an address on, a sector at a time. They end
/// with a sector or with the file.
pub fn load_bytes<D: Disks>(
    file: &mut FileReader,
    disks: &mut D,
    ram: &mut Ram,
    at: u32,
    size: u32,
) -> Result<(), Halt>
    requires counted { IsCounted file.old }
    requires cut { IsCut size file.old.left }
    requires inside { at + size ≤ length ram.old }
    requires fits { at + size < 2 ^ 32 }
    ensures counted { OnOk result (IsCounted file.new) }
    ensures left { OnOk result (file.new.left ≡ file.old.left - size) }
    ensures loaded { OnFile D.Disks disks.old file.old file.new (λ old new.
        Loads result size at old (memory_of ram.old) new (memory_of ram.new)) }
    ensures memory { length ram.new ≡ length ram.old }
    ensures reads { OnlyReads D.Disks disks.old disks.new (IsErrOf result Halt.Device) }
{
    let mut sector = [0; 512];
    let mut done = 0;
    while done < size {
        let read = file.next(disks, &mut sector)?;
        place(ram, at + done, &sector[..read]);
        done += read as u32;
    }
    Ok(())
}

/// Places bytes in memory that has room for them.
pub fn place(ram: &mut Ram, at: u32, bytes: &[u8])
    requires { at + length bytes.now ≤ length ram.old }
    ensures memory { memory_of ram.new
        ≡ with_bytes (memory_of ram.old) (record { address = at; bytes = bytes.now }) }
    ensures size { length ram.new ≡ length ram.old }
{
    let _ = ram.place(at, bytes);
}

/// Reads the next sector of a file, with zeros after the file's end.
pub fn read_cut<D: Disks>(
    file: &mut FileReader,
    disks: &mut D,
    into: &mut Sector,
) -> Result<(), Halt>
    requires { IsCounted file.old }
    ensures counted { OnOk result (IsCounted file.new) }
    ensures left { OnOk result (file.new.left ≡ file.old.left - min 512 file.old.left) }
    ensures bytes { OnDisks D.Disks disks.old (λ now machine. ReadsCut result (min 512 file.old.left)
        (rest_in now machine file.old) into.new (rest_in now machine file.new)) }
    ensures reads { OnlyReads D.Disks disks.old disks.new (IsErrOf result Halt.Device) }
{
    let size = file.next(disks, into)?;
    into[size..].fill(0);
    Ok(())
}
