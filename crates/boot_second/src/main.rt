//! `boot_second MEMORY DEVICE IMAGE..`: the second stage of a PC's boot.
//!
//! It boots a device as `lilo IMAGE.. -- boot DEVICE` does, in a memory of so many bytes, and hands over what the boot
//! puts there, for who runs below it to place and to start. MEMORY is a number of bytes, 1,048,576 to 1,073,741,824.
//! An IMAGE is a path, or `-` for an absent disk; the images are disks 0 to 3. Keys come from standard input, texts go
//! to standard error, and standard output has the records that [`boot::boot_second`] hands over. The exit status is its
//! status, 12 where not all was handed over, 1 for arguments that aren't these, 14 for an image that can't be used, or
//! 13 where memory doesn't suffice.
#![tactic(auto)]

// The arguments.
ghost use Rattle.std.specs.Prelude.{◌≡◌, ◌≤◌, IfSome};

mod boot;
mod hand;

use bios_model::{Bios, Ram};
use boot::boot_second;
use disk_trait::{Disks, Geometry};
use file_disks::FileDisks;
use host_parts::{StartFault, arguments, open_image};
use mbr_table::{Device, device_of};
use std::fs::File;
use std::process::ExitCode;
use stream_trait::{Shown, StdSink, StdSource, answer};

/// The least memory of the modelled PC, and the most, in bytes.
const LEAST: u32 = 1_048_576;

const MOST: u32 = 1_073_741_824;

/// The most disks that a BIOS numbers here.
const DISKS: u8 = 4;

fn main(rt: HostRuntime) -> ExitCode {
    match run(&rt) {
        Ok(status) => ExitCode::from(status),
        Err(fault) => {
            let _ = eprintln!(rt; "boot_second: {fault}");
            ExitCode::from(fault.status())
        }
    }
}

fn run(rt: &HostRuntime) -> Result<u8, StartFault> {
    let mut words = arguments(rt)?;
    let (Some(memory), Some(device)) = (words.next(), words.next()) else {
        return Ok(say_usage(rt));
    };
    let (Some(memory), Ok(device)) = (memory_of(memory.as_str()), device_of(device.as_bytes()))
    else {
        return Ok(say_usage(rt));
    };
    let mut disks = FileDisks::new(rt.alloc());
    for word in words {
        add_image(rt, &mut disks, word)?;
    }
    let mut ram = Ram::new(rt.alloc(), memory)?;
    let status = serve(rt, device, &mut disks, &mut ram);
    // What was written before a fault isn't lost. The status stays: where it is 0 all was flushed already.
    let _ = disks.write_out();
    Ok(status)
}

/// Says what the arguments are, and gives the status.
fn say_usage(rt: &HostRuntime) -> u8
    ensures { result ≡ 1 }
{
    let _ = eprintln!(rt; "boot_second: usage: boot_second MEMORY DEVICE IMAGE..");
    1
}

/// A number of bytes that a memory can have.
fn memory_of(word: &str) -> Option<u32>
    ensures { IfSome result (λ memory. (1048576 ≤ memory) × (memory ≤ 1073741824)) }
{
    let memory = word.parse().ok()?;
    (LEAST..=MOST).contains(&memory).then_some(memory)
}

/// Opens an image as the next disk.
fn add_image(
    rt: &HostRuntime,
    disks: &mut FileDisks<File>,
    word: String,
) -> Result<(), StartFault> {
    if disks.count() >= DISKS {
        return Err(StartFault::Image(word));
    }
    if word.as_str() == "-" {
        return Ok(disks.push(None)?);
    }
    let Ok(geometry) = Geometry::new(16, 63) else {
        return Err(StartFault::Image(word));
    };
    match open_image(rt, word.as_str(), geometry) {
        Some(disk) => Ok(disks.push(Some(disk))?),
        None => Err(StartFault::Image(word)),
    }
}

/// Boots a device by keys from standard input, and answers the status.
fn serve(rt: &HostRuntime, device: Device, disks: &mut FileDisks<File>, ram: &mut Ram) -> u8 {
    let mut keys = StdSource::new(rt.stdin());
    let mut texts = StdSink::new(rt.stderr());
    let mut records = StdSink::new(rt.stdout());
    let mut bios = Bios {
        disks,
        keys: &mut keys,
    };
    let mut out = Shown::new(&mut texts);
    let mut to = Shown::new(&mut records);
    let status = boot_second(&mut bios, device, ram, &mut out, &mut to);
    answer(status, to.failed())
}
