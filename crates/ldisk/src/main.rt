//! `ldisk COMMAND IMAGE ..`: Minix volumes in a disk image.
//!
//! `make IMAGE SECTORS [START:COUNT:TYPE ..]` makes an image with a partition table, and `mkfs IMAGE DEVICE KIND
//! INODES` an empty volume in it. `ls IMAGE DEVICE PATH` lists a directory, `get IMAGE DEVICE PATH` prints a file, `put
//! IMAGE DEVICE PATH` stores standard input as one, `rm IMAGE DEVICE PATH` removes one, `mkdir IMAGE DEVICE PATH` makes
//! a directory, and `ln IMAGE DEVICE PATH TARGET` a symbolic link. `reclaim IMAGE DEVICE` frees what is marked without a
//! use. The image is the disk hda. All text goes to standard output, and the exit status is that of the arguments, 14
//! for an image that can't be used, or 13 where memory doesn't suffice. Each status but 0 and 12 has a line that says
//! what it means. `--help` and `--version` print a text.
#![tactic(auto)]

mod fault;
mod help;

use disk_trait::{Geometry, untold};
use fault::tell;
use file_disks::{FileDisk, FileDisks};
use help::text_of;
use host_parts::{StartFault, arguments, create_image, now_seconds, open_image, show_text};
use ldisk_make::are_placed;
use ldisk_run::ldisk;
use ldisk_words::{Asked, Command, ask};
use std::fs::File;
use std::process::ExitCode;
use stream_trait::{StdSink, StdSource, Words};

fn main(rt: HostRuntime) -> ExitCode {
    match run(&rt) {
        Ok(status) => ExitCode::from(status),
        Err(fault) => {
            let _ = println!(rt; "ldisk: {fault}");
            ExitCode::from(fault.status())
        }
    }
}

fn run(rt: &HostRuntime) -> Result<u8, StartFault> {
    let alloc = rt.alloc();
    let mut words = Words::new(alloc);
    read_arguments(rt, &mut words)?;
    if let Some(text) = text_of(&words) {
        return Ok(show_text(rt, text));
    }
    let mut disks = match ask(&words) {
        Some(asked) if is_carried_out(&asked) => open_disks(rt, &asked)?,
        _ => FileDisks::new(alloc),
    };
    let status = serve(rt, &words, &mut disks);
    // What was written before a fault isn't lost. The status stays: where it is 0 all was flushed already.
    let _ = disks.write_out();
    tell(rt, &words, status);
    Ok(status)
}

/// Carries out the arguments, and answers the status.
fn serve(rt: &HostRuntime, words: &Words, disks: &mut FileDisks<File>) -> u8 {
    let mut source = StdSource::new(rt.stdin());
    let mut out = StdSink::new(rt.stdout());
    let now = now_seconds(rt);
    untold();
    ldisk(rt.alloc(), words, disks, &mut source, &mut out, now)
}

fn read_arguments(rt: &HostRuntime, words: &mut Words) -> Result<(), StartFault> {
    for argument in arguments(rt)? {
        words.push(rt.alloc(), argument.as_str())?;
    }
    Ok(())
}

/// Whether the image is looked at: partitions that can't lie so leave it as it is.
fn is_carried_out(asked: &Asked<'_>) -> bool {
    match &asked.command {
        Command::Make { parts } => are_placed(asked.sectors, parts.as_slice()),
        _ => true,
    }
}

/// The image that arguments name as the only disk.
fn open_disks(rt: &HostRuntime, asked: &Asked<'_>) -> Result<FileDisks<File>, StartFault> {
    let Some(disk) = open_disk(rt, asked) else {
        return Err(StartFault::Image(String::from_str(rt.alloc(), asked.image)?));
    };
    let mut disks = FileDisks::new(rt.alloc());
    disks.push(Some(disk))?;
    Ok(disks)
}

/// The image, which is made where it is to be a new one, with 16 heads and 63 sectors on a track.
fn open_disk(rt: &HostRuntime, asked: &Asked<'_>) -> Option<FileDisk<File>> {
    let geometry = Geometry::new(16, 63).ok()?;
    match &asked.command {
        Command::Make { .. } => create_image(rt, asked.image, asked.sectors, geometry),
        _ => open_image(rt, asked.image, geometry),
    }
}
