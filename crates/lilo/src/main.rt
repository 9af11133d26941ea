//! `lilo IMAGE.. -- ARGUMENT..`: LILO over disk images, on a modelled PC.
//!
//! An IMAGE is `path`, `path:heads:sectors`, or `-` for an absent disk; the images are disks 0 to 3.
//! Without `--` every argument is an image. All text goes to standard output, faults included, and the exit
//! status is that of the arguments, 1 for one that isn't UTF-8, 14 for an image that can't be used, or 13 where
//! memory doesn't suffice. `--help` and `--version` before the `--` print a text, and do nothing else.
#![tactic(auto)]

mod help;
mod image;

use disk_trait::{Disks, untold};
use file_disks::FileDisks;
use help::text_of;
use host_parts::{StartFault, arguments, now_seconds, show_text};
use image::open_image;
use lilo_run::{Ram, boots, lilo};
use std::fs::File;
use std::process::ExitCode;
use stream_trait::{StdSink, StdSource, Words};

/// The memory of the modelled PC where a part boots, in bytes.
const MEMORY: u32 = 16_777_216;

/// Its memory where none does: the least that there is, since nothing looks at it.
const LEAST_MEMORY: u32 = 1_048_576;

/// The most disks that a BIOS numbers here.
const DISKS: u8 = 4;

fn main(rt: HostRuntime) -> ExitCode {
    match run(&rt) {
        Ok(status) => ExitCode::from(status),
        Err(fault) => {
            tell(&rt, &fault);
            ExitCode::from(fault.status())
        }
    }
}

/// Reports a fault. An image that begins with a dash is an argument without its `--`.
fn tell(rt: &HostRuntime, fault: &StartFault) {
    let _ = match fault {
        StartFault::Image(word) if word.len() > 1 && word.starts_with('-') => {
            println!(rt; "lilo: {fault}: arguments come after --")
        }
        _ => println!(rt; "lilo: {fault}"),
    };
}

fn run(rt: &HostRuntime) -> Result<u8, StartFault> {
    if let Some(text) = asked_text(rt)? {
        return Ok(show_text(rt, text));
    }
    let alloc = rt.alloc();
    let mut words = Words::new(alloc);
    let mut disks = FileDisks::new(alloc);
    sort_arguments(rt, &mut disks, &mut words)?;
    let memory = if boots(&words) { MEMORY } else { LEAST_MEMORY };
    let mut ram = Ram::new(alloc, memory)?;
    let status = serve(rt, &words, &mut disks, &mut ram);
    // What was written before a fault isn't lost. The status stays: where it is 0 all was flushed already.
    let _ = disks.write_out();
    Ok(status)
}

/// Carries out the arguments, by keys from standard input, and answers the status.
fn serve(rt: &HostRuntime, words: &Words, disks: &mut FileDisks<File>, ram: &mut Ram) -> u8 {
    let mut keys = StdSource::new(rt.stdin());
    let mut out = StdSink::new(rt.stdout());
    let now = now_seconds(rt);
    untold();
    lilo(rt.alloc(), words, disks, &mut keys, &mut out, ram, now)
}

/// The text that the arguments before the first `--` ask for, if they do.
fn asked_text(rt: &HostRuntime) -> Result<Option<&'static str>, StartFault> {
    for argument in arguments(rt)? {
        let text = text_of(argument.as_str());
        if text.is_some() || argument.as_str() == "--" {
            return Ok(text);
        }
    }
    Ok(None)
}

/// Opens the images, and keeps the arguments after the first `--`.
fn sort_arguments(
    rt: &HostRuntime,
    disks: &mut FileDisks<File>,
    words: &mut Words,
) -> Result<(), StartFault> {
    let mut are_words = false;
    for argument in arguments(rt)? {
        if are_words {
            words.push(rt.alloc(), argument.as_str())?;
        } else if argument.as_str() == "--" {
            are_words = true;
        } else {
            add_image(rt, disks, argument)?;
        }
    }
    Ok(())
}

/// Opens an image as the next disk.
fn add_image(
    rt: &HostRuntime,
    disks: &mut FileDisks<File>,
    word: String,
) -> Result<(), StartFault> {
    if disks.count() >= DISKS {
        return Err(StartFault::Image(word));
    }
    if word.as_str() == "-" {
        return Ok(disks.push(None)?);
    }
    match open_image(rt, word.as_str()) {
        Some(disk) => Ok(disks.push(Some(disk))?),
        None => Err(StartFault::Image(word)),
    }
}
