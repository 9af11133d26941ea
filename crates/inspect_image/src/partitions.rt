// `partitions IMAGE`: a line `NUMBER TYPE START COUNT` for each, the type in two hexadecimal digits. Where the image or
// one of its tables can't be used, `refused` and status 1.
use crate::image::open_image;
use arrayvec::ArrayVec;
use mbr_table::{Partition, partitions};
use std::env::Args;
use std::io;
use std::iter::Skip;

pub fn answer(rt: &HostRuntime, words: &mut Skip<Args>) -> io::Result<u8> {
    let Some(found) = found(rt, words) else {
        println!(rt; "refused")?;
        return Ok(1);
    };
    for partition in found.iter() {
        print_line(rt, partition)?;
    }
    Ok(0)
}

/// The partitions of the image that the next word names.
fn found(rt: &HostRuntime, words: &mut Skip<Args>) -> Option<ArrayVec<Partition, 63>> {
    let path = words.next()?;
    let mut disks = open_image(rt, path.as_str())?;
    partitions(&mut disks, 0).ok()
}

fn print_line(rt: &HostRuntime, partition: &Partition) -> io::Result<()> {
    let number = partition.number;
    let kind = partition.kind;
    let start = partition.span.start;
    let count = partition.span.count;
    println!(rt; "{number} {kind:02x} {start} {count}")
}
