// `survey IMAGE DEVICE`: `Ok` where the volume is sound, or the first thing that is wrong with it and status 1. Where
// the image or the device can't be used, `no volume` and status 2.
use crate::image::open_image;
use disk_trait::Disks;
use mbr_table::{Device, device_of, place_of};
use minix_survey::{SurveyFault, survey};
use minix_tree::TreeFault;
use minix_zones::Volume;
use std::alloc::Global;
use std::env::Args;
use std::io;
use std::iter::Skip;

/// The fewest sectors that a volume can have.
const FEWEST: u64 = 4;

pub fn answer(rt: &HostRuntime, words: &mut Skip<Args>) -> io::Result<u8> {
    let Some(found) = found(rt, words) else {
        println!(rt; "no volume")?;
        return Ok(2);
    };
    match found {
        Ok(()) => {
            println!(rt; "Ok")?;
            Ok(0)
        }
        Err(fault) => {
            println!(rt; "{fault:?}")?;
            Ok(1)
        }
    }
}

/// What is wrong with the volume that the next two words name.
fn found(rt: &HostRuntime, words: &mut Skip<Args>) -> Option<Result<(), SurveyFault>> {
    let path = words.next()?;
    let device = device_of(words.next()?.as_bytes()).ok()?;
    let mut disks = open_image(rt, path.as_str())?;
    survey_at(rt.alloc(), &mut disks, device)
}

/// What is wrong with the volume on a device.
fn survey_at<D: Disks>(
    alloc: Global,
    disks: &mut D,
    device: Device,
) -> Option<Result<(), SurveyFault>> {
    let span = match place_of(disks, device) {
        Ok(span) if span.count >= FEWEST => span,
        _ => return None,
    };
    match Volume::attach(disks, span) {
        Ok(mut volume) => match survey(alloc, &mut volume) {
            Ok(_) => Some(Ok(())),
            Err(fault) => Some(Err(fault)),
        },
        Err((_, fault)) => Some(Err(SurveyFault::Tree(TreeFault::Zone(fault)))),
    }
}
