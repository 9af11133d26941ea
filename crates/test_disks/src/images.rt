// Images that a stop leaves on disks in memory.
ghost use Rattle.std.specs.Prelude.{◌≡◌, ◌≤◌, ◌<◌, ◌^◌, length, IfOk};
ghost use Rattle.disk_trait.specs.Left.{unflushed_count, left_image};
ghost use Rattle.disk_trait.specs.MemDisks.{image_of, past_in, now_in, fresh_state, sizes_of};
ghost use Rattle.disk_trait.specs.Past.{Leaves, first_events};
ghost use Rattle.test_disks.specs.Kept.{choices, is_kept, kept};

use disk_trait::{Failing, MemDisks};
use std::alloc::{AllocError, Global};

/// How many writes may each be made or not, so that all the ways are tried.
const FEW: u32 = 5;

/// Whether a write is made, of so many that aren't flushed, counted from 0 in the order in which they were made.
fn is_kept(choice: u32, count: u32, at: u32) -> bool
    requires { at < count }
    ensures { result ≡ is_kept choice count at }
{
    if count <= FEW {
        return (choice >> at) % 2 == 1;
    }
    match choice {
        0 => false,
        1 => true,
        2 => at % 2 == 0,
        3 => at % 2 == 1,
        4 => at + 1 == count,
        _ => at + 1 != count,
    }
}

/// Says of each of so many writes whether it is made.
#[tactic(auto, using(crate::proofs::AllLemmas::kept_more))]
fn kept(alloc: Global, choice: u32, count: u32) -> Result<Vec<bool>, AllocError>
    ensures { IfOk result (λ keep. keep.items ≡ kept choice count) }
{
    let mut keep = Vec::new(alloc);
    for at in 0..count {
        keep.push(is_kept(choice, count, at))?;
    }
    Ok(keep)
}

/// How many images are looked at of those that a stop leaves after the first `prefix` events: all of them where at most
/// five writes aren't flushed, else six: none of the writes, all, every second one, the others, the last one, and all
/// but the last.
pub fn choices(disks: &MemDisks, prefix: u32) -> u32
    requires { prefix ≤ length disks.now.events }
    ensures { result ≡ choices (unflushed_count (first_events prefix disks.now.events)) }
{
    let count = disks.unflushed(prefix);
    if count <= FEW { 1 << count } else { 6 }
}

/// Disks that begin with one of the images that a stop leaves after the first `prefix` events.
#[tactic(auto, using(crate::proofs::AllLemmas::kept_length))]
pub fn image_left(
    alloc: Global,
    disks: &MemDisks,
    prefix: u32,
    choice: u32,
) -> Result<MemDisks, AllocError>
    requires { prefix ≤ length disks.now.events }
    ensures image { IfOk result (λ made. image_of made.start ≡ left_image (past_in disks.now) prefix
        (kept choice (unflushed_count (first_events prefix disks.now.events)))) }
    ensures leaves { IfOk result (λ made. Leaves (past_in disks.now) prefix (image_of made.start)) }
    ensures size { IfOk result (λ made. sizes_of made.start ≡ sizes_of disks.now.start) }
{
    let keep = kept(alloc, choice, disks.unflushed(prefix))?;
    disks.left(alloc, prefix, keep.as_slice(), 0, &[])
}

/// Disks that begin with what others hold now, with no event yet.
#[tactic(auto, using(crate::proofs::AllLemmas::all_is_now))]
pub fn made_again(
    alloc: Global,
    disks: &MemDisks,
    room: u32,
    failing: &[Failing],
) -> Result<MemDisks, AllocError>
    ensures image { IfOk result (λ made. image_of made.start ≡ now_in disks.now) }
    ensures fresh { IfOk result (λ made. made ≡ fresh_state made.start room failing.now) }
    ensures size { IfOk result (λ made. sizes_of made.start ≡ sizes_of disks.now.start) }
{
    let prefix = disks.events();
    let keep = vec![in alloc; true; disks.unflushed(prefix) as usize]?;
    disks.left(alloc, prefix, keep.as_slice(), room, failing)
}
