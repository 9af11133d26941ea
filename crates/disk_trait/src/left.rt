// What a stop leaves on disks in memory.
ghost use Rattle.std.specs.Prelude.{◌≡◌, ◌+◌, ◌<◌, ◌≤◌, All, IfOk, [], ◌∷◌, length};
ghost use Rattle.disk_trait.specs.Past.{Image, now_after, first_events};
ghost use Rattle.disk_trait.specs.MemDisks.{IsInRange, sizes_of, image_of};
ghost use Rattle.disk_trait.specs.Left.{unflushed_count, left_after, SameShape};

use crate::Event;
use crate::held_disk::HeldDisk;
use std::alloc::{AllocError, Global};
use std::collections::VecDeque;

/// Other disks with the same bytes.
pub(crate) fn copy_disks(alloc: Global, disks: &[HeldDisk]) -> Result<Vec<HeldDisk>, AllocError>
    ensures { IfOk result (λ made. made.items ≡ disks.now) }
{
    let mut made = Vec::new(alloc);
    for disk in disks {
        made.push(disk.copy(alloc)?)?;
    }
    Ok(made)
}

/// How many of the first `prefix` events come after their last flush.
pub(crate) fn count_unflushed(events: &VecDeque<Event>, prefix: usize) -> usize
    requires { prefix ≤ length events.now.items }
    ensures count { result ≡ unflushed_count (first_events prefix events.now.items) }
    ensures few { result ≤ prefix }
{
    let mut count = 0;
    for i in 0..prefix {
        count = match event_at(events, i) {
            Event::Write(..) => count + 1,
            Event::Flush => 0,
        };
    }
    count
}

/// Makes the first `prefix` events, but of those after their last flush only the kept ones.
pub(crate) fn make_left(
    disks: &mut [HeldDisk],
    events: &VecDeque<Event>,
    prefix: usize,
    keep: &[bool],
)
    requires within { prefix ≤ length events.now.items }
    requires each { length keep.now ≡ unflushed_count (first_events prefix events.now.items) }
    requires in_range { All (IsInRange (sizes_of disks.old)) events.now.items }
    ensures image { image_of disks.new
        ≡ left_after (image_of disks.old) (first_events prefix events.now.items) keep.now }
    ensures shape { SameShape disks.old disks.new }
{
    let flushed = prefix - keep.len();
    make_first(disks, events, flushed);
    make_kept(disks, events, flushed, keep);
}

// Makes the first events, in order.
fn make_first(disks: &mut [HeldDisk], events: &VecDeque<Event>, count: usize)
    requires within { count ≤ length events.now.items }
    requires in_range { All (IsInRange (sizes_of disks.old)) events.now.items }
    ensures image { image_of disks.new
        ≡ now_after (image_of disks.old) (first_events count events.now.items) }
    ensures shape { SameShape disks.old disks.new }
{
    for i in 0..count {
        make(disks, event_at(events, i));
    }
}

// Makes those events after a number of first ones that are kept, in order.
fn make_kept(disks: &mut [HeldDisk], events: &VecDeque<Event>, first: usize, keep: &[bool])
    requires within { first + length keep.now ≤ length events.now.items }
    requires each { length keep.now
        ≡ unflushed_count (first_events (first + length keep.now) events.now.items) }
    requires in_range { All (IsInRange (sizes_of disks.old)) events.now.items }
    ensures image { (start : Image)
        → image_of disks.old ≡ now_after start (first_events first events.now.items)
        → image_of disks.new
        ≡ left_after start (first_events (first + length keep.now) events.now.items) keep.now }
    ensures shape { SameShape disks.old disks.new }
{
    for (i, kept) in keep.iter().enumerate() {
        if *kept {
            make(disks, event_at(events, first + i));
        }
    }
}

// An event by its number, in the order in which they were made.
fn event_at(events: &VecDeque<Event>, number: usize) -> &Event
    requires { number < length events.now.items }
    ensures { first_events (number + 1) events.now.items
        ≡ result.now ∷ first_events number events.now.items }
{
    &events[events.len() - 1 - number]
}

// Makes one event.
fn make(disks: &mut [HeldDisk], event: &Event)
    requires { IsInRange (sizes_of disks.old) event.now }
    ensures image { image_of disks.new ≡ now_after (image_of disks.old) (event.now ∷ []) }
    ensures shape { SameShape disks.old disks.new }
{
    if let Event::Write(disk, sector, bytes) = event {
        disks[usize::from(*disk)].set(*sector, bytes);
    }
}
