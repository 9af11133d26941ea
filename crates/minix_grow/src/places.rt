// Where a place of a directory lies.
ghost use Rattle.std.specs.Prelude.{◌≡◌, ◌<◌, ◌/◌, ◌%◌, ◌^◌};
ghost use Rattle.lilo_model.specs.MinixEntries.{entries_per_block};
ghost use Rattle.minix_grow.specs.Places.{size_to};
ghost use Rattle.minix_layout.specs.View.{kind_view};

use minix_layout::FsKind;
use minix_tree::{entries_per_block, entry_size};

/// Which entry of its block a place is.
pub fn slot_of(kind: FsKind, place: u32) -> u16
    ensures is { result ≡ place % entries_per_block (kind_view kind) }
    ensures low { result < entries_per_block (kind_view kind) }
{
    (place % u32::from(entries_per_block(kind))) as u16
}

/// In which block of a directory a place lies.
pub(crate) fn block_of(kind: FsKind, place: u32) -> u32
    ensures { result ≡ place / entries_per_block (kind_view kind) }
{
    place / u32::from(entries_per_block(kind))
}

/// The size of a directory whose last place is this one.
pub(crate) fn size_to(kind: FsKind, place: u32) -> u32
    requires { size_to (kind_view kind) place < 2 ^ 32 }
    ensures { result ≡ size_to (kind_view kind) place }
{
    (place + 1) * u32::from(entry_size(kind))
}
