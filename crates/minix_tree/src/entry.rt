// The entries of a block.
ghost use Rattle.std.specs.Prelude.{◌≡◌, ◌≤◌, ◌<◌, ◌+◌, ◌*◌, length, All};
ghost use Rattle.std.specs.Iterator.{YieldsFirstBy, item_count};
ghost use Rattle.lilo_model.specs.Bytes.{part_of, name_in};
ghost use Rattle.lilo_model.specs.MinixLayout.{entry_size, name_size};
ghost use Rattle.lilo_model.specs.MinixEntries.{entries_in, entries_per_block, is_dots, placed_entry};
ghost use Rattle.minix_layout.specs.View.{kind_view};
ghost use Rattle.minix_tree.specs.Placed.{entry_view, placed_from};

use minix_layout::FsKind;
use sector_parts::FieldRef;
use std::marker::Model;

/// An entry of a directory.
#[derive(Clone, Copy, Debug, PartialEq, Eq)]
pub struct DirEntry<'b> {
    pub inode: u32,
    /// Its name, lent from the block.
    pub name: &'b [u8],
    /// The byte of the block at which it begins.
    pub at: u16,
}

/// The entries of a block that aren't free, in order. To a contract it is the list of what it has left to give.
#[derive(Drop)]
pub struct Entries<'b> {
    block: &'b [u8; 1024],
    kind: FsKind,
    // The next place, and the one after the last.
    place: u16,
    end: u16,
}

impl<'b> Model for Entries<'b> {
    ghost use Rattle.std.specs.Prelude.{◌≤◌, ◌-◌, List};
    ghost use Rattle.lilo_model.specs.MinixEntries.{PlacedEntry, entries_per_block};
    ghost use Rattle.minix_layout.specs.View.{kind_view};
    ghost use Rattle.minix_tree.specs.Placed.{placed_from};

    ghost Value = { List PlacedEntry };

    ghost view = { λ entries. placed_from (kind_view entries.kind) entries.block.now entries.place
        (entries.end - entries.place) };

    ghost invariant = { λ entries. (entries.place ≤ entries.end)
        × (entries.end ≤ entries_per_block (kind_view entries.kind)) };
}

/// Whether a name is `.` or `..`.
#[tactic(auto, unfolding(lilo_model::specs::MinixEntries::is_dots))]
pub fn is_dots(name: &[u8]) -> bool
    ensures { result ≡ is_dots name.now }
{
    b".".as_slice() == name || b"..".as_slice() == name
}

/// The bytes of a name at most.
fn name_size(kind: FsKind) -> u16
    ensures { result ≡ name_size (kind_view kind) }
{
    match kind {
        FsKind::V1Short | FsKind::V2Short => 14,
        FsKind::V1Long | FsKind::V2Long => 30,
    }
}

/// The bytes of an entry.
pub fn entry_size(kind: FsKind) -> u16
    ensures { result ≡ entry_size (kind_view kind) }
{
    name_size(kind) + 2
}

/// How many entries a block has.
pub fn entries_per_block(kind: FsKind) -> u16
    ensures value { result ≡ entries_per_block (kind_view kind) }
    ensures few { (1 ≤ result) × (result ≤ 64) }
{
    1024 / entry_size(kind)
}

/// The bytes of the entry at a place of a block.
fn entry_bytes(block: &[u8; 1024], kind: FsKind, place: u16) -> &[u8]
    requires { place < entries_per_block (kind_view kind) }
    ensures bytes { result.now ≡ part_of block.now (entry_size (kind_view kind) * place) (entry_size (kind_view kind)) }
    ensures length { length result.now ≡ entry_size (kind_view kind) }
{
    let size = usize::from(entry_size(kind));
    let at = size * usize::from(place);
    &block[at..at + size]
}

/// The entry at a place of a block.
#[tactic(auto, unfolding(lilo_model::specs::MinixEntries::entry_of))]
pub fn entry_at(block: &[u8; 1024], kind: FsKind, place: u16) -> DirEntry<'_>
    requires { place < entries_per_block (kind_view kind) }
    ensures { entry_view result ≡ placed_entry (kind_view kind) block.now place }
{
    let entry = FieldRef {
        bytes: entry_bytes(block, kind, place),
    };
    DirEntry {
        inode: u32::from(entry.u16_at(0)),
        name: entry.name(2, usize::from(name_size(kind))),
        at: entry_size(kind) * place,
    }
}

#[tactic(auto, unfolding(lilo_model::specs::MinixEntries::entries_in, crate::specs::Placed::placed_from))]
/// The entries of a block whose inode number isn't 0, in order.
pub fn entries_in(block: &[u8; 1024], kind: FsKind) -> Entries<'_>
    ensures entries { result ≡ entries_in (kind_view kind) block.now }
    ensures slices { All (λ entry. entry.name ≡ name_in block.now (entry.at + 2) (name_size (kind_view kind))) result }
    ensures inside { All (λ entry. entry.at + entry_size (kind_view kind) ≤ 1024) result }
{
    entries_among(block, kind, entries_per_block(kind))
}

/// The same among the first `count` places of the block, as `read_entries` gives their number.
pub fn entries_among(block: &[u8; 1024], kind: FsKind, count: u16) -> Entries<'_>
    requires { count ≤ entries_per_block (kind_view kind) }
    ensures entries { result ≡ placed_from (kind_view kind) block.now 0 count }
    ensures slices { All (λ entry. entry.name ≡ name_in block.now (entry.at + 2) (name_size (kind_view kind))) result }
    ensures inside { All (λ entry. entry.at + entry_size (kind_view kind) ≤ 1024) result }
{
    Entries {
        block,
        kind,
        place: 0,
        end: count,
    }
}

impl<'b> Iterator for Entries<'b> {
    type Item = DirEntry<'b>;

    ghost next_gives = { YieldsFirstBy entry_view (λ rest. rest) };

    ghost remaining = { item_count (λ rest. rest) };

    fn next(&mut self) -> Option<DirEntry<'b>> {
        while self.place < self.end {
            let entry = entry_at(self.block, self.kind, self.place);
            self.place += 1;
            if entry.inode != 0 {
                return Some(entry);
            }
        }
        None
    }
}
