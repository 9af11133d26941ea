// What is in the directory.
ghost use Rattle.std.specs.Prelude.{◌≡◌, ◌+◌, ◌≤◌, ◌<◌, ◌^◌, ◌++◌, ◌∷◌, [], true, List, IfErr, length};
ghost use Rattle.disk_trait.specs.Past.{Told};
ghost use Rattle.lilo_model.specs.MinixLayout.{is_size};
ghost use Rattle.lilo_model.specs.MinixParts.{parts_of};
ghost use Rattle.lilo_model.specs.MinixEntries.{Entry, entry_in, entries_per_block};
ghost use Rattle.minix_layout.specs.View.{kind_view, super_view, inode_view};
ghost use Rattle.minix_zones.specs.View.{HasZoneCause};
ghost use Rattle.minix_zones.specs.Volume.{volume_view, past_of, faults_of, SameVolume};
ghost use Rattle.write_model.specs.Places.{all_entries};
ghost use Rattle.minix_choice.specs.Directory.{first_entries, Sees, Looks};

use crate::taken::Taken;
use crate::wish::Wish;
use disk_trait::Disks;
use minix_layout::{FsKind, Inode};
use minix_tree::{directory_blocks, entries_per_block, entry_at, places};
use minix_zones::{Volume, ZoneFault, read_at};

/// What was seen of a directory: whether it has the name, and its first free place that wasn't promised.
#[derive(Clone, Copy)]
pub(crate) struct Seen {
    pub(crate) named: bool,
    pub(crate) free: Option<u32>,
}

/// Looks at the entry at a place of a block, which is this place of the directory.
fn look_at(
    seen: &mut Seen,
    block: &[u8; 1024],
    kind: FsKind,
    at: u16,
    place: u32,
    wish: &Wish<'_>,
    taken: &Taken,
)
    requires { at < entries_per_block (kind_view kind) }
    ensures { (entries : List Entry) → length entries ≡ place
        → Sees wish.now.directory wish.now.name.now taken.now.promises entries seen.old
        → Sees wish.now.directory wish.now.name.now taken.now.promises
        (entries ++ (entry_in (kind_view kind) block.now at ∷ [])) seen.new }
{
    let entry = entry_at(block, kind, at);
    if entry.inode != 0 {
        if entry.name == wish.name {
            seen.named = true;
        }
    } else if seen.free.is_none() && !taken.has_promised(wish.directory, place) {
        seen.free = Some(place);
    }
}

/// Looks at the first entries of a block, whose first place is this one of the directory.
fn look_in(
    seen: &mut Seen,
    block: &[u8; 1024],
    kind: FsKind,
    count: u16,
    first: u32,
    wish: &Wish<'_>,
    taken: &Taken,
)
    requires few { count ≤ entries_per_block (kind_view kind) }
    requires fits { first + count < 2 ^ 32 }
    ensures { (entries : List Entry) → length entries ≡ first
        → Sees wish.now.directory wish.now.name.now taken.now.promises entries seen.old
        → Sees wish.now.directory wish.now.name.now taken.now.promises
        (entries ++ first_entries (kind_view kind) block.now count) seen.new }
{
    for at in 0..count {
        look_at(seen, block, kind, at, first + u32::from(at), wish, taken);
    }
}

/// Looks at a directory. Each of its blocks is read once.
pub(crate) fn look<D: Disks>(
    volume: &mut Volume<'_, D>,
    node: &Inode,
    wish: &Wish<'_>,
    taken: &Taken,
) -> Result<Seen, ZoneFault>
    requires { is_size (kind_view volume.old.layout.kind) node.now.size ≡ true }
    ensures seen { Told (past_of volume.old) (λ now.
        Looks wish.now.directory wish.now.name.now taken.now.promises result
        (all_entries (super_view volume.old.layout) (parts_of (volume_view volume.old) now) (inode_view node.now))) }
    ensures cause { IfErr result (HasZoneCause (faults_of volume.old) (faults_of volume.new)) }
    ensures later { faults_of volume.old ≤ faults_of volume.new }
    ensures same { SameVolume volume.old volume.new }
{
    let kind = volume.layout().kind;
    let per = u32::from(entries_per_block(kind));
    let all = places(node, kind);
    let blocks = directory_blocks(node, kind);
    let mut seen = Seen {
        named: false,
        free: None,
    };
    let mut block = [0; 1024];
    for index in 0..blocks {
        read_at(volume, node, index, &mut block)?;
        let first = index * per;
        let count = per.min(all - first) as u16;
        look_in(&mut seen, &block, kind, count, first, wish, taken);
    }
    Ok(seen)
}
