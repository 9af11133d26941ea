// `ls`: a directory is listed.
ghost use Rattle.std.specs.Prelude.{◌≡◌, ◌≤◌, ◌<◌, ◌∷◌, ◌++◌, codes, decimal, map, IfOk, IfErr};
ghost use Rattle.disk_trait.specs.Past.{Told};
ghost use Rattle.stream_trait.specs.Shows.{HasFailed};
ghost use Rattle.lilo_model.specs.MinixLayout.{reach};
ghost use Rattle.lilo_model.specs.MinixParts.{parts_of};
ghost use Rattle.lilo_model.specs.MinixEntries.{entry_with, is_dots};
ghost use Rattle.lilo_model.specs.LdiskVerdict.{silent, piece_verdict, directory_found, entry_text, entry_line};
ghost use Rattle.lilo_model.specs.LdiskVerdict.{kind_letter, named_node, listing_verdict, ls_verdict};
ghost use Rattle.minix_layout.specs.View.{kind_view, super_view, inode_view};
ghost use Rattle.minix_zones.specs.Volume.{volume_view, past_of, faults_of, SameVolume};
ghost use Rattle.minix_tree.specs.View.{IsStat};
ghost use Rattle.minix_tree.specs.Directory.{without_place};
ghost use Rattle.ldisk_run.specs.Listing.{block_verdict, lines_behind};
ghost use Rattle.ldisk_run.specs.Pieces.{sink_of, held_by, Adds};
ghost use Rattle.ldisk_run.specs.Run.{Gives, HasCause, Does};

use crate::halt::{Halt, tree_halt};
use crate::pieces::Pieces;
use arrayvec::ArrayVec;
use disk_trait::Disks;
use itoa::Buffer;
use minix_layout::Inode;
use minix_tree::{
    DirEntry, Entries, Stat, directory_blocks, entries_among, is_directory, is_file, is_link,
    lookup, read_entries, stat_of,
};
use minix_zones::Volume;
use stream_trait::Sink;

/// What a line has before the name: a letter, a space, a size of up to ten digits, and a space.
type Head = ArrayVec<u8, 13>;

/// Lists the directory at a path.
#[tactic(auto, unfolding(lilo_model::specs::LdiskVerdict::ls_verdict))]
pub(crate) fn ls<D: Disks, O: Sink>(
    volume: &mut Volume<'_, D>,
    path: &[u8],
    out: &mut Pieces<'_, O>,
) -> Result<(), Halt>
    ensures does { Told (past_of volume.old) (λ now. Does
        (ls_verdict (super_view volume.old.layout) (parts_of (volume_view volume.old) now) path.now) result
        (held_by O.Sink out.old) (held_by O.Sink out.new)) }
    ensures cause { IfErr result (HasCause (faults_of volume.old) (faults_of volume.new)) }
    ensures later { faults_of volume.old ≤ faults_of volume.new }
    ensures same { SameVolume volume.old volume.new }
    ensures sink { HasFailed (sink_of O.Sink out.old) (sink_of O.Sink out.new) }
    ensures same_reference { out.new.out.out.ghost_name ≡ out.old.out.out.ghost_name }
{
    let stat = find_directory(volume, path)?;
    put_directory(volume, &stat, out)
}

/// The directory at a path.
#[tactic(auto, unfolding(lilo_model::specs::LdiskVerdict::directory_found))]
fn find_directory<D: Disks>(volume: &mut Volume<'_, D>, path: &[u8]) -> Result<Stat, Halt>
    ensures found { Told (past_of volume.old) (λ now. Gives (λ stat. inode_view stat.node) result
        (directory_found (super_view volume.old.layout) (parts_of (volume_view volume.old) now) path.now)) }
    ensures fits { IfOk result (IsStat volume.old.layout) }
    ensures cause { IfErr result (HasCause (faults_of volume.old) (faults_of volume.new)) }
    ensures later { faults_of volume.old ≤ faults_of volume.new }
    ensures same { SameVolume volume.old volume.new }
{
    match lookup(volume, path) {
        Ok(stat) if is_directory(&stat.node) => Ok(stat),
        Ok(_) => Err(Halt::Refused),
        Err(fault) => Err(tree_halt(fault)),
    }
}

/// Lists the blocks of a directory.
fn put_directory<D: Disks, O: Sink>(
    volume: &mut Volume<'_, D>,
    stat: &Stat,
    out: &mut Pieces<'_, O>,
) -> Result<(), Halt>
    requires { IsStat volume.old.layout stat.now }
    ensures does { Told (past_of volume.old) (λ now. Does
        (listing_verdict (super_view volume.old.layout) (parts_of (volume_view volume.old) now)
        (inode_view stat.now.node)) result
        (held_by O.Sink out.old) (held_by O.Sink out.new)) }
    ensures cause { IfErr result (HasCause (faults_of volume.old) (faults_of volume.new)) }
    ensures later { faults_of volume.old ≤ faults_of volume.new }
    ensures same { SameVolume volume.old volume.new }
    ensures sink { HasFailed (sink_of O.Sink out.old) (sink_of O.Sink out.new) }
    ensures same_reference { out.new.out.out.ghost_name ≡ out.old.out.out.ghost_name }
{
    let kind = volume.layout().kind;
    for index in 0..directory_blocks(&stat.node, kind) {
        put_entries(volume, stat, index, out)?;
    }
    Ok(())
}

/// Lists a block of a directory.
#[tactic(auto, unfolding(crate::specs::Listing::block_verdict))]
fn put_entries<D: Disks, O: Sink>(
    volume: &mut Volume<'_, D>,
    stat: &Stat,
    index: u32,
    out: &mut Pieces<'_, O>,
) -> Result<(), Halt>
    requires { index < reach (kind_view volume.old.layout.kind) }
    ensures does { Told (past_of volume.old) (λ now. Does
        (block_verdict (super_view volume.old.layout) (parts_of (volume_view volume.old) now)
        (inode_view stat.now.node) index) result
        (held_by O.Sink out.old) (held_by O.Sink out.new)) }
    ensures cause { IfErr result (HasCause (faults_of volume.old) (faults_of volume.new)) }
    ensures later { faults_of volume.old ≤ faults_of volume.new }
    ensures same { SameVolume volume.old volume.new }
    ensures sink { HasFailed (sink_of O.Sink out.old) (sink_of O.Sink out.new) }
    ensures same_reference { out.new.out.out.ghost_name ≡ out.old.out.out.ghost_name }
{
    let mut block = [0; 1024];
    let count = match read_entries(volume, &stat.node, index, &mut block) {
        Ok(count) => count,
        Err(fault) => return Err(tree_halt(fault)),
    };
    let kind = volume.layout().kind;
    put_each(volume, entries_among(&block, kind, count), out)
}

/// Lists entries.
fn put_each<D: Disks, O: Sink>(
    volume: &mut Volume<'_, D>,
    entries: Entries<'_>,
    out: &mut Pieces<'_, O>,
) -> Result<(), Halt>
    ensures does { Told (past_of volume.old) (λ now. Does
        (lines_behind (super_view volume.old.layout) (parts_of (volume_view volume.old) now) (silent 0)
        (map without_place entries.entry)) result
        (held_by O.Sink out.old) (held_by O.Sink out.new)) }
    ensures cause { IfErr result (HasCause (faults_of volume.old) (faults_of volume.new)) }
    ensures later { faults_of volume.old ≤ faults_of volume.new }
    ensures same { SameVolume volume.old volume.new }
    ensures sink { HasFailed (sink_of O.Sink out.old) (sink_of O.Sink out.new) }
    ensures same_reference { out.new.out.out.ghost_name ≡ out.old.out.out.ghost_name }
{
    for entry in entries {
        put_entry(volume, &entry, out)?;
    }
    Ok(())
}

/// Lists an entry that isn't free, unless it is `.` or `..`.
#[tactic(auto, unfolding(lilo_model::specs::LdiskVerdict::entry_text, lilo_model::specs::LdiskVerdict::has_line))]
fn put_entry<D: Disks, O: Sink>(
    volume: &mut Volume<'_, D>,
    entry: &DirEntry<'_>,
    out: &mut Pieces<'_, O>,
) -> Result<(), Halt>
    ensures does { Told (past_of volume.old) (λ now. Does (piece_verdict
        (entry_text (super_view volume.old.layout) (parts_of (volume_view volume.old) now)
        (entry_with entry.now.inode entry.now.name.now))) result
        (held_by O.Sink out.old) (held_by O.Sink out.new)) }
    ensures cause { IfErr result (HasCause (faults_of volume.old) (faults_of volume.new)) }
    ensures later { faults_of volume.old ≤ faults_of volume.new }
    ensures same { SameVolume volume.old volume.new }
    ensures sink { HasFailed (sink_of O.Sink out.old) (sink_of O.Sink out.new) }
    ensures same_reference { out.new.out.out.ghost_name ≡ out.old.out.out.ghost_name }
{
    if entry.inode == 0 || is_dots(entry.name) {
        return Ok(());
    }
    let stat = named(volume, entry.inode)?;
    put_line(&stat.node, entry.name, out);
    Ok(())
}

/// The inode that an entry names.
#[tactic(auto, unfolding(lilo_model::specs::LdiskVerdict::named_node))]
fn named<D: Disks>(volume: &mut Volume<'_, D>, inode: u32) -> Result<Stat, Halt>
    requires { 1 ≤ inode }
    ensures found { Told (past_of volume.old) (λ now. Gives (λ stat. inode_view stat.node) result
        (named_node (super_view volume.old.layout) (parts_of (volume_view volume.old) now) inode)) }
    ensures cause { IfErr result (HasCause (faults_of volume.old) (faults_of volume.new)) }
    ensures later { faults_of volume.old ≤ faults_of volume.new }
    ensures same { SameVolume volume.old volume.new }
{
    if inode > volume.layout().inodes {
        return Err(Halt::Refused);
    }
    match stat_of(volume, inode) {
        Ok(stat) => Ok(stat),
        Err(fault) => Err(tree_halt(fault)),
    }
}

/// Whether a name is `.` or `..`.
#[tactic(auto, unfolding(lilo_model::specs::MinixEntries::is_dots))]
fn is_dots(name: &[u8]) -> bool
    ensures { result ≡ is_dots name.now }
{
    matches!(name, [b'.'] | [b'.', b'.'])
}

/// Adds the line of an entry.
#[tactic(auto, unfolding(lilo_model::specs::LdiskVerdict::entry_line))]
fn put_line<O: Sink>(inode: &Inode, name: &[u8], out: &mut Pieces<'_, O>)
    ensures adds { Adds (held_by O.Sink out.old) (entry_line (inode_view inode.now) name.now)
        (held_by O.Sink out.new) }
    ensures sink { HasFailed (sink_of O.Sink out.old) (sink_of O.Sink out.new) }
    ensures same_reference { out.new.out.out.ghost_name ≡ out.old.out.out.ghost_name }
{
    out.put(line_head(inode).as_slice());
    out.put(name);
    out.put(b"\n");
}

/// What a line has before the name.
fn line_head(inode: &Inode) -> Head
    ensures { result.items
        ≡ kind_letter (inode_view inode.now) ∷ (codes " " ++ decimal (inode_view inode.now).size ++ codes " ") }
{
    let mut head = Head::new();
    head.push(kind_letter(inode));
    head.push(b' ');
    let mut digits = Buffer::new();
    let _ = head.try_extend_from_slice(digits.format(inode.size).as_bytes());
    head.push(b' ');
    head
}

/// The letter of an inode's kind.
#[tactic(auto, unfolding(lilo_model::specs::LdiskVerdict::kind_letter))]
fn kind_letter(inode: &Inode) -> u8
    ensures { result ≡ kind_letter (inode_view inode.now) }
{
    if is_file(inode) {
        b'f'
    } else if is_directory(inode) {
        b'd'
    } else if is_link(inode) {
        b'l'
    } else {
        b'o'
    }
}
