// `get`: a file is printed.
ghost use Rattle.std.specs.Prelude.{◌≡◌, ◌≤◌, ◌<◌, IfOk, IfErr};
ghost use Rattle.disk_trait.specs.Past.{Told};
ghost use Rattle.stream_trait.specs.Shows.{HasFailed};
ghost use Rattle.lilo_model.specs.MinixParts.{parts_of};
ghost use Rattle.lilo_model.specs.LdiskVerdict.{piece_verdict, file_found, file_verdict, get_verdict};
ghost use Rattle.lilo_model.specs.MinixLayout.{reach};
ghost use Rattle.lilo_model.specs.MinixFind.{file_block};
ghost use Rattle.minix_layout.specs.View.{kind_view, super_view, inode_view};
ghost use Rattle.minix_zones.specs.Held.{AreHeld};
ghost use Rattle.minix_zones.specs.Volume.{volume_view, past_of, faults_of, SameVolume};
ghost use Rattle.minix_tree.specs.View.{IsStat};
ghost use Rattle.ldisk_run.specs.Pieces.{sink_of, held_by};
ghost use Rattle.ldisk_run.specs.Run.{Gives, HasCause, Does};

use crate::halt::{Halt, tree_halt};
use crate::pieces::Pieces;
use disk_trait::Disks;
use minix_tree::{Stat, is_file, lookup, read_block_through};
use minix_zones::{HeldZones, Volume};
use stream_trait::Sink;

/// Prints the file at a path.
#[tactic(auto, unfolding(lilo_model::specs::LdiskVerdict::get_verdict))]
pub(crate) fn get<D: Disks, O: Sink>(
    volume: &mut Volume<'_, D>,
    path: &[u8],
    out: &mut Pieces<'_, O>,
) -> Result<(), Halt>
    ensures does { Told (past_of volume.old) (λ now. Does
        (get_verdict (super_view volume.old.layout) (parts_of (volume_view volume.old) now) path.now) result
        (held_by O.Sink out.old) (held_by O.Sink out.new)) }
    ensures cause { IfErr result (HasCause (faults_of volume.old) (faults_of volume.new)) }
    ensures later { faults_of volume.old ≤ faults_of volume.new }
    ensures same { SameVolume volume.old volume.new }
    ensures sink { HasFailed (sink_of O.Sink out.old) (sink_of O.Sink out.new) }
    ensures same_reference { out.new.out.out.ghost_name ≡ out.old.out.out.ghost_name }
{
    let stat = find_file(volume, path)?;
    put_file(volume, &stat, out)
}

/// The regular file at a path.
#[tactic(auto, unfolding(lilo_model::specs::LdiskVerdict::file_found))]
fn find_file<D: Disks>(volume: &mut Volume<'_, D>, path: &[u8]) -> Result<Stat, Halt>
    ensures found { Told (past_of volume.old) (λ now. Gives (λ stat. inode_view stat.node) result
        (file_found (super_view volume.old.layout) (parts_of (volume_view volume.old) now) path.now)) }
    ensures fits { IfOk result (IsStat volume.old.layout) }
    ensures cause { IfErr result (HasCause (faults_of volume.old) (faults_of volume.new)) }
    ensures later { faults_of volume.old ≤ faults_of volume.new }
    ensures same { SameVolume volume.old volume.new }
{
    match lookup(volume, path) {
        Ok(stat) if is_file(&stat.node) => Ok(stat),
        Ok(_) => Err(Halt::Refused),
        Err(fault) => Err(tree_halt(fault)),
    }
}

/// Prints the blocks of a file.
fn put_file<D: Disks, O: Sink>(
    volume: &mut Volume<'_, D>,
    stat: &Stat,
    out: &mut Pieces<'_, O>,
) -> Result<(), Halt>
    requires { IsStat volume.old.layout stat.now }
    ensures does { Told (past_of volume.old) (λ now. Does
        (file_verdict (super_view volume.old.layout) (parts_of (volume_view volume.old) now)
        (inode_view stat.now.node)) result
        (held_by O.Sink out.old) (held_by O.Sink out.new)) }
    ensures cause { IfErr result (HasCause (faults_of volume.old) (faults_of volume.new)) }
    ensures later { faults_of volume.old ≤ faults_of volume.new }
    ensures same { SameVolume volume.old volume.new }
    ensures sink { HasFailed (sink_of O.Sink out.old) (sink_of O.Sink out.new) }
    ensures same_reference { out.new.out.out.ghost_name ≡ out.old.out.out.ghost_name }
{
    let mut held = HeldZones::of(volume);
    let blocks = stat.node.size.div_ceil(1024);
    for index in 0..blocks {
        put_block(&mut held, volume, stat, index, out)?;
    }
    Ok(())
}

/// Prints a block of a file.
fn put_block<D: Disks, O: Sink>(
    held: &mut HeldZones,
    volume: &mut Volume<'_, D>,
    stat: &Stat,
    index: u32,
    out: &mut Pieces<'_, O>,
) -> Result<(), Halt>
    requires index { index < reach (kind_view volume.old.layout.kind) }
    requires held { AreHeld volume.old held.old }
    ensures does { Told (past_of volume.old) (λ now. Does (piece_verdict
        (file_block (super_view volume.old.layout) (parts_of (volume_view volume.old) now)
        (inode_view stat.now.node) index)) result
        (held_by O.Sink out.old) (held_by O.Sink out.new)) }
    ensures held { AreHeld volume.new held.new }
    ensures cause { IfErr result (HasCause (faults_of volume.old) (faults_of volume.new)) }
    ensures later { faults_of volume.old ≤ faults_of volume.new }
    ensures same { SameVolume volume.old volume.new }
    ensures sink { HasFailed (sink_of O.Sink out.old) (sink_of O.Sink out.new) }
    ensures same_reference { out.new.out.out.ghost_name ≡ out.old.out.out.ghost_name }
{
    let mut block = [0; 1024];
    match read_block_through(held, volume, stat, index, &mut block) {
        Ok(count) => {
            out.put(&block[..usize::from(count)]);
            Ok(())
        }
        Err(fault) => Err(tree_halt(fault)),
    }
}
