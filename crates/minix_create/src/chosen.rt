// What is chosen for a file, before anything is written.
ghost use Rattle.std.specs.Prelude.{◌≡◌, ◌≢◌, ◌+◌, ◌≤◌, ◌<◌, true, All, IfOk, IfErr, OnErr};
ghost use Rattle.disk_trait.specs.Past.{Told};
ghost use Rattle.lilo_model.specs.MinixLayout.{is_size};
ghost use Rattle.lilo_model.specs.MinixParts.{parts_of, blocks_for};
ghost use Rattle.minix_create.specs.Chosen.{
  IsMade,
  Suits,
  HasEachZone,
  IsFreeWhereSound,
  LinksWhereSound,
};
ghost use Rattle.minix_create.specs.Several.{PromisesWhereFree};
ghost use Rattle.minix_layout.specs.View.{kind_view, super_view};
ghost use Rattle.minix_choice.specs.Taken.{with_choice};
ghost use Rattle.minix_choice.specs.View.{taken_view, wish_view, Gives, HasWriteCause};
ghost use Rattle.minix_zones.specs.Volume.{volume_view, past_of, faults_of, SameVolume};
ghost use Rattle.write_model.specs.Choice.{choose};

use conf_text::Text;
use disk_trait::Disks;
use minix_choice::{Choice, Taken, Wish, WriteFault};
use minix_zones::Volume;
use std::alloc::Global;

/// What is chosen for a file: its inode, its zones and its place in a directory, with what was wished.
#[derive(Drop)]
pub struct Chosen {
    pub(crate) choice: Choice,
    pub(crate) mode: u16,
    pub(crate) length: u32,
    pub(crate) time: u32,
    pub(crate) directory: u32,
    pub(crate) name: Text,
    /// The first sector of the volume on its disk.
    pub(crate) start: u64,
}

/// What is chosen for a wish, as minix_choice chooses it. Nothing is written.
///
/// # Errors
///
/// Those of minix_choice's `choose`, in its order. Nothing more is taken then.
pub fn choose<D: Disks>(
    alloc: Global,
    volume: &mut Volume<'_, D>,
    wish: &Wish<'_>,
    taken: &mut Taken,
) -> Result<Chosen, WriteFault>
    requires some { 1 ≤ wish.now.directory }
    requires there { wish.now.directory ≤ volume.old.layout.inodes }
    requires inodes { volume.old.layout.inodes < taken.old.inodes.below }
    requires zones { volume.old.layout.zones ≤ taken.old.zones.below }
    requires holes { All (λ hole. hole < blocks_for wish.now.length) wish.now.holes.now }
    requires no_zero { All (λ byte. byte ≢ 0) wish.now.name.now }
    requires sized { is_size (kind_view volume.old.layout.kind) wish.now.length ≡ true }

    // What is answered.
    ensures choice { Told (past_of volume.old) (λ now. Gives (λ chosen. chosen.choice) result
        (choose (super_view volume.old.layout) (parts_of (volume_view volume.old) now) (taken_view taken.old)
        (wish_view wish.now))) }
    ensures taken { IfOk result (λ chosen. taken.new ≡ with_choice taken.old wish.now.directory chosen.choice) }
    ensures made { IfOk result (IsMade wish.now) }
    ensures suits { IfOk result (Suits volume.old.layout volume.old.span) }
    ensures whole { IfOk result (HasEachZone volume.new wish.now) }

    // What may be done with it.
    ensures free { IfOk result (IsFreeWhereSound volume.new (taken_view taken.old)) }
    ensures name { IfOk result (LinksWhereSound volume.new (taken_view taken.old)) }

    // What it has in common with what was chosen before.
    ensures promises { IfOk result (PromisesWhereFree volume.new (taken_view taken.old) (taken_view taken.new)) }

    // When it is refused.
    ensures refused { OnErr result (taken.new ≡ taken.old) }
    ensures cause { IfErr result (HasWriteCause (faults_of volume.old) (faults_of volume.new)) }
    ensures later { faults_of volume.old ≤ faults_of volume.new }
    ensures same { SameVolume volume.old volume.new }
{
    let name = Text::new(alloc, wish.name)?;
    let choice = minix_choice::choose(alloc, volume, wish, taken)?;
    Ok(Chosen {
        choice,
        mode: wish.mode,
        length: wish.length,
        time: wish.time,
        directory: wish.directory,
        name,
        start: volume.span().start,
    })
}

impl Chosen {
    ghost use Rattle.std.specs.Prelude.{◌≡◌, ◌≢◌, ◌+◌, ◌*◌, ◌/◌, ◌%◌, ◌<◌, ◌^◌, length, slice_index};
    ghost use Rattle.minix_create.specs.Chosen.{sector_of};

    /// The inode.
    pub fn inode(&self) -> u32
        ensures { result ≡ self.now.choice.inode }
    {
        self.choice.inode()
    }

    /// For each block of the file the zone in which it will lie, 0 for a hole.
    pub fn blocks(&self) -> &[u32]
        ensures { result.now ≡ self.now.choice.blocks }
    {
        self.choice.blocks()
    }

    /// The sector of the disk in which a sector of the file will lie.
    pub fn sector_of(&self, index: u32) -> u64
        requires there { index / 2 < length self.now.choice.blocks }
        requires some { slice_index self.now.choice.blocks (index / 2) ≢ 0 }
        requires fits { sector_of self.now index < 2 ^ 64 }
        ensures { result ≡ sector_of self.now index }
    {
        let zone = self.choice.blocks()[(index / 2) as usize];
        self.start + 2 * u64::from(zone) + u64::from(index % 2)
    }
}
