// Inodes.
ghost use Rattle.std.specs.Prelude.{◌≡◌, ◌+◌, ◌*◌, ◌<◌, ◌≤◌, ◌^◌, [], ◌∷◌, ◌++◌, length, All, IfOk};
ghost use Rattle.lilo_model.specs.Checks.{seen};
ghost use Rattle.lilo_model.specs.Bytes.{number16, number32, with_part};
ghost use Rattle.lilo_model.specs.MinixLayout.{inode_size, inode_at, inode_of, inode_bytes, v1_inode, v2_inode};
ghost use Rattle.lilo_model.specs.MinixLayout.{v1_inode_bytes, v2_inode_bytes, numbers16, numbers32, bytes16_of};
ghost use Rattle.lilo_model.specs.MinixLayout.{bytes32_of, most_links, number_size, is_v1, is_size, V2Short, FitsInode};
ghost use Rattle.minix_layout.specs.View.{kind_view, layout_fault_view, inode_view};

use crate::kind::FsKind;
use crate::layout_fault::{LayoutFault, SizeField};
use sector_parts::{FieldMut, FieldRef};
use std::array;

/// The greatest size of a file in version 1: what its inode can name, (7 + 512 + 512 * 512) * 1024.
const V1_LIMIT: u32 = 268_966_912;

/// What an inode says.
#[derive(Clone, Copy, Debug, PartialEq, Eq)]
pub struct Inode {
    /// The kind of file in the top four bits, and the rights.
    pub mode: u16,
    /// How many names it has.
    pub links: u16,
    pub uid: u16,
    pub gid: u16,
    /// The bytes of the file.
    pub size: u32,
    /// When it was read last, when its content changed last, and when it itself did.
    pub times: [u32; 3],
    /// Seven zones of data, and indirect zones of one, two and three levels.
    pub zones: [u32; 10],
}

impl Inode {
    /// Reads the bytes of an inode. `BadSize(FileSize)` is for a size that version 1 can't have.
    #[tactic(auto, unfolding(lilo_model::specs::MinixLayout::inode_at, lilo_model::specs::MinixLayout::inode_of))]
    pub fn read(part: &FieldRef<'_>, kind: FsKind) -> Result<Inode, LayoutFault>
        requires { length part.now.bytes.now ≡ inode_size (kind_view kind) }
        ensures read { seen inode_view layout_fault_view result ≡ inode_at (kind_view kind) part.now.bytes.now }
        ensures fits { IfOk result (λ inode. FitsInode (kind_view kind) (inode_view inode)) }
    {
        if !kind.is_v1() {
            return Ok(v2_inode(part));
        }
        let inode = v1_inode(part);
        if inode.size > V1_LIMIT {
            return Err(LayoutFault::BadSize(SizeField::FileSize));
        }
        Ok(inode)
    }

    /// Writes the bytes of an inode. Version 1 takes the second of the times, and nine zones.
    #[tactic(auto, unfolding(lilo_model::specs::MinixLayout::inode_bytes))]
    pub fn write_into(&self, part: &mut FieldMut<'_>, kind: FsKind)
        requires length { length part.old.bytes.now ≡ inode_size (kind_view kind) }
        requires links { self.now.links ≤ most_links (kind_view kind) }
        requires gid { self.now.gid ≤ most_links (kind_view kind) }
        requires zones { All (λ zone. zone < 256 ^ number_size (kind_view kind)) self.now.zones }
        ensures bytes { part.new.bytes.now ≡ inode_bytes (kind_view kind) (inode_view self.now) }
        ensures same_reference { part.new.bytes.ghost_name ≡ part.old.bytes.ghost_name }
    {
        if kind.is_v1() {
            self.put_v1(part);
        } else {
            self.put_v2(part);
        }
    }

    // Writes the bytes of version 1.
    #[tactic(auto, unfolding(lilo_model::specs::MinixLayout::v1_inode_bytes))]
    fn put_v1(&self, part: &mut FieldMut<'_>)
        requires length { length part.old.bytes.now ≡ 32 }
        requires links { self.now.links < 256 }
        requires gid { self.now.gid < 256 }
        requires zones { All (λ zone. zone < 2 ^ 16) self.now.zones }
        ensures bytes { part.new.bytes.now ≡ v1_inode_bytes (inode_view self.now) }
        ensures same_reference { part.new.bytes.ghost_name ≡ part.old.bytes.ghost_name }
    {
        part.put_u16(0, self.mode);
        part.put_u16(2, self.uid);
        part.put_u32(4, self.size);
        part.put_u32(8, self.times[1]);
        part.put_u8(12, self.gid as u8);
        part.put_u8(13, self.links as u8);
        put_numbers16(part, 14, &self.zones[..9]);
    }

    // Writes the bytes of version 2.
    #[tactic(auto, unfolding(lilo_model::specs::MinixLayout::v2_inode_bytes))]
    fn put_v2(&self, part: &mut FieldMut<'_>)
        requires { length part.old.bytes.now ≡ 64 }
        ensures bytes { part.new.bytes.now ≡ v2_inode_bytes (inode_view self.now) }
        ensures same_reference { part.new.bytes.ghost_name ≡ part.old.bytes.ghost_name }
    {
        part.put_u16(0, self.mode);
        part.put_u16(2, self.links);
        part.put_u16(4, self.uid);
        part.put_u16(6, self.gid);
        part.put_u32(8, self.size);
        put_numbers32(part, 12, &self.times);
        put_numbers32(part, 24, &self.zones);
    }
}

// ---- version 1

// The fields of an inode in version 1.
#[tactic(auto, unfolding(lilo_model::specs::MinixLayout::v1_inode))]
fn v1_inode(part: &FieldRef<'_>) -> Inode
    requires { length part.now.bytes.now ≡ 32 }
    ensures read { inode_view result ≡ v1_inode part.now.bytes.now }
    ensures bytes_fit { (result.links < 256) × (result.gid < 256) }
    ensures zones_fit { All (λ zone. zone < 2 ^ 16) result.zones }
{
    Inode {
        mode: part.u16_at(0),
        links: u16::from(part.u8_at(13)),
        uid: part.u16_at(2),
        gid: u16::from(part.u8_at(12)),
        size: part.u32_at(4),
        times: [part.u32_at(8); 3],
        zones: v1_zones(part),
    }
}

// Nine numbers of two bytes, and a tenth zone that version 1 doesn't have.
fn v1_zones(part: &FieldRef<'_>) -> [u32; 10]
    requires { length part.now.bytes.now ≡ 32 }
    ensures read { result ≡ numbers16 part.now.bytes.now 14 9 ++ (0 ∷ []) }
    ensures fit { All (λ zone. zone < 2 ^ 16) result }
{
    array::from_fn(|index| {
        if index < 9 {
            u32::from(part.u16_at(14 + 2 * index))
        } else {
            0
        }
    })
}

// Writes numbers of two bytes each, from an offset on.
fn put_numbers16(part: &mut FieldMut<'_>, at: usize, numbers: &[u32])
    requires inside { at + 2 * length numbers.now ≤ length part.old.bytes.now }
    requires small { All (λ number. number < 2 ^ 16) numbers.now }
    ensures bytes { part.new.bytes.now ≡ with_part part.old.bytes.now at (bytes16_of numbers.now) }
    ensures same_reference { part.new.bytes.ghost_name ≡ part.old.bytes.ghost_name }
{
    for (index, number) in numbers.iter().enumerate() {
        part.put_u16(at + 2 * index, *number as u16);
    }
}

// ---- version 2

// The fields of an inode in version 2.
#[tactic(auto, unfolding(lilo_model::specs::MinixLayout::v2_inode))]
fn v2_inode(part: &FieldRef<'_>) -> Inode
    requires { length part.now.bytes.now ≡ 64 }
    ensures read { inode_view result ≡ v2_inode part.now.bytes.now }
    ensures fits { FitsInode V2Short (inode_view result) }
{
    Inode {
        mode: part.u16_at(0),
        links: part.u16_at(2),
        uid: part.u16_at(4),
        gid: part.u16_at(6),
        size: part.u32_at(8),
        times: v2_times(part),
        zones: v2_zones(part),
    }
}

fn v2_times(part: &FieldRef<'_>) -> [u32; 3]
    requires { length part.now.bytes.now ≡ 64 }
    ensures { result ≡ numbers32 part.now.bytes.now 12 3 }
{
    array::from_fn(|index| part.u32_at(12 + 4 * index))
}

fn v2_zones(part: &FieldRef<'_>) -> [u32; 10]
    requires { length part.now.bytes.now ≡ 64 }
    ensures { result ≡ numbers32 part.now.bytes.now 24 10 }
{
    array::from_fn(|index| part.u32_at(24 + 4 * index))
}

// Writes numbers of four bytes each, from an offset on.
fn put_numbers32(part: &mut FieldMut<'_>, at: usize, numbers: &[u32])
    requires { at + 4 * length numbers.now ≤ length part.old.bytes.now }
    ensures bytes { part.new.bytes.now ≡ with_part part.old.bytes.now at (bytes32_of numbers.now) }
    ensures same_reference { part.new.bytes.ghost_name ≡ part.old.bytes.ghost_name }
{
    for (index, number) in numbers.iter().enumerate() {
        part.put_u32(at + 4 * index, *number);
    }
}
