ghost use Rattle.std.specs.Prelude.{◌≡◌, ◌+◌, ◌≤◌, true, length};
ghost use Rattle.lilo_model.specs.Table.{is_set, entry_name, is_printable, is_name, has_flags, has_video};
ghost use Rattle.lilo_model.specs.Table.{has_length, has_main, has_initrd, has_extra, is_entry, descriptor_of};
ghost use Rattle.lilo_model.specs.Table.{descriptor_bytes};
ghost use Rattle.lilo_model.specs.Bytes.{with_part};
ghost use Rattle.boot_map.specs.View.{descriptor_view};
ghost use Rattle.boot_map.specs.Ranges.{IsNamed, HasSectors, FitsFlags, HasEntrySlots};

use crate::flags;
use crate::one_slot::{is_one_slot, is_zero, put_some_slot, slot_of, some_slot};
use crate::text::copy_of;
use arrayvec::ArrayVec;
use sector_address::Slot;
use sector_parts::{FieldRef, Sector, put_name, put_u16, put_u32};

/// What one name starts.
#[derive(Clone, Debug, PartialEq, Eq, Default, Drop)]
pub struct Descriptor {
    /// The name, 1 to 15 bytes 0x21 to 0x7E.
    pub name: ArrayVec<u8, 15>,
    /// The flags that are set.
    pub flags: u16,
    /// The video mode, or 0 without its flag.
    pub vga: u16,
    /// The length of the main file in bytes.
    pub length: u32,
    /// The length of the initrd in bytes.
    pub initrd_length: u32,
    /// Where the sector of the options lies.
    pub options: Slot,
    /// Where the main file's first section sector lies.
    pub first: Slot,
    /// Where the initrd's first section sector lies, if there is an initrd.
    pub initrd: Option<Slot>,
    /// How many section sectors the main file has.
    pub chain: u16,
    /// How many section sectors the initrd has.
    pub initrd_chain: u16,
    /// Where the sector of the password or the fallback lies, if there is one.
    pub extra: Option<Slot>,
}

impl Descriptor {
    // Writes the 64 bytes of a descriptor from an offset of a sector on.
    #[tactic(auto, unfolding(lilo_model::specs::Table::descriptor_bytes))]
    pub(crate) fn put(&self, sector: &mut Sector, at: usize)
        requires inside { at + 64 ≤ 512 }
        requires slots { HasEntrySlots self.now }
        ensures bytes { sector.new ≡ with_part sector.old at (descriptor_bytes (descriptor_view self.now)) }
        ensures long { length (descriptor_bytes (descriptor_view self.now)) ≡ 64 }
    {
        put_name(sector, at, 16, &self.name);
        put_u16(sector, at + 16, self.flags);
        put_u16(sector, at + 18, self.vga);
        put_u32(sector, at + 20, self.length);
        put_u32(sector, at + 24, self.initrd_length);
        self.options.put(sector, at + 28);
        self.first.put(sector, at + 36);
        put_some_slot(self.initrd, sector, at + 44);
        put_u16(sector, at + 52, self.chain);
        put_u16(sector, at + 54, self.initrd_chain);
        put_some_slot(self.extra, sector, at + 56);
    }
}

// Whether 64 bytes are a descriptor, whatever the others are.
#[tactic(auto, unfolding(lilo_model::specs::Table::is_entry))]
pub(crate) fn is_entry(bytes: &[u8]) -> bool
    requires { length bytes.now ≡ 64 }
    ensures { result ≡ is_entry bytes.now }
{
    is_name(bytes)
        && (has_flags(bytes) && has_video(bytes))
        && has_main(bytes)
        && has_initrd(bytes)
        && has_extra(bytes)
}

// The name of a descriptor.
#[tactic(auto, unfolding(lilo_model::specs::Table::entry_name))]
pub(crate) fn entry_name(bytes: &[u8]) -> &[u8]
    requires { length bytes.now ≡ 64 }
    ensures name { result.now ≡ entry_name bytes.now }
    ensures fits { length result.now ≤ 15 }
{
    FieldRef { bytes }.name(0, 15)
}

// Whether all bytes are 0x21 to 0x7E.
#[tactic(auto, unfolding(lilo_model::specs::Table::is_printable))]
fn is_printable(text: &[u8]) -> bool
    ensures { result ≡ is_printable text.now }
{
    text.iter().all(|byte| matches!(*byte, 0x21..=0x7E))
}

// Whether the name isn't empty, all of it is printable, and zeros fill its field.
#[tactic(auto, unfolding(lilo_model::specs::Table::is_name))]
fn is_name(bytes: &[u8]) -> bool
    requires { length bytes.now ≡ 64 }
    ensures { result ≡ is_name bytes.now }
{
    let name = entry_name(bytes);
    !name.is_empty() && is_printable(name) && is_zero(&bytes[name.len()..16])
}

// Whether a flag of a descriptor is set.
#[tactic(auto, unfolding(lilo_model::specs::Table::is_set))]
fn is_set(bytes: &[u8], flag: u16) -> bool
    requires { length bytes.now ≡ 64 }
    ensures { result ≡ is_set bytes.now flag }
{
    FieldRef { bytes }.u16_at(16) & flag != 0
}

// Whether the flags are known ones that go together.
#[tactic(auto, unfolding(lilo_model::specs::Table::has_flags))]
fn has_flags(bytes: &[u8]) -> bool
    requires { length bytes.now ≡ 64 }
    ensures { result ≡ has_flags bytes.now }
{
    FieldRef { bytes }.u16_at(16) < 0x100
        && !(is_set(bytes, flags::LOCK) && is_set(bytes, flags::FALLBACK))
        && (!is_set(bytes, flags::RESTRICTED) || is_set(bytes, flags::PASSWORD))
        && (!is_set(bytes, flags::TABLE) || is_set(bytes, flags::OTHER))
}

// Whether another system has neither video mode nor initrd, and a video mode has its flag.
#[tactic(auto, unfolding(lilo_model::specs::Table::has_video))]
fn has_video(bytes: &[u8]) -> bool
    requires { length bytes.now ≡ 64 }
    ensures { result ≡ has_video bytes.now }
{
    !(is_set(bytes, flags::OTHER) && (is_set(bytes, flags::VIDEO) || is_set(bytes, flags::INITRD)))
        && (is_set(bytes, flags::VIDEO) || FieldRef { bytes }.u16_at(18) == 0)
}

// Whether the main file has a length that its flags allow.
#[tactic(auto, unfolding(lilo_model::specs::Table::has_length))]
fn has_length(bytes: &[u8]) -> bool
    requires { length bytes.now ≡ 64 }
    ensures { result ≡ has_length bytes.now }
{
    let length = FieldRef { bytes }.u32_at(20);
    if !is_set(bytes, flags::OTHER) {
        length != 0
    } else if is_set(bytes, flags::TABLE) {
        length == 1024
    } else {
        length == 512
    }
}

// Whether the main file has a length, a section sector, its slot and the slot of its options.
#[tactic(auto, unfolding(lilo_model::specs::Table::has_main))]
fn has_main(bytes: &[u8]) -> bool
    requires { length bytes.now ≡ 64 }
    ensures { result ≡ has_main bytes.now }
{
    has_length(bytes)
        && FieldRef { bytes }.u16_at(52) != 0
        && is_one_slot(&bytes[28..36])
        && is_one_slot(&bytes[36..44])
}

// Whether the initrd is there as a whole, or not at all.
#[tactic(auto, unfolding(lilo_model::specs::Table::has_initrd))]
fn has_initrd(bytes: &[u8]) -> bool
    requires { length bytes.now ≡ 64 }
    ensures { result ≡ has_initrd bytes.now }
{
    let fields = FieldRef { bytes };
    if is_set(bytes, flags::INITRD) {
        is_one_slot(&bytes[44..52]) && fields.u16_at(54) != 0
    } else {
        is_zero(&bytes[44..52]) && fields.u16_at(54) == 0 && fields.u32_at(24) == 0
    }
}

// Whether the extra sector is there where a password or a fallback needs it, and only there.
#[tactic(auto, unfolding(lilo_model::specs::Table::has_extra))]
fn has_extra(bytes: &[u8]) -> bool
    requires { length bytes.now ≡ 64 }
    ensures { result ≡ has_extra bytes.now }
{
    if is_set(bytes, flags::PASSWORD) || is_set(bytes, flags::FALLBACK) {
        is_one_slot(&bytes[56..64])
    } else {
        is_zero(&bytes[56..64])
    }
}

// The fields of 64 bytes that are a descriptor.
#[tactic(auto, unfolding(lilo_model::specs::Table::descriptor_of, lilo_model::specs::Table::is_entry, lilo_model::specs::Table::has_main, lilo_model::specs::Table::has_initrd, lilo_model::specs::Table::has_extra, lilo_model::specs::Table::is_name))]
pub(crate) fn descriptor_of(bytes: &[u8]) -> Descriptor
    requires length { length bytes.now ≡ 64 }
    requires entry { is_entry bytes.now ≡ true }
    ensures value { descriptor_view result ≡ descriptor_of bytes.now }
    ensures name { IsNamed result }
    ensures sectors { HasSectors result }
    ensures flags { FitsFlags result }
{
    let fields = FieldRef { bytes };
    Descriptor {
        name: copy_of(entry_name(bytes)),
        flags: fields.u16_at(16),
        vga: fields.u16_at(18),
        length: fields.u32_at(20),
        initrd_length: fields.u32_at(24),
        options: slot_of(&bytes[28..36]),
        first: slot_of(&bytes[36..44]),
        initrd: some_slot(&bytes[44..52]),
        chain: fields.u16_at(52),
        initrd_chain: fields.u16_at(54),
        extra: some_slot(&bytes[56..64]),
    }
}
