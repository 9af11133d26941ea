// The header's fields that a loader replaces.
ghost use Rattle.std.specs.Prelude.{◌≡◌, ◌++◌, true, false};
ghost use Rattle.std.specs.Option.{option_map};
ghost use Rattle.lilo_model.specs.Header.{is_from, with_fields, video_fields, initrd_fields, loader_fields};
ghost use Rattle.lilo_model.specs.Header.{heap_fields, line_fields, patch};
ghost use Rattle.setup_header.specs.Halves.{in_second};
ghost use Rattle.setup_header.specs.View.{header_view, region_view, layout_view};

use crate::header::{Header, is_from};
use crate::layout::{LINE_ADDRESS, Layout, Region};
use sector_parts::{Sector, put_part, put_u16, put_u32};

/// `type_of_loader`: loader 0, LILO, in its high four bits, and LILO's version 2 in its low ones.
const LOADER: u8 = 0x02;

/// `CAN_USE_HEAP` of `loadflags`.
const CAN_USE_HEAP: u8 = 0x80;

/// The end of the heap, as an offset from the real-mode part, less 0x200.
const HEAP_END: u16 = 0x9600;

/// The magic number of a command line at an offset.
const LINE_MAGIC: u16 = 0xA33F;

/// The command line's offset from the real-mode part.
const LINE_OFFSET: u16 = 0x9800;

/// Replaces the fields of a kernel's first two sectors that its loader sets, and no other byte:
///
/// - `vid_mode` at 0x1FA, where `vga` is a video mode;
/// - in a kernel with a version `type_of_loader` at 0x210, and for an initrd `ramdisk_image` at 0x218 and
///   `ramdisk_size` at 0x21C;
/// - from 2.01 on `heap_end_ptr` at 0x224, and `CAN_USE_HEAP`, bit 7 of `loadflags` at 0x211;
/// - from 2.02 on `cmd_line_ptr` at 0x228, the line's address; before, and without a version, 0xA33F at
///   0x20, and at 0x22 the line's offset from the real-mode part.
pub fn patch(
    header: &Header,
    layout: &Layout,
    vga: Option<u16>,
    first: &mut Sector,
    second: &mut Sector,
)
    ensures { first.new ++ second.new ≡
        patch (header_view header.now) (layout_view layout.now) vga (first.old ++ second.old) }
{
    let flags = second[0x11];
    put_video(first, vga);
    put_loader(second, header.version, layout.initrd);
    put_heap(second, is_from(0x201, header.version), flags);
    if is_from(0x202, header.version) {
        put_line_address(second);
    } else {
        put_line_offset(first);
    }
}

// Writes the video mode, if there is one.
fn put_video(first: &mut Sector, vga: Option<u16>)
    ensures { first.new ≡ with_fields first.old (video_fields vga) }
{
    if let Some(mode) = vga {
        put_u16(first, 0x1FA, mode);
    }
}

// Writes the loader's number and the initrd's fields, where there is a version.
fn put_loader(second: &mut Sector, version: Option<u16>, initrd: Option<Region>)
    ensures { second.new ≡
        with_fields second.old (in_second (loader_fields version (option_map region_view initrd))) }
{
    if version.is_some() {
        put_part(second, 0x10, &[LOADER]);
        put_initrd(second, initrd);
    }
}

// Writes the initrd's address and length, if there is one.
fn put_initrd(second: &mut Sector, initrd: Option<Region>)
    ensures { second.new ≡
        with_fields second.old (in_second (initrd_fields (option_map region_view initrd))) }
{
    if let Some(region) = initrd {
        put_u32(second, 0x18, region.address);
        put_u32(second, 0x1C, region.length);
    }
}

// Writes the end of the heap and the flag that says so, where the protocol has them.
fn put_heap(second: &mut Sector, has_heap: bool, flags: u8)
    ensures { second.new ≡ with_fields second.old (in_second (heap_fields has_heap flags)) }
{
    if has_heap {
        put_u16(second, 0x24, HEAP_END);
        put_part(second, 0x11, &[flags | CAN_USE_HEAP]);
    }
}

// Writes the line's address.
fn put_line_address(second: &mut Sector)
    ensures { second.new ≡ with_fields second.old (in_second (line_fields true)) }
{
    put_u32(second, 0x28, LINE_ADDRESS);
}

// Writes the magic number of a line, and its offset.
fn put_line_offset(first: &mut Sector)
    ensures { first.new ≡ with_fields first.old (line_fields false) }
{
    put_u16(first, 0x20, LINE_MAGIC);
    put_u16(first, 0x22, LINE_OFFSET);
}
