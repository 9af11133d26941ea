// Which zones a file needs, and which it gets.
ghost use Rattle.std.specs.Prelude.{◌≡◌, ◌<◌, ◌≤◌, ◌+◌, ◌*◌, ◌^◌, ◌++◌, All, IfOk, OnOk, length, take, drop};
ghost use Rattle.lilo_model.specs.MinixLayout.{numbers_in_zone};
ghost use Rattle.lilo_model.specs.MinixParts.{blocks_for};
ghost use Rattle.minix_layout.specs.View.{kind_view};
ghost use Rattle.write_model.specs.FileZones.{data_blocks, is_any, count_made, given};
ghost use Rattle.write_model.specs.FileZones.{made_above, made_on, made_indirect};
ghost use Rattle.write_model.specs.Choice.{file_need};

use minix_layout::FsKind;
use minix_zones::{blocks_under, numbers_in_zone};
use std::alloc::{AllocError, Global};

/// For each block of a file whether it gets a zone: it does unless it is a hole.
#[tactic(auto, unfolding(write_model::specs::FileZones::data_blocks))]
pub(crate) fn data_blocks(alloc: Global, size: u32, holes: &[u32]) -> Result<Vec<bool>, AllocError>
    requires { All (λ hole. hole < blocks_for size) holes.now }
    ensures blocks { IfOk result (λ blocks. blocks.items ≡ data_blocks size holes.now) }
    ensures many { IfOk result (λ blocks. length blocks.items ≡ blocks_for size) }
{
    let count = (size as usize + 1023) / 1024;
    let mut blocks = vec![in alloc; true; count]?;
    for hole in holes {
        blocks[*hole as usize] = false;
    }
    Ok(blocks)
}

/// How many of some zones are made.
pub(crate) fn count_made(made: &[bool]) -> usize
    ensures value { result ≡ count_made made.now }
    ensures few { result ≤ length made.now }
{
    made.iter().filter(|it| **it).count()
}

/// Whether any of some zones is made.
fn is_any(made: &[bool]) -> bool
    ensures { result ≡ is_any made.now }
{
    made.iter().any(|it| *it)
}

/// Those of some from one on.
fn from_on<T>(items: &[T], at: usize) -> &[T]
    ensures { result.now ≡ drop at items.now }
{
    &items[at.min(items.len())..]
}

/// The first of some blocks.
fn first_of(blocks: &[bool], len: usize) -> &[bool]
    ensures { result.now ≡ take len blocks.now }
{
    &blocks[..len.min(blocks.len())]
}

/// Appends for an indirect zone above some blocks, and for those between, whether each is made.
#[tactic(auto, unfolding(write_model::specs::FileZones::made_above))]
fn put_above(
    kind: FsKind,
    level: u32,
    blocks: &[bool],
    made: &mut Vec<bool>,
) -> Result<(), AllocError>
    requires { level ≤ 2 }
    ensures { OnOk result (made.new.items
        ≡ made.old.items ++ made_above (numbers_in_zone (kind_view kind)) level blocks.now) }
{
    let any = is_any(blocks);
    made.push(any)?;
    if level == 0 {
        return Ok(());
    }
    let size = blocks_under(kind, level) as usize;
    let mut rest = blocks;
    while rest.len() > 0 {
        put_above(kind, level - 1, first_of(rest, size), made)?;
        rest = from_on(rest, size);
    }
    Ok(())
}

/// The same, where there are blocks.
fn put_on(kind: FsKind, level: u32, blocks: &[bool], made: &mut Vec<bool>) -> Result<(), AllocError>
    requires { level ≤ 2 }
    ensures { OnOk result (made.new.items
        ≡ made.old.items ++ made_on (numbers_in_zone (kind_view kind)) level blocks.now) }
{
    if blocks.is_empty() {
        return Ok(());
    }
    put_above(kind, level, blocks, made)
}

/// For each indirect zone of a file with these blocks, in the order of a walk, whether it is made.
#[tactic(auto, unfolding(write_model::specs::FileZones::made_indirect))]
pub(crate) fn made_indirect(
    alloc: Global,
    kind: FsKind,
    blocks: &[bool],
) -> Result<Vec<bool>, AllocError>
    ensures { IfOk result (λ made. made.items ≡ made_indirect (numbers_in_zone (kind_view kind)) blocks.now) }
{
    let per = numbers_in_zone(kind) as usize;
    let mut made = Vec::new(alloc);
    put_on(kind, 0, first_of(from_on(blocks, 7), per), &mut made)?;
    put_on(
        kind,
        1,
        first_of(from_on(blocks, 7 + per), per * per),
        &mut made,
    )?;
    put_on(kind, 2, from_on(blocks, 7 + per + per * per), &mut made)?;
    Ok(made)
}

/// Gives zones to those that are made, in order, and 0 to the others.
pub(crate) fn given(alloc: Global, made: &[bool], zones: &[u32]) -> Result<Vec<u32>, AllocError>
    ensures { IfOk result (λ found. found.items ≡ given made.now zones.now) }
{
    let mut found = Vec::new(alloc);
    let mut next = 0;
    for it in made {
        let mut zone = 0;
        if *it {
            zone = zones.get(next).copied().unwrap_or(0);
            next += 1;
        }
        found.push(zone)?;
    }
    Ok(found)
}

/// The blocks of a file and its indirect zones, with how many zones they take.
#[derive(Drop)]
pub(crate) struct FileZones {
    pub(crate) blocks: Vec<bool>,
    pub(crate) indirect: Vec<bool>,
    pub(crate) need: u32,
}

/// Which zones a file needs.
#[tactic(auto, unfolding(write_model::specs::Choice::file_need), using(crate::proofs::FileLemmas::few_zones))]
pub(crate) fn file_zones(
    alloc: Global,
    kind: FsKind,
    size: u32,
    holes: &[u32],
) -> Result<FileZones, AllocError>
    requires { All (λ hole. hole < blocks_for size) holes.now }
    ensures blocks { IfOk result (λ file. file.blocks.items ≡ data_blocks size holes.now) }
    ensures indirect { IfOk result (λ file. file.indirect.items
        ≡ made_indirect (numbers_in_zone (kind_view kind)) file.blocks.items) }
    ensures need { IfOk result (λ file. file.need ≡ file_need (kind_view kind) file.blocks.items) }
    ensures few { IfOk result (λ file. file.need < 2 ^ 31) }
{
    let blocks = data_blocks(alloc, size, holes)?;
    let indirect = made_indirect(alloc, kind, &blocks)?;
    let need = (count_made(&blocks) + count_made(&indirect)) as u32;
    Ok(FileZones {
        blocks,
        indirect,
        need,
    })
}

/// The zones of the blocks, of some that were found.
pub(crate) fn block_zones(
    alloc: Global,
    file: &FileZones,
    zones: &[u32],
) -> Result<Vec<u32>, AllocError>
    ensures { IfOk result (λ found. found.items ≡ given file.now.blocks.items zones.now) }
{
    given(alloc, &file.blocks, zones)
}

/// The indirect zones, of some that were found.
pub(crate) fn indirect_zones(
    alloc: Global,
    file: &FileZones,
    zones: &[u32],
) -> Result<Vec<u32>, AllocError>
    ensures { IfOk result (λ found. found.items
        ≡ given file.now.indirect.items (drop (count_made file.now.blocks.items) zones.now)) }
{
    given(
        alloc,
        &file.indirect,
        from_on(zones, count_made(&file.blocks)),
    )
}

/// The zones after those of the file, of some that were found.
pub(crate) fn zones_behind<'z>(file: &FileZones, zones: &'z [u32]) -> &'z [u32]
    ensures { result.now ≡ drop file.now.need zones.now }
{
    from_on(zones, file.need as usize)
}
