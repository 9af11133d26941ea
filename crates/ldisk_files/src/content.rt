// The bytes of a file: they are read from a source, and cut into blocks.
ghost use Rattle.std.specs.Prelude.{◌≡◌, ◌≤◌, ◌<◌, ◌*◌, List, length, replicate, IfOk, IfErr};
ghost use Rattle.lilo_model.specs.MinixParts.{blocks_for};
ghost use Rattle.ldisk_model.specs.FileVerdict.{most_stored, stored_block, is_zero_block, zero_blocks};
ghost use Rattle.ldisk_files.specs.Stored.{padded_block, IsGiven, IsReadFault, HasSourceCause};

use crate::fault::FileFault;
use crate::put_fault::PutFault;
use std::alloc::{AllocError, Global};
use stream_trait::{Source, Taken};

/// The most bytes of a file.
const MOST: usize = 67_108_864;

// How many bytes one call asks a source for.
const BUFFER: usize = 4096;

/// The bytes that a source gives: it is read to its end, or one byte past the most.
pub(crate) fn read_all<I: Source>(alloc: Global, source: &mut I) -> Result<Vec<u8>, PutFault>
    ensures given { IfOk result (λ bytes. IsGiven (I.left source.old) bytes.items) }
    ensures few { IfOk result (λ bytes. length bytes.items ≤ most_stored) }
    ensures refused { IfErr result (IsReadFault (I.left source.old)) }
    ensures cause { IfErr result (HasSourceCause (I.faults source.old) (I.faults source.new)) }
{
    let mut bytes = Vec::new(alloc);
    let mut buffer = [0; BUFFER];
    while bytes.len() <= MOST {
        let room = BUFFER.min(MOST + 1 - bytes.len());
        match source.next_bytes(&mut buffer[..room]) {
            Taken::Got(count) => {
                if bytes.extend_from_slice(&buffer[..count]).is_err() {
                    return Err(PutFault::File(FileFault::Memory));
                }
            }
            Taken::End => return Ok(bytes),
            Taken::Failed => return Err(PutFault::Source),
        }
    }
    Err(PutFault::File(FileFault::BadLength))
}

/// The bytes of a block: 1024 of them, or those up to the end.
fn stored_block(bytes: &[u8], index: usize) -> &[u8]
    requires { 1024 * index ≤ length bytes.now }
    ensures is { result.now ≡ stored_block bytes.now index }
    ensures few { length result.now ≤ 1024 }
{
    let rest = &bytes[1024 * index..];
    if rest.len() < 1024 {
        rest
    } else {
        &rest[..1024]
    }
}

/// Whether a block is one of 1024 zeros.
fn is_zero_block(bytes: &[u8], index: usize) -> bool
    requires { 1024 * index ≤ length bytes.now }
    ensures { result ≡ is_zero_block (stored_block bytes.now index) }
{
    let zeros = [0; 1024];
    stored_block(bytes, index) == zeros.as_slice()
}

/// The blocks that get no zone.
#[tactic(auto, using(crate::proofs::ContentLemmas::zero_first, crate::proofs::ContentLemmas::zero_more, crate::proofs::ContentLemmas::zero_same))]
pub(crate) fn zero_blocks(alloc: Global, bytes: &[u8]) -> Result<Vec<u32>, AllocError>
    requires { length bytes.now ≤ most_stored }
    ensures { IfOk result (λ holes. holes.items ≡ zero_blocks bytes.now (blocks_for (length bytes.now))) }
{
    let mut holes = Vec::new(alloc);
    let count = bytes.len().div_ceil(1024);
    for index in 0..count {
        if is_zero_block(bytes, index) {
            holes.push(index as u32)?;
        }
    }
    Ok(holes)
}

/// A block as it is written, with zeros after the last byte.
pub(crate) fn padded_block(bytes: &[u8], index: usize) -> [u8; 1024]
    requires { 1024 * index ≤ length bytes.now }
    ensures { result ≡ padded_block bytes.now index }
{
    let stored = stored_block(bytes, index);
    let mut block = [0; 1024];
    block[..stored.len()].copy_from_slice(stored);
    block
}
