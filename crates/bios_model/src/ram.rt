// Memory, from address 0 on.
ghost use Rattle.std.specs.Prelude.{◌≡◌, ◌+◌, ◌-◌, ◌++◌, ◌<◌, ◌≤◌, ◌↔◌, length, take, drop, replicate, IfOk, IfErr};
ghost use Rattle.std.specs.Prelude.{IsErrOf, OnOk, OnErr, vec_capacity, ⊤};
ghost use Rattle.std.specs.Borrow.{sem, follows_so};
ghost use mathlib.Core.Option.{none};
ghost use Rattle.lilo_model.specs.Bytes.{with_part};
ghost use Rattle.lilo_model.specs.Place.{with_bytes};
ghost use Rattle.bios_model.specs.Memory.{memory_of};
ghost use Rattle.bios_model.specs.contracts.ram.Ram.{the_row};

use crate::BiosFault;
use std::alloc::{AllocError, Global};
use std::marker::Model;

/// A memory of 1,048,576 to 1,073,741,824 bytes, as a machine has it from address 0 on. Only the bytes up to the last
/// one that was put or asked for are held: those after them are zero, and the room for them is taken, but never
/// touched.
#[derive(Drop)]
pub struct Ram {
    size: u32,
    bytes: Vec<u8>,
}

impl Model for Ram {
    ghost use Rattle.std.specs.Prelude.{ℕ, ◌≤◌, List, length, vec_capacity};
    ghost use Rattle.bios_model.specs.Held.{whole_memory};

    ghost Value = { List ℕ };

    ghost view = { λ ram. whole_memory ram.size ram.bytes.items };

    ghost invariant = { λ ram. (1048576 ≤ ram.size) × (ram.size ≤ 1073741824)
        × (length ram.bytes.items ≤ ram.size) × (ram.size ≤ vec_capacity ram.bytes) };
}

impl Ram {
    /// A memory of `size` bytes, all zero: 1,048,576 to 1,073,741,824 of them.
    ///
    /// # Errors
    ///
    /// The allocator has no such memory.
    pub fn new(alloc: Global, size: u32) -> Result<Ram, AllocError>
        requires low { 1048576 ≤ size }
        requires high { size ≤ 1073741824 }
        ensures { IfOk result (λ ram. ram ≡ replicate size 0) }
    {
        let bytes = Vec::with_capacity(alloc, size as usize)?;
        Ok(Ram { size, bytes })
    }

    /// How many bytes there are, 1,048,576 to 1,073,741,824.
    pub fn size(&self) -> u32
        ensures value { result ≡ length self.now }
        ensures range { (1048576 ≤ result) × (result ≤ 1073741824) }
    {
        self.size
    }

    /// The `len` bytes from address `at` on. The memory stays as it is: zeros that weren't held are put into it.
    pub fn bytes(&mut self, at: u32, len: u32) -> &[u8]
        requires { at + len ≤ length self.old }
        ensures bytes { result.now ≡ take len (drop at self.old) }
        ensures* same { sem 𝓛 (follows_so the_row the_row self.entry.ghost_name none (λ _ _. ⊤) (λ v. v ≡ self.old)) }
    {
        let start = at as usize;
        let end = start + len as usize;
        hold(&mut self.bytes, end);
        &self.bytes[start..end]
    }

    /// Puts bytes from address `at` on. All others stay. `OutsideRam` is for bytes that reach past the
    /// end, and then nothing changes.
    pub fn place(&mut self, at: u32, bytes: &[u8]) -> Result<(), BiosFault>
        ensures placed { OnOk result (self.new ≡ with_part self.old at bytes.now) }

        // The same in terms of the model, where memory has a byte at each address.
        ensures memory { OnOk result (memory_of self.new
            ≡ with_bytes (memory_of self.old) (record { address = at; bytes = bytes.now })) }
        ensures refused { OnErr result (self.new ≡ self.old) }
        ensures size { length self.new ≡ length self.old }
        ensures outside { IsErrOf result BiosFault.OutsideRam ↔ (length self.old < at + length bytes.now) }
        ensures only { IfErr result (λ fault. fault ≡ BiosFault.OutsideRam) }
    {
        let start = at as usize;
        if start + bytes.len() > self.size as usize {
            return Err(BiosFault::OutsideRam);
        }
        hold(&mut self.bytes, start);
        put(&mut self.bytes, start, bytes);
        Ok(())
    }
}

// Holds the bytes up to an end, which there is room for: zeros where none are held.
fn hold(bytes: &mut Vec<u8>, end: usize)
    requires room { end ≤ vec_capacity bytes.old }
    ensures held { bytes.new.items ≡ bytes.old.items ++ replicate (end - length bytes.old.items) 0 }
    ensures capacity { vec_capacity bytes.old ≤ vec_capacity bytes.new }
{
    if bytes.len() < end {
        let _ = bytes.resize(end, 0);
    }
}

// Puts bytes from a place on, which there is room for: over those that are held, and after them.
fn put(bytes: &mut Vec<u8>, start: usize, new: &[u8])
    requires begins { start ≤ length bytes.old.items }
    requires room { start + length new.now ≤ vec_capacity bytes.old }
    ensures placed { bytes.new.items ≡ with_part bytes.old.items start new.now }
    ensures capacity { vec_capacity bytes.old ≤ vec_capacity bytes.new }
{
    let over = new.len().min(bytes.len() - start);
    bytes[start..start + over].copy_from_slice(&new[..over]);
    let _ = bytes.extend_from_slice(&new[over..]);
}
