// Neighbouring sectors that are held as bytes.
ghost use Rattle.std.specs.Prelude.{◌≡◌, ◌-◌, ◌*◌, ◌+◌, ◌<◌, ◌≤◌, length, IfSome, IfNone};
ghost use Rattle.lilo_model.specs.Bytes.{part_of};

use sector_parts::Sector;

/// The bytes of a sector, where it is one of so many from a first one on.
pub(crate) fn held_at(bytes: &[u8], first: u64, count: u64, sector: u64) -> Option<Sector>
    requires { count * 512 ≤ length bytes.now }
    ensures some { IfSome result (λ held. (first ≤ sector) × (sector < first + count)
        × (held ≡ part_of bytes.now ((sector - first) * 512) 512)) }
    ensures none { IfNone result ((first ≤ sector) × (sector < first + count) → ⊥) }
{
    if sector < first || count <= sector - first {
        return None;
    }
    let at = (sector - first) as usize * 512;
    let mut held = [0; 512];
    held.copy_from_slice(&bytes[at..at + 512]);
    Some(held)
}
