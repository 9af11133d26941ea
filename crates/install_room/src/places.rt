// Where the sectors of a file will lie.
ghost use Rattle.std.specs.Prelude.{◌≡◌, ◌≤◌, ◌<◌, ◌+◌, ◌*◌, ◌^◌, length, map, All, IfOk};
ghost use Rattle.minix_zones.specs.View.{span_view};
ghost use Rattle.slot_lists.specs.Made.{place_view};
ghost use Rattle.install_laws.specs.InstallVerdict.{sectors_of_blocks};

use disk_trait::Span;
use slot_lists::DiskSector;
use std::alloc::{AllocError, Global};

/// Where so many sectors of a file lie whose blocks have these zones, on a volume in a span.
pub(crate) fn places_of(
    alloc: Global,
    span: Span,
    blocks: &[u32],
    sectors: u32,
) -> Result<Vec<DiskSector>, AllocError>
    requires enough { sectors ≤ 2 * length blocks.now }
    requires fits { All (λ zone. span.start + 2 * zone + 1 < 2 ^ 64) blocks.now }
    ensures { IfOk result (λ places. map place_view places.items
        ≡ sectors_of_blocks (span_view span) blocks.now sectors) }
{
    let mut places = Vec::new(alloc);
    for index in 0..sectors {
        let zone = blocks[(index / 2) as usize];
        places.push(DiskSector {
            disk: span.disk,
            sector: span.start + 2 * u64::from(zone) + u64::from(index % 2),
        })?;
    }
    Ok(places)
}
