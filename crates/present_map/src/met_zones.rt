// Zones in which sectors lie that were met.
ghost use Rattle.std.specs.Prelude.{◌≡◌, ◌-◌, ◌/◌, Some, None, if◌then◌else◌};
ghost use Rattle.minix_layout.specs.View.{super_view};
ghost use Rattle.minix_zones.specs.View.{span_view};
ghost use Rattle.slot_lists.specs.Made.{place_view};
ghost use Rattle.install_laws.specs.InstallVerdict.{is_of_volume};

use disk_trait::Span;
use minix_layout::Super;
use minix_steps::NumberSet;
use slot_lists::DiskSector;
use std::alloc::{AllocError, Global};
use std::marker::Model;

/// The zones of a volume in which sectors lie that were met. To a contract it is the volume and the list of the
/// zones, in rising order.
#[derive(Drop)]
pub(crate) struct MetZones {
    span: Span,
    layout: Super,
    zones: NumberSet,
}

impl Model for MetZones {
    ghost use Rattle.std.specs.Prelude.{◌≡◌};
    ghost use Rattle.minix_layout.specs.View.{super_view};
    ghost use Rattle.minix_zones.specs.View.{span_view};
    ghost use Rattle.present_map.specs.Zones.{Met};

    ghost Value = { Met };

    ghost view = { λ met. record {
      volume = record { span = span_view met.span; layout = super_view met.layout };
      zones = met.zones.numbers;
    } };

    ghost invariant = { λ met. met.zones.below ≡ met.layout.zones };
}

impl MetZones {
    ghost use Rattle.std.specs.Prelude.{◌≡◌, ◌-◌, ◌/◌, [], ◌∷◌, IfOk, Some, None, if◌then◌else◌};
    ghost use Rattle.minix_steps.specs.Numbers.{has_number};
    ghost use Rattle.minix_layout.specs.View.{super_view};
    ghost use Rattle.minix_zones.specs.View.{span_view};
    ghost use Rattle.slot_lists.specs.Made.{place_view};
    ghost use Rattle.install_laws.specs.InstallVerdict.{is_of_volume};
    ghost use Rattle.present_map.specs.Zones.{Meets};

    /// None was met, of a volume in a span.
    ///
    /// # Errors
    ///
    /// There is no memory for it.
    pub(crate) fn new(alloc: Global, span: Span, layout: Super) -> Result<MetZones, AllocError>
        ensures { IfOk result (λ met. met
            ≡ record { volume = record { span = span_view span; layout = super_view layout }; zones = [] }) }
    {
        let zones = NumberSet::new(alloc, layout.zones)?;
        Ok(MetZones {
            span,
            layout,
            zones,
        })
    }

    /// Meets a sector.
    pub(crate) fn meet(&mut self, place: DiskSector)
        ensures { Meets self.old self.new (place_view place ∷ []) }
    {
        if let Some(zone) = self.zone_of(place) {
            self.zones.add(zone);
        }
    }

    /// The zone of the volume in which a sector lies, or `None` where it lies elsewhere.
    pub(crate) fn zone_of(&self, place: DiskSector) -> Option<u32>
        ensures zone { result ≡ (if is_of_volume self.now.volume (place_view place)
            then Some ((place.sector - self.now.volume.span.start) / 2) else None) }
    {
        zone_in(self.span, self.layout, place)
    }

    /// Whether a zone is among them.
    pub(crate) fn has(&self, zone: u32) -> bool
        ensures { result ≡ has_number self.now.zones zone }
    {
        zone < self.zones.below() && self.zones.has(zone)
    }
}

/// The zone of a volume in a span in which a sector lies, or `None` where it lies elsewhere.
pub(crate) fn zone_in(span: Span, layout: Super, place: DiskSector) -> Option<u32>
    ensures { result
        ≡ (if is_of_volume (record { span = span_view span; layout = super_view layout }) (place_view place)
        then Some ((place.sector - span.start) / 2) else None) }
{
    if place.disk != span.disk || place.sector < span.start {
        return None;
    }
    let zone = (place.sector - span.start) / 2;
    if zone < u64::from(layout.zones) {
        Some(zone as u32)
    } else {
        None
    }
}
