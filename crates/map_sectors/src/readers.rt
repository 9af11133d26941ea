// What a plan says.
ghost use Rattle.std.specs.Prelude.{◌≡◌, ◌≤◌, Some, length};
ghost use Rattle.lilo_model.specs.Meant.{default_place};

use crate::map::MapPlan;
use conf_text::Text;
use disk_trait::Geometry;
use lilo_conf::Config;
use map_plan::{NameList, PlanFault, check_map_places};
use slot_lists::DiskSector;

impl MapPlan {
    ghost use Rattle.std.specs.Prelude.{◌≡◌, ◌≤◌, ℕ, All, IfErr, map, slice_index_or};
    ghost use Rattle.lilo_model.specs.Disks.{Machine};
    ghost use Rattle.lilo_model.specs.Meant.{default_place};
    ghost use Rattle.lilo_model.specs.Plan.{plan_names};
    ghost use Rattle.lilo_model.specs.PlanRefusal.{own_places_check};
    ghost use Rattle.lilo_conf.specs.View.{config_view};
    ghost use Rattle.slot_lists.specs.Made.{place_view};
    ghost use Rattle.map_sectors.specs.Map.{plan_view, HasGeometries};
    ghost use Rattle.map_plan.specs.View.{Decides, HasPlanCause};

    /// The names of the map's entries, in the order of its table.
    #[tactic(auto, unfolding(lilo_model::specs::Plan::plan_names))]
    pub fn names(&self) -> &NameList
        ensures { result.now ≡ plan_names (plan_view self.now) }
    {
        &self.files.names
    }

    /// The place of the default among the names: of the one that is configured, or else of the first.
    pub fn default_entry(&self) -> u16
        ensures { result ≡ default_place (plan_view self.now).config.default_name (plan_names (plan_view self.now)) }
    {
        match &self.config.default_name {
            Some(name) => place_of(name.bytes(), self.names().items()),
            None => 0,
        }
    }

    /// The paths of the sections that are omitted, in order.
    pub fn skipped(&self) -> &NameList
        ensures { result.now ≡ self.now.files.skipped }
    {
        &self.files.skipped
    }

    /// The configuration that is planned.
    pub fn config(&self) -> &Config
        ensures { result.now ≡ self.now.config }
    {
        &self.config
    }

    /// Whether each place that is to hold a sector of the map can be named: it lies on the volume's disk.
    ///
    /// # Errors
    ///
    /// `Address`, of the first that can't.
    pub fn check_places(&self, places: &[DiskSector]) -> Result<(), PlanFault>
        requires { All (λ place. place.disk ≡ self.now.disk) places.now }
        ensures decided { (machine : Machine) → HasGeometries machine self.now.geometries
            → Decides result (own_places_check (plan_view self.now).config machine (map place_view places.now)) }
        ensures cause { (before now : ℕ) → IfErr result (HasPlanCause before now) }
    {
        check_map_places(self.config.mode, self.geometry(self.disk), places)
    }

    // How a disk is divided.
    pub(crate) fn geometry(&self, disk: u8) -> Geometry
        requires { disk ≤ 3 }
        ensures { (other : _) → result ≡ slice_index_or self.now.geometries disk other }
    {
        self.geometries[usize::from(disk)]
    }
}

// The place of a name among some, 0 where it isn't there.
fn place_of(name: &[u8], names: &[Text]) -> u16
    requires { length names.now ≤ 65535 }
    ensures { result ≡ default_place (Some name.now) names.now }
{
    let mut place = 0;
    for other in names {
        if other.bytes() == name {
            return place;
        }
        place += 1;
    }
    0
}
