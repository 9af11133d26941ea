// How the slots of a plan's files name their sectors.
use crate::map::MapPlan;
use run_sections::Naming;

impl MapPlan {
    ghost use Rattle.std.specs.Prelude.{◌≡◌, ◌≤◌, slice_index_or};

    // How the slots of a file name its sectors.
    pub(crate) fn naming(&self) -> Naming
        ensures mode { result.mode ≡ self.now.config.mode }
        ensures compact { result.compact ≡ self.now.config.compact }
        ensures geometry { (other : _) → result.geometry ≡ slice_index_or self.now.geometries self.now.disk other }
    {
        self.naming_on(self.disk)
    }

    // The same on any disk.
    pub(crate) fn naming_on(&self, disk: u8) -> Naming
        requires { disk ≤ 3 }
        ensures mode { result.mode ≡ self.now.config.mode }
        ensures compact { result.compact ≡ self.now.config.compact }
        ensures geometry { (other : _) → result.geometry ≡ slice_index_or self.now.geometries disk other }
    {
        Naming {
            mode: self.config.mode,
            geometry: self.geometry(disk),
            compact: self.config.compact,
        }
    }
}
