// How a disk is divided for INT 13h.
ghost use Rattle.std.specs.Prelude.{◌≡◌, ◌↔◌, ◌⊎◌, ◌<◌, ◌≤◌, IfOk, IsErrOf};

/// The division of a disk into tracks, as INT 13h has it.
#[derive(Clone, Copy, Debug, PartialEq, Eq)]
pub struct Geometry {
    /// Heads per cylinder, 1 to 255.
    pub heads: u16,
    /// Sectors per track, 1 to 63.
    pub sectors: u8,
    ghost some_heads: { 1 ≤ heads },
    ghost few_heads: { heads ≤ 255 },
    ghost some_sectors: { 1 ≤ sectors },
    ghost few_sectors: { sectors ≤ 63 },
}

/// Which number of a geometry is out of its range.
#[derive(Clone, Copy, Debug, PartialEq, Eq)]
pub enum GeometryFault {
    /// There are no heads, or more than 255.
    Heads,
    /// A track has no sectors, or more than 63.
    Sectors,
}

impl Geometry {
    ghost use Rattle.disk_trait.specs.Absent.{absent_geometry};

    /// A geometry of 1 to 255 heads and 1 to 63 sectors per track.
    ///
    /// # Errors
    ///
    /// The number that is out of its range; the heads are judged first.
    pub fn new(heads: u16, sectors: u8) -> Result<Geometry, GeometryFault>
        ensures ok { IfOk result (λ geometry. (geometry.heads ≡ heads) × (geometry.sectors ≡ sectors)) }
        ensures heads { IsErrOf result GeometryFault.Heads ↔ ((heads < 1) ⊎ (255 < heads)) }
        ensures sectors { IsErrOf result GeometryFault.Sectors
            ↔ ((1 ≤ heads) × (heads ≤ 255) × ((sectors < 1) ⊎ (63 < sectors))) }
    {
        if !(1..=255).contains(&heads) {
            return Err(GeometryFault::Heads);
        }
        if !(1..=63).contains(&sectors) {
            return Err(GeometryFault::Sectors);
        }
        Ok(Geometry { heads, sectors })
    }

    /// What is said of a disk that isn't there: 16 heads of 63 sectors.
    pub fn absent() -> Geometry
        ensures { result ≡ absent_geometry }
    {
        Geometry {
            heads: 16,
            sectors: 63,
        }
    }
}
