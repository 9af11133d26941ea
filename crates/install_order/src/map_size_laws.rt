// How long a planned map may be.
ghost use Rattle.install_order.specs.MapSizeLaws.{MapSizeLaw};

/// A map that is planned on a sound volume, of sectors of 512 bytes, is no longer than a file of that volume may be.
pub fn planned_map_fits_a_file()
    ensures { MapSizeLaw }
{}
