// The stops of a walk are the pointers of an inode: laws, which no code needs to call.
ghost use Rattle.minix_zones.specs.Laws.{ContainsLaw, OrderLaw, PointerLaw, SameStopLaw, EveryPointerLaw, ParentLaw};

/// A walk comes to each stop, and to nothing else.
pub fn each_stop_is_come_to()
    ensures { ContainsLaw }
{}

/// It comes to them in order, and so to each once.
pub fn stops_come_in_order()
    ensures { OrderLaw }
{}

/// Each stop has a pointer of an inode.
pub fn each_stop_has_a_pointer()
    ensures { PointerLaw }
{}

/// No two stops have one pointer.
pub fn no_two_stops_have_one_pointer()
    ensures { SameStopLaw }
{}

/// Each pointer of an inode is that of a stop.
pub fn each_pointer_has_a_stop()
    ensures { EveryPointerLaw }
{}

/// An indirect zone's stop comes before those of the numbers in it.
pub fn indirect_zone_comes_first()
    ensures { ParentLaw }
{}
