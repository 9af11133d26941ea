//! The order of an installation. It begins with what is read before anything is written: whether the volume is sound,
//! what is apart, the names that are replaced, what an earlier installation left behind, and whether the present map is
//! Clear. Then what was left behind is settled, and the map is planned with the room for it. Its files are staged, the boot
//! sector is committed, and the new map takes the old one's place. Each state is a value that must be spent.
#![tactic(auto)]

mod begin;
mod boot_sector;
mod committed;
mod directories;
mod examination;
mod fault;
mod halt;
mod holder_laws;
mod map_size_laws;
mod planned;
mod planning;
mod staged;
mod staging;
mod surveyed;
mod tidied;

pub use boot_sector::commit;
pub use committed::Committed;
pub use examination::{Examined, examine};
pub use fault::InstallFault;
pub use halt::Halt;
pub use holder_laws::{finish_test_is_settling, holder_test_is_the_holder};
pub use map_size_laws::planned_map_fits_a_file;
pub use planned::Planned;
pub use staged::Staged;
pub use surveyed::Surveyed;
pub use tidied::Tidied;
