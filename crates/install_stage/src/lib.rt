//! The files of an installation are made before its commit, whole and durable: the backup of the boot sector, then the
//! new map under its name with `~`. Nothing that boots is touched.
#![tactic(auto)]

mod backup;
mod backup_stage;
mod block;
mod halves;
mod laws;
mod made_laws;
mod map;
mod stage;

pub use backup::make_backup;
pub use backup_stage::stage_backup;
pub use halves::block_of;
pub use laws::{made_map_is_staged, room_is_staged};
pub use made_laws::{
    apart_sectors_are_not_writable, file_needs_no_other_sector, file_writes_within_its_zones,
    later_writes_join, later_writes_join_where_nothing_is_gained,
    made_names_are_the_old_ones_with_it, promised_zones_are_free, sectors_lie_where_chosen,
    stop_leaves_old_names_or_the_file, writable_then_was_writable,
};
pub use map::make_map;
pub use stage::stage_files;
