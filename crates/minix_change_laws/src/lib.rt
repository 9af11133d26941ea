//! Laws of what the bytes of one entry of a directory do to a sound Minix volume: public functions with empty bodies,
//! which no code needs to call.
#![tactic(auto)]

mod beside_laws;
mod entry_bytes_laws;
mod entry_laws;
mod growth_laws;
mod sees_laws;
mod tree_laws;
mod zone_bytes_laws;

pub use beside_laws::{
    change_in_a_directory_is_of_its_names, change_of_an_entry_is_of_its_names,
    harmless_bytes_keep_names, harmless_bytes_keep_what_is_named, harmless_changes_join,
    harmless_writes_join, kept_parts_stay_sound, marks_may_be_set, parts_stand_on_the_volume,
    unnamed_inode_may_be_freed, unnamed_inode_may_be_written, unused_zone_may_be_freed,
    unused_zone_may_be_written, what_stands_is_harmless,
};
pub use entry_bytes_laws::{
    bytes_of_a_directory_add_a_name, bytes_of_a_free_entry_leave_a_link,
    bytes_of_a_free_entry_take_a_name_away, bytes_of_a_last_name_leave_an_inode,
    bytes_of_a_redirected_last_name_leave_an_inode, bytes_of_an_entry_add_a_name,
    bytes_of_another_inode_lead_a_name, bytes_of_another_name_move_a_name,
    bytes_of_two_entries_replace_a_name, entry_bytes_say_an_entry, names_may_be_made,
    one_write_leaves_an_entry, what_may_be_done_still_may, written_entry_changes_alone,
};
pub use entry_laws::{
    changed_entry_keeps_a_volume_sound, directory_with_dots_is_new, freed_entry_takes_a_name_away,
    last_name_leaves_an_inode, made_entry_adds_a_name, name_replaces_another, named_file_stays,
    named_inode_is_fit, named_inodes_stay, new_directory_adds_a_name, new_file_may_stand,
    redirected_entry_leads_its_name, redirected_last_name_leaves_an_inode,
    removed_name_leaves_a_link, renamed_entry_moves_a_name, standing_entry_leads_its_name,
};
pub use growth_laws::{
    bytes_past_the_entries_are_unseen, entry_in_a_hole_is_free, extended_directory_is_unseen,
    grown_directory_is_unseen, links_of_an_inode_may_change, number_in_an_indirect_zone_is_unseen,
    number_in_the_inode_is_unseen, size_of_a_directory_may_rise,
};
pub use sees_laws::{
    changed_links_are_unseen, changes_that_are_unseen_join, harmless_bytes_are_unseen,
    kept_parts_are_seen_as_before, seen_parts_are_a_volume, seen_parts_stay_sound,
    seen_volume_has_the_same_names, unseen_writes_join, what_stands_is_seen,
};
pub use tree_laws::{
    moved_name_after_what_is_unseen, moved_name_before_what_is_unseen, moved_names_are_of_the_tree,
    moved_names_in_an_image, moved_tree_after_what_is_unseen, moved_tree_before_what_is_unseen,
    name_after_what_is_unseen, name_before_what_is_unseen, named_inode_had_a_name,
    names_are_of_the_tree, names_in_an_image, seen_parts_have_the_same_tree,
    tree_after_what_is_unseen, tree_before_what_is_unseen, what_stays_twice_stays,
};
pub use zone_bytes_laws::{
    bytes_past_the_size_are_unseen, directory_may_grow_in_each_way, number_bytes_are_unseen,
    number_bytes_say_a_number, one_write_leaves_a_part, written_part_changes_one_zone,
};
