//! Laws of sessions: public functions with empty bodies, which no code needs to call.
#![tactic(auto)]

mod laws;

pub use laws::{
    another_line_keeps_the_body, bodies_are_of_the_last_that_makes_one,
    bodies_mean_what_their_images_do, boots_give_the_present_line_or_another,
    boots_leave_the_line_that_they_give, boots_that_keep_the_line_leave_the_image,
    calls_go_on_sessions, calls_that_write_a_sector_are_turns, calls_that_write_nothing_are_turns,
    foreign_bodies_are_handed_over, foreign_sectors_keep_what_a_session_does,
    given_lines_can_be_said, held_sessions_stay_held, lines_are_of_the_last_that_makes_one,
    other_data_keeps_a_volume_sound, outside_devices_are_those_at_the_entry,
    read_backups_are_the_named_ones, restored_backups_are_left,
    restored_sectors_are_as_foreign_as_the_backup, restored_sectors_keep_what_a_session_does,
    runs_of_writers_keep_what_a_session_does, sessions_are_reached_by_step, sessions_join,
    shots_leave_the_line_of_their_text, spared_sectors_keep_the_state, states_decide_what_boots,
    texts_lead_where_directories_and_links_stay, unwritten_images_are_left, unwritten_lines_stay,
    what_boots_is_of_the_last_that_makes_it, writers_keep_what_a_session_does,
    written_lines_keep_the_holder, written_lines_keep_what_a_session_does,
};
