//! Laws of the definitions of Minix volumes: public functions with empty bodies, which no code needs to call.
#![tactic(auto)]

mod laws;

pub use laws::{
    blocks_have_pointers_of_their_own, find_is_of_names, given_is_plain, root_volume_is_sound,
    sound_refuses_nothing,
};
