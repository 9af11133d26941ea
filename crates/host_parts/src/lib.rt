//! What the programs' mains take from the machine that they run on: arguments, disk images, the clock and a way to
//! show a text.
#![tactic(auto)]

mod clock;
mod image;
mod start;
mod text;

pub use clock::now_seconds;
pub use image::{create_image, open_image};
pub use start::{StartFault, arguments};
pub use text::show_text;
