// What is mapped of a file.
ghost use Rattle.std.specs.Prelude.{◌<◌, ◌^◌};

use slot_lists::RunList;

/// A file as a map lists it: how many bytes it has, and where its sectors lie.
#[derive(Drop)]
pub struct FileRuns {
    pub size: u32,
    pub runs: RunList,
    ghost small: { size < 2 ^ 32 },
}
