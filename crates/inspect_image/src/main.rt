//! `inspect_image QUESTION ..`: answers what tests and benches ask and no command of LILO shows. A question is a word
//! and its arguments, and one may follow another:
//!
//! - `partitions IMAGE`: the partitions of a disk image
//! - `survey IMAGE DEVICE`: whether the Minix volume on a device of a disk image is sound
//! - `conf FILE TIMES`: the names of a configuration's sections, which is read so many times
//!
//! It ends with the first question whose status isn't 0, and with that status; a word that is no question has 2.
#![tactic(auto)]

mod conf;
mod image;
mod partitions;
mod survey;

use std::env::Args;
use std::iter::Skip;
use std::process::ExitCode;
use std::{env, io};

fn main(rt: HostRuntime) -> io::Result<ExitCode> {
    let mut words = env::args(&rt)?.skip(1);
    for _ in 0..u64::MAX {
        let Some(word) = words.next() else {
            break;
        };
        let status = answer(&rt, word.as_str(), &mut words)?;
        if status != 0 {
            return Ok(ExitCode::from(status));
        }
    }
    Ok(ExitCode::SUCCESS)
}

/// Answers a question, whose arguments come next, and gives its status.
fn answer(rt: &HostRuntime, word: &str, words: &mut Skip<Args>) -> io::Result<u8> {
    match word {
        "partitions" => partitions::answer(rt, words),
        "survey" => survey::answer(rt, words),
        "conf" => conf::answer(rt, words),
        _ => {
            println!(rt; "no question: {word}")?;
            Ok(2)
        }
    }
}
