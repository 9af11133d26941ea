// `conf FILE TIMES`: the names of a configuration's sections, or what refuses it and status 1. It is read so many times,
// once where that is no number up to 65,535. Status 1 too where the file or an argument is missing.
use conf_settings::config_line;
use lilo_conf::{ConfFault, Config, parse};
use std::env::Args;
use std::iter::Skip;
use std::{fs, io};

pub fn answer(rt: &HostRuntime, words: &mut Skip<Args>) -> io::Result<u8> {
    let (Some(path), Some(times)) = (words.next(), words.next()) else {
        return Ok(1);
    };
    let text = fs::read(rt, path.as_str())?;
    let mut read = parse(rt.alloc(), text.as_slice());
    for _ in 1..times.as_str().parse::<u16>().unwrap_or(1) {
        read = parse(rt.alloc(), text.as_slice());
    }
    match read {
        Ok(config) => print_names(rt, &config),
        Err(fault) => print_refusal(rt, fault),
    }
}

fn print_names(rt: &HostRuntime, config: &Config) -> io::Result<u8> {
    for section in config.sections.items() {
        print_line(rt, section.label.bytes())?;
    }
    Ok(0)
}

fn print_refusal(rt: &HostRuntime, fault: ConfFault) -> io::Result<u8> {
    print_line(rt, config_line(fault).as_slice())?;
    Ok(1)
}

// Names and refusals are plain ASCII.
fn print_line(rt: &HostRuntime, line: &[u8]) -> io::Result<()> {
    let text = str::from_utf8(line).unwrap_or("?");
    println!(rt; "{text}")
}
