// Logs by name, one after the other: the name of each, then its answers as the replay program gives them.
#![tactic(auto)]

use std::env::{Env, FillError};
use std::fs::File;
use std::io;

// How many bytes a name may have.
const NAME: usize = 4096;

// There is nowhere to say that this could not be said.
fn say(rt: &HostRuntime, text: &str) {
    let _ = rt.eprintln(text);
}

fn one(rt: &HostRuntime, name: &str) -> io::Result<()> {
    match File::open(rt, name) {
        Ok(mut log) => {
            println!(rt; "{name}")?;
            stream::replay(rt, &mut log, &mut rt.stdout());
        }
        Err(e) => {
            let _ = eprintln!(rt; "{name}: {e}");
        }
    }
    Ok(())
}

// A name that is no name of a file is passed over, as a file that is not there is.
fn named(rt: &HostRuntime, name: &[u8]) -> io::Result<()> {
    match str::from_utf8(name) {
        Ok(text) => one(rt, text)?,
        Err(_) => say(rt, "vectors: a name that is not UTF-8"),
    }
    Ok(())
}

fn main(rt: HostRuntime) -> io::Result<()> {
    let mut name = [0u8; NAME];
    for i in 1..usize::MAX {
        match rt.arg(i, &mut name) {
            Ok(n) => named(&rt, &name[..n])?,
            Err(FillError::TooLong) => say(&rt, "vectors: a name that is too long"),
            Err(FillError::NotPresent) => break,
        }
    }
    Ok(())
}
