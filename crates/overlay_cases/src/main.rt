// Answers stored inputs, each a file named by an argument: its name, then what `overlay_main` writes for it.
#![tactic(auto)]

use program::{MOST_READ, MOST_WRITTEN};
use std::env::Args;
use std::io::Read;
use std::rt::Files;
use std::{env, fs, io};

// The file of this name: overlay_main's lines over another source. A function of both has no place: a library's public function has a contract that settles its
// answer, and std's say nothing of what is printed.
fn replay(rt: &(impl Files + Print + AllocGlobal), name: &str) -> io::Result<()> {
    rt.println(name)?;
    let mut text = Vec::new(rt.alloc());
    fs::open(rt, name)?.take(MOST_READ).read_to_end(&mut text)?;
    let mut out = [0u8; MOST_WRITTEN];
    let p = program::reply(&text, &mut out);
    rt.write_all(&out[..p])
}

// all names but the first, the program's own
fn replay_all(rt: &(impl Files + Print + AllocGlobal), names: Args) -> io::Result<()> {
    for name in names.skip(1) {
        replay(rt, name.as_str())?;
    }
    Ok(())
}

fn main(rt: HostRuntime) -> io::Result<()> {
    let names = env::args(&rt)?;
    replay_all(&rt, names)
}
