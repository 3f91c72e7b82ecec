// Reads two meshes, overlays them and prints the answer.
#![tactic(auto)]

use program::{MOST_READ, MOST_WRITTEN};
use std::io;
use std::io::Read;

fn main(rt: HostRuntime) -> io::Result<()> {
    let mut text = Vec::new(rt.alloc());
    rt.stdin().take(MOST_READ).read_to_end(&mut text)?;
    let mut out = [0u8; MOST_WRITTEN];
    let p = program::reply(&text, &mut out);
    rt.write_all(&out[..p])
}
