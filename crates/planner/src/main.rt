// Reads a site text from standard input, and prints the record of its drive, or one line that says what is wrong.
#![tactic(auto)]

use std::io::{Read, Write};
use survey::printing::print;

// One byte more than a site text may have, so that a longer one is seen to be too long.
const MOST_READ: usize = 4097;

// The bytes of the largest record.
const RECORD: usize = 60_000;

fn main(rt: HostRuntime) -> anyhow::Result<()> {
    // Room for all of it at once, so that a packet is read whole; and for one byte more, since the reading wants room before it sees the end.
    let mut text = Vec::with_capacity(rt.alloc(), MOST_READ + 1)?;
    rt.stdin().take(MOST_READ as u64).read_to_end(&mut text)?;
    let mut buffer = vec![in rt.alloc(); 0u8; RECORD]?;
    let bytes = print(rt.alloc(), &text, &mut buffer)?;
    rt.stdout().write_all(&buffer[..bytes])?;
    Ok(())
}
