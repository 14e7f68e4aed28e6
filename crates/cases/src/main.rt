// The blocks to try of document 01, as the program answers them: one line a case, first what goes in, then what comes out.
#![tactic(auto)]

mod decoding;
mod encoding;
mod shown;

use std::io;

fn main(rt: HostRuntime) -> io::Result<()> {
    println!(rt; "case what goes in, and what comes out")?;
    encoding::answered(&rt)?;
    encoding::refused(&rt)?;
    decoding::small(&rt)?;
    decoding::even(&rt)?;
    decoding::large(&rt)?;
    decoding::lengths(&rt)?;
    decoding::sizes(&rt)
}
