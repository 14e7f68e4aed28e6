// Reads a stream of cases from standard input, one call of one operation each, and writes an answer line for each: second/FORMAT.md has
// the form of both. Every call goes through the C face. Nothing is promised of this program but that it is safe and ends; its lines are
// compared with those of the second program.
#![tactic(auto)]

mod calls;
mod lines;
mod record;
mod stop;
mod stream;

use std::io;
use stop::Stop;

fn main(rt: HostRuntime) -> io::Result<()> {
    match stream::answered(&rt, &mut rt.reader()) {
        Ok(()) => Ok(()),
        Err(Stop::Io(error)) => Err(error),
        Err(stop) => println!(rt; "{stop}"),
    }
}
