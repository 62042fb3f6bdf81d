//! The end of a conversation.

use std::io::{self, Read};
use std::net::{Shutdown, TcpStream};
use std::time::{Clock, Duration, Instant};

// The most bytes of the input that are still taken.
const MOST: usize = 65_536;

// How many of them at once.
const ROOM: usize = 4096;

// The seconds in which they have to come.
const SECONDS: u64 = 2;

/// Ends what is sent, and takes what is left of the input within bounds: a socket that is dropped with input in it
/// makes the system reset the connection, and the client may lose the end of what was sent.
pub fn close<C: Clock>(clock: &C, mut stream: TcpStream) -> io::Result<()> {
    stream.shutdown(Shutdown::Write)?;
    let longest = Duration::from_secs(SECONDS);
    let start = Instant::now(clock)?;
    let mut room = [0; ROOM];
    let mut left = MOST;
    while left > 0 {
        // No time left is no time limit that a socket takes, so that ends it too.
        let patience = longest.saturating_sub(start.elapsed(clock)?);
        stream.set_read_timeout(Some(patience))?;
        let taken = stream.read(&mut room)?;
        if taken == 0 {
            return Ok(());
        }
        left = left.saturating_sub(taken);
    }
    Ok(())
}
