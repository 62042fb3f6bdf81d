//! A door over the sockets of the machine.

ghost use Rattle.std.specs.Prelude.{◌≡◌, ◌≤◌};
ghost use Rattle.outside.specs.Faults.{risen};

use crate::closing::close;
use doors::Door;
use outside::Failed;
use std::io::{self, Read, Write};
use std::net::{Ipv4Addr, Net, TcpListener, TcpStream};
use std::time::{Clock, Duration};

// The seconds for which a call waits for the client to send, or to take.
const SECONDS: u64 = 30;

/// The door at a port of 127.0.0.1. It tells nothing of what comes and goes. It counts every error of the machine, and
/// a piece that has bytes of which none was taken; how a conversation ends is counted nowhere.
#[derive(Drop)]
pub struct TcpDoor<R> {
    machine: R,
    listener: Option<TcpListener>,
    stream: Option<TcpStream>,
    faults: u64,
}

impl<R> TcpDoor<R> {
    /// The door over the sockets of a runtime, with a count of 0. It is not open.
    pub fn new(machine: R) -> TcpDoor<R>
        ensures { result.faults ≡ 0 }
    {
        TcpDoor {
            machine,
            listener: None,
            stream: None,
            faults: 0,
        }
    }

    // One fault more.
    fn failed(&mut self) -> Failed
        ensures count { self.new.faults ≡ risen self.old.faults }
        ensures kept { self.old.faults ≤ self.new.faults }
        ensures same { self.new.listener ≡ self.old.listener }
    {
        self.faults = self.faults.saturating_add(1);
        Failed
    }
}

// The next client, for whom no call waits longer than that.
fn accepted(listener: &TcpListener) -> io::Result<TcpStream> {
    let (stream, _) = listener.accept()?;
    let patience = Some(Duration::from_secs(SECONDS));
    stream.set_read_timeout(patience)?;
    stream.set_write_timeout(patience)?;
    Ok(stream)
}

impl<R: Net<Listener = TcpListener, Stream = TcpStream> + Clock + Drop> Door for TcpDoor<R> {
    ghost use Rattle.std.specs.Prelude.{None, is_some};

    ghost faults = { λ door. door.faults };

    ghost is_open = { λ door. is_some door.listener };

    ghost told = { λ _. None };

    fn open(&mut self, port: u16) -> Result<(), Failed> {
        self.listener = None;
        match TcpListener::bind(&self.machine, (Ipv4Addr::LOCALHOST, port)) {
            Ok(listener) => {
                self.listener = Some(listener);
                Ok(())
            }
            Err(_) => Err(self.failed()),
        }
    }

    fn next(&mut self) -> Result<(), Failed> {
        self.end();
        let Some(listener) = &self.listener else {
            return Err(self.failed());
        };
        match accepted(listener) {
            Ok(stream) => {
                self.stream = Some(stream);
                Ok(())
            }
            Err(_) => Err(self.failed()),
        }
    }

    fn take(&mut self, room: &mut [u8]) -> Result<usize, Failed> {
        let Some(stream) = &mut self.stream else {
            return Ok(0);
        };
        match stream.read(room) {
            Ok(taken) => Ok(taken),
            Err(_) => Err(self.failed()),
        }
    }

    fn give(&mut self, bytes: &[u8]) -> Result<usize, Failed> {
        let Some(stream) = &mut self.stream else {
            return Ok(bytes.len());
        };
        match stream.write(bytes) {
            Ok(given) if given > 0 || bytes.is_empty() => Ok(given),
            _ => Err(self.failed()),
        }
    }

    fn end(&mut self) {
        if let Some(stream) = self.stream.take() {
            // All was given before: what the client still sends, or fails to, changes nothing.
            let _ = close(&self.machine, stream);
        }
    }
}
