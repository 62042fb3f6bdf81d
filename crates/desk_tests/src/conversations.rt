//! The door of the machine, with a client on the same thread.

ghost use Rattle.std.specs.Prelude.{IfSome, IsTrue};

use crate::asserting::holds;
use doors::{Door, give_all, read_to};
use outside::Failed;
use std::io::{Read, Write};
use std::net::{Ipv4Addr, Shutdown, TcpStream};
use std::test::Fail;
use tcp_door::TcpDoor;

// The first port that is tried, and how many are: another run of the tests may have one.
const PORT: u16 = 47613;

const TRIED: u16 = 10;

const REQUEST: &[u8] = b"GET /head HTTP/1.1\r\nAuthorization: Bearer t\r\n\r\n";

const REPLY: &[u8] = b"HTTP/1.1 200 OK\r\nContent-Length: 2\r\n\r\n{}";

// Opens the door at the first port that is free, and says which.
fn opened<D: Door>(door: &mut D) -> Option<u16>
    ensures { IfSome result (λ _. IsTrue (D.is_open door.new)) }
{
    for port in PORT..PORT + TRIED {
        if door.open(port).is_ok() {
            return Some(port);
        }
    }
    None
}

#[test]
fn a_client_that_ends_its_request(rt: HostRuntime) -> Result<(), Fail> {
    let mut door = TcpDoor::new(rt.clone()?);
    let Some(port) = opened(&mut door) else {
        return Err(Fail::from(Failed));
    };
    let mut client = TcpStream::connect(&rt, (Ipv4Addr::LOCALHOST, port))?;
    client.write_all(REQUEST)?;
    client.shutdown(Shutdown::Write)?;
    holds(&rt, door.next().is_ok());
    let mut request = Vec::new(rt.alloc());
    // One byte more than there is, so the input's end is seen too.
    let read = read_to(&mut door, &mut request, REQUEST.len() + 1);
    holds(
        &rt,
        matches!(read, Ok(false)) && request.as_slice() == REQUEST,
    );
    holds(&rt, give_all(&mut door, REPLY).is_ok());
    door.end();
    let mut reply = Vec::new(rt.alloc());
    client.read_to_end(&mut reply)?;
    holds(&rt, reply.as_slice() == REPLY);
    Ok(())
}

// A request with a tail that nobody takes, from a client that does not say that it ends. The end of the conversation
// takes the tail, for a while: else the system would reset the connection, and the reply be lost.
#[test]
fn a_client_whose_request_is_not_taken_whole(rt: HostRuntime) -> Result<(), Fail> {
    let mut door = TcpDoor::new(rt.clone()?);
    let Some(port) = opened(&mut door) else {
        return Err(Fail::from(Failed));
    };
    let mut client = TcpStream::connect(&rt, (Ipv4Addr::LOCALHOST, port))?;
    client.write_all(REQUEST)?;
    holds(&rt, door.next().is_ok());
    let mut room = [0; 10];
    holds(
        &rt,
        matches!(door.take(&mut room), Ok(10)) && room.as_slice() == b"GET /head ".as_slice(),
    );
    holds(&rt, give_all(&mut door, REPLY).is_ok());
    door.end();
    let mut reply = Vec::new(rt.alloc());
    client.read_to_end(&mut reply)?;
    holds(&rt, reply.as_slice() == REPLY);
    Ok(())
}
