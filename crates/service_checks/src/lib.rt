// The checks that more than one service makes: the length of a packet, the client, the socket that is named and its card.
#![tactic(auto)]

ghost use Rattle.std.specs.Prelude.{◌≡◌, ◌<◌, length};
ghost use Rattle.facts.specs.declared.Code.TheVariants.{BadArgLength, NoCard};
ghost use Rattle.facts.specs.Checks.{Checked};
ghost use Rattle.facts.specs.Table;
ghost use Rattle.layout.specs.Layout.{table_size};
ghost use Rattle.layout.specs.Sound.{Accepted};
ghost use Rattle.service_checks.specs.Checking.{CountedIs, SocketNamedIs, CardEnough};
ghost use Rattle.service_checks.specs.Beginning.{BegunIs};

use facts::{Code, Handle, Seat, Socket};
use layout::{CARDS_AT, MARKED, SOCKETS_IN};

// Lent bytes are as many as are asked for.
pub fn sized(p: &[u8], n: usize) -> Result<(), Code>
    ensures { Checked (length p.now ≡ n) BadArgLength result }
{
    if p.len() == n {
        Ok(())
    } else {
        Err(Code::BadArgLength)
    }
}

// A socket that is below the socket count.
pub fn below_count(t: &[u8], socket: Socket) -> Result<Socket, Code>
    requires { length t.now ≡ table_size }
    ensures { CountedIs t.now socket.0 result }
{
    if socket.0 < table_read::byte(t, SOCKETS_IN) {
        Ok(socket)
    } else {
        Err(Code::BadSocket)
    }
}

// The socket that a packet names, "socket and function at 0": one below the count, whose function is 0.
const SOCKET_AT: usize = 0;

const FUNCTION_AT: usize = 1;

pub fn socket_named(t: &[u8], p: &[u8]) -> Result<Socket, Code>
    requires { (length t.now ≡ table_size) × (1 < length p.now) }
    ensures { SocketNamedIs t.now p.now result }
{
    let socket = below_count(t, Socket(table_read::byte(p, SOCKET_AT)))?;
    if table_read::byte(p, FUNCTION_AT) == 0 {
        Ok(socket)
    } else {
        Err(Code::BadSocket)
    }
}

// What a service asks of the card: a request needs one in the socket, a release does not.
#[derive(Clone, Copy, Debug, PartialEq, Eq)]
pub enum CardNeed {
    Needed,
    Ignored,
}

// The card that a service needs is in the socket.
fn card_asked(t: &[u8], socket: Socket, need: CardNeed) -> Result<(), Code>
    requires { (length t.now ≡ table_size) × (socket.0 < Table.most_sockets) }
    ensures { Checked (CardEnough t.now socket.0 need) NoCard result }
{
    let CardNeed::Needed = need else {
        return Ok(());
    };
    if table_read::byte(t, CARDS_AT + socket.0) == MARKED {
        Ok(())
    } else {
        Err(Code::NoCard)
    }
}

// How a service on a socket begins: the client's place in the list and the seat of the socket that the packet names, or
// the code of the first check that refuses.
pub fn begin(t: &[u8], h: Handle, p: &[u8], n: usize, need: CardNeed) -> Result<(usize, Seat), Code>
    requires { Accepted t.now × (1 < n) }
    ensures { BegunIs t.now h.0 p.now n need result }
{
    sized(p, n)?;
    let i = client_record::client_at(t, h).ok_or(Code::BadHandle)?;
    let socket = socket_named(t, p)?;
    card_asked(t, socket, need)?;
    Ok((i, Seat::new(socket.0)))
}
