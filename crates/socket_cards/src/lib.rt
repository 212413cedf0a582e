// How many sockets a table may have; card in and card out, on a table that is the image of a well-formed set.
#![tactic(auto)]

ghost use Rattle.facts.specs.Checks.{code_in};
ghost use Rattle.facts.specs.Table.{Facts};
ghost use Rattle.facts.specs.Sockets.{CardTo};
ghost use Rattle.layout.specs.Sound.{Accepted};
ghost use Rattle.layout.specs.Served.{Served};
ghost use Rattle.socket_cards.specs.Counts.{SocketsAre};

use facts::{Code, Socket};
use layout::{CARDS_AT, MOST_SOCKETS};

// How many sockets a table has: "a count of 1 to 8".
pub fn socket_count(sockets: u32) -> Result<u8, Code>
    ensures { SocketsAre sockets result }
{
    if sockets == 0 || MOST_SOCKETS < sockets as usize {
        return Err(Code::GeneralFailure);
    }
    Ok(sockets as u8)
}

// The card's byte says whether a card is present.
pub fn card(t: &mut [u8], socket: Socket, present: bool) -> Result<(), Code>
    requires { Accepted t.old }
    ensures { Served (λ (F G : Facts). CardTo present F socket.0 (record { code = code_in result; facts = G })) t.old t.new }
{
    let s = service_checks::below_count(t, socket)?;
    t[CARDS_AT + s.0] = u8::from(present);
    Ok(())
}
