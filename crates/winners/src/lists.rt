// Sets of a list of clients: whether the list rises, and the clients that the sets' numbers pick, as sets of clients.
ghost use Rattle.std.specs.Prelude.{◌≡◌, ◌&&◌, leb, length};
ghost use Rattle.winners.specs.ClientLists.{RisingList, RoomToDouble, Doubled, Discards};
ghost use Rattle.winners.specs.Surpluses.{rising_to};

use crate::places::{CLIENTS, SETS};

// Whether the list has at most six clients, up to n and strictly rising.
pub(crate) fn is_rising(clients: &[u8], n: usize) -> bool
    ensures { result ≡ (leb (length clients.now) 6 && rising_to n 0 clients.now) }
{
    if CLIENTS < clients.len() {
        return false;
    }
    let mut ok = true;
    let mut last = 0;
    for &client in clients {
        let next = usize::from(client);
        ok &= (last < next) & (next <= n);
        last = next;
    }
    ok
}

// After the entries of the first `end` sets each of them once more, with one bit.
fn double(discards: &mut [u8; SETS], end: usize, bit: u8)
    requires { RoomToDouble discards.old end bit }
    ensures doubled { Doubled discards.old end bit end discards.new }
    ensures long { length discards.new ≡ 64 }
{
    for set in 0..end {
        discards[end + set] = discards[set] + bit;
    }
}

// The clients that are picked, for all sets of the list by their numbers: with each client the sets double.
pub(crate) fn discards(clients: &[u8]) -> [u8; SETS]
    requires { RisingList clients.now }
    ensures { Discards clients.now result }
{
    let mut discards = [0; SETS];
    for (j, &client) in clients.iter().enumerate() {
        double(&mut discards, 1 << j, 1 << (client - 1));
    }
    discards
}
