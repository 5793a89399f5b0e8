// A state put together of its parts, for a caller that keeps the marks of its cards apart.
ghost use Rattle.std.specs.Prelude.{◌≡◌};
ghost use Rattle.arbiter.specs.Parts.{state_of};
ghost use Rattle.rules.specs.Marks.{marks};

use cards::Table;
use state::{Bus, RackState};

// The last winner, the bus, the number of waiting cards and the kept value: what is left of a state beside its table and its marks.
#[derive(Clone, Copy)]
pub struct Hold {
    pub last: u8,
    pub bus: Bus,
    pub waiters: u8,
    pub value: u16,
}

// The state of these parts.
pub fn state_of(
    table: Table,
    waiting: [bool; 64],
    counts: [u8; 64],
    batch: [bool; 64],
    inhibited: [bool; 64],
    hold: Hold,
) -> RackState
    ensures { result ≡ state_of table (marks waiting counts batch inhibited) hold }
{
    RackState {
        table,
        waiting,
        counts,
        batch,
        inhibited,
        last: hold.last,
        bus: hold.bus,
        waiters: hold.waiters,
        value: hold.value,
    }
}
