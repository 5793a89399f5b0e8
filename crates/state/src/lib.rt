// The state of a rack.
#![tactic(auto)]

use cards::Table;

// The bus is free, held by the card of that number, or held by the first with the second elected to follow. (Documents 01 and 02 name the form, and `is_closed`,
// `won_bus` and `handed_on` go by its cases.)
#[derive(Clone, Copy)]
pub enum Bus {
    Free,
    Held(u8),
    Elected(u8, u8),
}

// The state: the table, who waits, the waiting counts, the batch (rule 3), who is inhibited (rule 4), the last winner (0 for none yet), the bus,
// how many cards wait, and the value that the lines settled to last, which they still carry (0 for none yet). Arrays go by arbitration number.
// (Document 01 has arrays beside the table, and `mark_ok`, `with_marks` and every other definition of a state name these four: one array of marks would change
// what each of them says.)
#[derive(Clone, Copy)]
pub struct RackState {
    pub table: Table,
    pub waiting: [bool; 64],
    pub counts: [u8; 64],
    pub batch: [bool; 64],
    pub inhibited: [bool; 64],
    pub last: u8,
    pub bus: Bus,
    pub waiters: u8,
    pub value: u16,
}
