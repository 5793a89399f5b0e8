// Entries for the commissioning laptop's C program: numbers and byte slices only. The crate laptop_c exports them. (They stand
// twice: a crate is a library or a static one, and the theorems of `promises` speak of this one.)
#![tactic(auto)]

ghost use Rattle.std.specs.Prelude.{◌≡◌};
ghost use Rattle.cardfile.specs.Format.{load_table_of};
ghost use Rattle.laptop.specs.Settle.{SettlesBytes};
ghost use Rattle.laptop.specs.Table.{GivesTable};

use settling::settle_bytes;
use table::put_table;

mod settling;
mod table;
mod words;

// Settles m lines, which carry `start`, for C: t plus 256 times how many numbers equal the settled lines, or 100 plus the refusal. The competing numbers and
// the lines after each stage are bytes, two for each, low byte first.
#[tactic(auto, using(crate::proofs::Settle::told))]
pub fn rack_settle(m: u32, numbers: &[u8], stages: &mut [u8], start: u32) -> u32
    ensures { SettlesBytes m numbers.now start stages.old result stages.new }
{
    match settle_bytes(m, start, numbers, stages) {
        Ok(done) => u32::from(done.stages) + 256 * u32::from(done.matches),
        Err(refusal) => 100 + u32::from(refusal.number()),
    }
}

// Checks the table of a file for C: the refusal, or 0.
pub fn rack_check(file: &[u8]) -> u32
    ensures { result ≡ (load_table_of file.now).answer }
{
    match cardfile::load_table(file) {
        Ok(_) => 0,
        Err(refusal) => u32::from(refusal.number()),
    }
}

// The table of a file for C: the refusal, or 0 with k, the rule and the 64 slots by number at the front of the buffer. (C is told numbers, and 8 here is of its
// buffer, which is no save's.)
#[tactic(auto, using(crate::proofs::TableBytes::answers))]
pub fn rack_table(file: &[u8], out: &mut [u8]) -> u32
    ensures { GivesTable file.now out.old result out.new }
{
    let table = match cardfile::load_table(file) {
        Ok(table) => table,
        Err(refusal) => return u32::from(refusal.number()),
    };
    if out.len() < 66 {
        return 8;
    }
    put_table(table, out);
    0
}
