// The entries of the crate laptop for the commissioning laptop's C program, under the names that C calls.
#![tactic(auto)]

ghost use Rattle.std.specs.Prelude.{◌≡◌};
ghost use Rattle.cardfile.specs.Format.{load_table_of};
ghost use Rattle.laptop.specs.Settle.{SettlesBytes};
ghost use Rattle.laptop.specs.Table.{GivesTable};

// Settles m lines, which carry `start`, for C: t plus 256 times how many numbers equal the settled lines, or 100 plus the refusal.
#[unsafe(no_mangle)]
pub extern "C" fn rack_settle(m: u32, numbers: &[u8], stages: &mut [u8], start: u32) -> u32
    ensures { SettlesBytes m numbers.now start stages.old result stages.new }
{
    laptop::rack_settle(m, numbers, stages, start)
}

// Checks the table of a file for C: the refusal, or 0.
#[unsafe(no_mangle)]
pub extern "C" fn rack_check(file: &[u8]) -> u32
    ensures { result ≡ (load_table_of file.now).answer }
{
    laptop::rack_check(file)
}

// The table of a file for C: the refusal, or 0 with k, the rule and the 64 slots by number at the front of the buffer.
#[unsafe(no_mangle)]
pub extern "C" fn rack_table(file: &[u8], out: &mut [u8]) -> u32
    ensures { GivesTable file.now out.old result out.new }
{
    laptop::rack_table(file, out)
}
