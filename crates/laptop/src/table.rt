// The bytes of a table for C, so that C reads no column itself.
ghost use Rattle.std.specs.Prelude.{◌≤◌, ◌++◌, ◌≡◌, length, drop};
ghost use Rattle.laptop.specs.Table.{table_bytes};

use cards::Table;

// Writes k, the rule and the 64 slots by number to the front of a buffer.
#[tactic(auto, using(crate::proofs::TableBytes::table_put))]
pub(crate) fn put_table(t: Table, out: &mut [u8])
    requires { 66 ≤ length out.old }
    ensures { out.new ≡ table_bytes t ++ drop 66 out.old }
{
    out[0] = t.k;
    out[1] = t.rule;
    out[2..66].copy_from_slice(&t.slots);
}
