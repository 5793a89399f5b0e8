// The batch and the inhibited cards: when the two sets are made anew.
ghost use Rattle.std.specs.Prelude.{◌≡◌};
ghost use Rattle.rules.specs.Sets.{batch_anew, inhibited_anew};

use super::{has_batch, inhibits};

// Under rule 3, where no card of the batch waits, all waiting cards become the batch.
pub fn renew_batch(rule: u8, anew: bool, waiting: &[bool; 64], batch: &mut [bool; 64])
    ensures { batch.new ≡ batch_anew rule anew waiting.now batch.old }
{
    if anew & has_batch(rule) {
        *batch = *waiting;
    }
}

// Under rule 4, where all waiting cards are inhibited, every inhibition is cleared.
pub fn clear_inhibitions(rule: u8, anew: bool, inhibited: &mut [bool; 64])
    ensures { inhibited.new ≡ inhibited_anew rule anew inhibited.old }
{
    if anew & inhibits(rule) {
        *inhibited = [false; 64];
    }
}
