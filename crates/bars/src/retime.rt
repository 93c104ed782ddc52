// One rule for the timer of every bar of a row.
ghost use Rattle.std.specs.Prelude.{◌≡◌, map};
ghost use Rattle.std.specs.Fn.{FnReturnsAt};
ghost use Rattle.backoff.specs.declared.timer.BackOffTimer.{BackOffTimer};
ghost use Rattle.bars.specs.Bars.{retimed};
ghost use Rattle.bars.specs.declared.bar.Bar.{Bar as a_bar};

use crate::bar::Bar;
use backoff::timer::BackOffTimer;

// Gives every bar the timer that a rule makes of it. Where the rule is a function of key and timer, each goes by that.
pub(crate) fn retime<K, F: Fn(&Bar<K>) -> BackOffTimer>(bars: &mut [Bar<K>], rule: F)
    requires { F.IsAlwaysCallable rule }
    ensures { (f : K → BackOffTimer → BackOffTimer) → ((b : a_bar K) (t : BackOffTimer) → FnReturnsAt F.Fn rule b t → t ≡ f b.key b.timer) → bars.new ≡ map (retimed f) bars.old }
{
    for bar in bars.iter_mut() {
        bar.timer = rule(bar);
    }
}
