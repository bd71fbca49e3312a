//! The state before the first event.

ghost use Rattle.std.specs.Prelude.{◌≡◌, ◌≤◌, ◌+◌, IfOk, length, All};
ghost use Rattle.market_types.specs.Limits.{most_traders};
ghost use Rattle.market_floor.specs.Opening.{IsOpening, IsTraderOf};
ghost use Rattle.kernel_core.specs.Open.{opened, woken};
ghost use Rattle.kernel_core.specs.Step.{Fits};

use crate::Mail;
use crate::kernel::Kernel;
use crate::mail_laws::{mail_stays_sound, openings_are_grouped};
use agent_shell::TraderSetting;
use market_floor::{Floor, Happening, Opening, Posting};
use market_types::Memory;
use std::alloc::Global;

// Each trader in order has a wakeup at its first time.
fn wake_all(mail: &mut Mail, o: &Opening, settings: &[TraderSetting])
    requires opening { IsOpening o.now }
    requires few { length settings.now ≤ length o.now.traders }
    requires numbers { mail.old.next_seq ≡ 0 }
    requires drops { mail.old.dropped ≡ 0 }
    ensures { mail.new ≡ woken o.now 1 mail.old settings.now }
{
    openings_are_grouped();
    for (i, setting) in settings.iter().enumerate() {
        mail.send(
            o,
            &o.groups,
            i as u16 + 1,
            o.start,
            Posting::WakeAt(setting.first),
        );
    }
}

impl Kernel {
    /// The state before the first event.
    ///
    /// # Errors
    /// Want of memory alone.
    pub fn open(alloc: Global, o: &Opening) -> Result<Kernel, Memory>
        requires { IsOpening o.now }
        ensures opened { IfOk result (λ k. k ≡ opened o.now) }
        ensures fitting { IfOk result (λ k. Fits o.now k) }
    {
        mail_stays_sound();
        let mut mail = Mail::new(alloc)?;
        wake_all(&mut mail, o, o.traders.as_slice());
        let Ok(own) = vec![in alloc; o.start; o.traders.as_slice().len() + 1] else {
            drop(mail);
            return Err(Memory);
        };
        let Ok(floor) = Floor::open(alloc, o) else {
            drop(mail);
            return Err(Memory);
        };
        let Ok(groups) = o.groups.copy(alloc) else {
            drop(mail);
            drop(floor);
            return Err(Memory);
        };
        Ok(Kernel {
            time: o.start,
            events: 0,
            applied: 0,
            mail,
            own,
            floor,
            groups,
            happening: Happening::new(alloc),
        })
    }
}
