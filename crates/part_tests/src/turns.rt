// A toy piece of work in turns.
ghost use Rattle.std.specs.Prelude.{◌≡◌, ◌+◌, ◌<◌, ◌^◌};

use rx_base::Steps;
use rx_loop::{Driven, Unit, Units, drive};
use std::alloc::AllocError;
use std::marker::Brand;
use std::sync::ledger::{Blank, Ledger};
use std::test::Fail;

// Counts down to zero, and evaluates a body a unit.
#[derive(Drop)]
struct Countdown {
    left: u64,
    done: u64,
    ghost fits: { done + left < 2 ^ 64 },
}

impl Units for Countdown {
    ghost left = { λ c. c.left };

    ghost done = { λ c. c.done };

    ghost bodies = { λ c. c.done };

    ghost goes_on = { λ _ _. Unit {0} };

    ghost gives_up = { λ _ _. Unit {0} };

    fn unit<L: Ledger>(&mut self, steps: &mut Steps<L>) -> Result<Unit, AllocError> {
        self.left -= 1;
        self.done += 1;
        steps.tick();
        if self.left == 0 {
            Ok(Unit::Last)
        } else {
            Ok(Unit::More)
        }
    }

    ghost starts = { λ _. tt };

    ghost joins = { λ _ _ _ _ _. tt };

    ghost breaks_off = { λ _ _ _ _ _. tt };
}

fn drive_twice<L: Ledger>(blank: Blank) -> Result<[Driven; 2], AllocError>
    requires name { blank.name ≡ L.name }
    requires parts { blank.parts ≡ L.parts }
    requires one { blank.parts ≡ 1 }
{
    let mut steps: Steps<L> = Steps::new(blank);
    let mut first = Countdown { left: 5, done: 0 };
    let mut second = Countdown { left: 5, done: 0 };
    Ok([
        drive(&mut first, 3, true, &mut steps)?,
        drive(&mut second, 3, false, &mut steps)?,
    ])
}

#[test]
fn a_slice_yields_at_its_budget(rt: HostRuntime) -> Result<(), Fail> {
    let [sliced, whole] = drive_twice::<Brand>(Blank::new(1))?;
    assert_eq!(rt; sliced, Driven::Yielded { used: 3 });
    assert_eq!(rt; whole, Driven::Finished { used: 5 });
    Ok(())
}
