// The meter of steps. It is charged in place; whoever holds it by value lends a local.
#![tactic(auto)]

ghost use Rattle.std.specs.Prelude.{◌≡◌};
ghost use Rattle.definition.specs.Limits.{program_steps};
ghost use Rattle.meter.specs.Charges.{Charges, ChargedAs};

use definition::Why;

#[derive(Clone, Copy)]
pub struct Meter {
    pub limit: u32,
    pub used: u32,
}

// A refusal, and the steps.
pub type Refused = (Why, Meter);

impl Meter {
    // The steps that a program may take.
    pub const STEPS: u32 = 1_000_000;

    // Nothing is used yet.
    pub fn new(limit: u32) -> Meter
        ensures { (result.limit ≡ limit) × (result.used ≡ 0) }
    {
        Meter { limit, used: 0 }
    }

    // The program's meter.
    pub fn of_program() -> Meter
        ensures { (result.limit ≡ program_steps) × (result.used ≡ 0) }
    {
        Meter::new(Meter::STEPS)
    }

    // Through `charge`, for whoever holds the meter by value.
    pub fn charged(self) -> Result<Meter, Refused>
        ensures { ChargedAs self result }
    {
        let mut meter = self;
        if charge(&mut meter) {
            Ok(meter)
        } else {
            Err((Why::NoStep, meter))
        }
    }
}

// Every step is charged here, in place. A step with none left is not counted.
#[tactic(auto, unfolding(definition::specs::Steps::is_left, definition::specs::Steps::used_after))]
pub fn charge(m: &mut Meter) -> bool
    ensures { Charges m.old (record { paid = result; meter = m.new }) }
{
    let paid = m.used < m.limit;
    if paid {
        m.used += 1;
    }
    paid
}
