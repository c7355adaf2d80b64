// Sums and differences of places and lengths that stop at the ends of their type, so that no caller owes an order or a bound.
#![tactic(auto)]

ghost use Rattle.std.specs.Prelude.{◌≡◌, ◌-◌};
ghost use Rattle.sums.specs.Numbers.{greatest, sum_to};

// A difference that stops at 0.
pub fn less(a: usize, b: usize) -> usize
    ensures { result ≡ a - b }
{
    usize::saturating_sub(a, b)
}

// A sum that stops at the most.
pub fn sum(a: usize, b: usize) -> usize
    ensures { result ≡ sum_to greatest a b }
{
    usize::saturating_add(a, b)
}

pub fn sum32(a: u32, b: u32) -> u32
    ensures { result ≡ sum_to 4294967295 a b }
{
    u32::saturating_add(a, b)
}
