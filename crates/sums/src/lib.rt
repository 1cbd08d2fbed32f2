// Sums of 64 bits: "where a sum doesn't fit, it becomes the largest number" (document 02, Wish 12).
#![tactic(auto)]

ghost use Rattle.std.specs.Prelude.{◌≡◌};
ghost use Rattle.grid.specs.Crews.{capped_sum};

// The sum of two numbers, or the largest number.
pub fn capped(a: u64, b: u64) -> u64
    ensures { result ≡ capped_sum a b }
{
    if b > 18446744073709551615 - a {
        return 18446744073709551615;
    }
    a + b
}
