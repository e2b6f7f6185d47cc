// A clock row, a value: "a base b (1..b all seen) and 64 bits, bit j standing for counter b+1+j".
#![tactic(auto)]

ghost use Rattle.std.specs.Prelude.{◌≡◌, true, ◌/◌, ◌^◌, ◌≤◌};
ghost use Rattle.numbers.specs.Numbers.{last_counter};
ghost use Rattle.row.specs.Row.{has, add_up, unite, advanced, sound};

use numbers::Counter;

#[derive(Clone, Copy)]
pub struct Row {
    pub base: u32,
    pub bits: u64,
}

impl Row {
    // The counter was seen.
    pub fn has(self, c: Counter) -> bool
        ensures { result ≡ has self c }
    {
        let base = self.base;
        let bits = self.bits;
        let n = c.0;
        if base < n {
            return shifted(bits, n - base - 1) % 2 == 1;
        }
        0 < n
    }

    // The row with the counter too, or none where it is too far for the row's 64 bits (refusal 11).
    pub fn add(self, c: Counter) -> Option<Row>
        requires { sound self ≡ true }
        ensures { result ≡ add_up self c }
    {
        let base = self.base;
        let bits = self.bits;
        let n = c.0;
        if n <= base {
            return Some(self);
        }
        let j = n - base - 1;
        if 64 <= j {
            return None;
        }
        Some(advanced_row(base, bits | (1u64 << j)))
    }

    // The row with all counters of the other one too: the bits of the lower base come to stand at the higher one.
    pub fn unite(self, other: Row) -> Row
        requires { (sound self ≡ true) × (sound other ≡ true) }
        ensures { result ≡ unite self other }
    {
        let base = self.base;
        let bits = self.bits;
        let other_base = other.base;
        let other_bits = other.bits;
        if base <= other_base {
            return advanced_row(other_base, shifted(bits, other_base - base) | other_bits);
        }
        advanced_row(base, shifted(other_bits, base - other_base) | bits)
    }
}

// The bits moved down by any number of places, of which none is left after 64 or more.
fn shifted(bits: u64, by: u32) -> u64
    ensures { result ≡ bits / 2 ^ by }
{
    if 64 <= by {
        return 0;
    }
    bits >> by
}

// "After an add or union, the run of set low bits is counted to advance the base."
fn advanced_row(base: u32, bits: u64) -> Row
    requires { (advanced (record { base = base; bits = bits })).base ≤ last_counter }
    ensures { result ≡ advanced (record { base = base; bits = bits }) }
{
    let run = u64::trailing_zeros(!bits);
    Row {
        base: base + run,
        bits: shifted(bits, run),
    }
}
