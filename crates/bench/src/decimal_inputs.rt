//! Pseudorandom divisions and values to be fitted.
ghost use Rattle.std.specs.Prelude.{◌<◌, ◌≤◌, ◌^◌, ◌≤ℤ◌, pos, neg_ℤ, unsigned_abs};

use dec_num::{Mode, Scaled, pow10};

/// A call of `quot`.
#[derive(Clone, Copy)]
pub struct Division {
    pub n: i128,
    pub d: i128,
    pub up: i32,
    pub mode: Mode,
    ghost n_fits: { unsigned_abs n < 10 ^ 37 },
    ghost d_fits: { unsigned_abs d < 10 ^ 37 },
    ghost up_above: { neg_ℤ (pos 37) ≤ℤ up },
    ghost up_below: { up ≤ℤ pos 55 },
}

/// A call of `fit`.
#[derive(Clone, Copy)]
pub struct Value {
    pub value: Scaled,
    pub digits: u32,
    pub scale: u32,
    pub mode: Mode,
    ghost some_digits: { 1 ≤ digits },
    ghost digits_fit: { digits ≤ 18 },
    ghost scale_within: { scale ≤ digits },
    ghost value_scale: { value.scale ≤ 37 },
    ghost units_fit: { unsigned_abs value.units < 10 ^ 37 },
}

/// Numbers that look random: Marsaglia's xorshift of 64 bits.
#[derive(Drop)]
pub struct Numbers {
    state: u64,
}

impl Numbers {
    pub(super) fn new() -> Self {
        Numbers {
            state: 88_172_645_463_325_252,
        }
    }

    fn next(&mut self) -> u64 {
        self.state ^= self.state << 13;
        self.state ^= self.state >> 7;
        self.state ^= self.state << 17;
        self.state
    }

    fn below(&mut self, bound: u32) -> u32
        requires { 0 < bound }
        ensures { result < bound }
    {
        (self.next() % bound as u64) as u32
    }

    // a number of at most 37 digits
    #[tactic(auto, using(dec_num::proofs::Powers::ten_monotone, dec_num::proofs::Powers::ten_positive))]
    fn number(&mut self) -> i128
        ensures { unsigned_abs result < 10 ^ 37 }
    {
        let limit = pow10(self.below(38)) as u128;
        let high = self.next() as u128;
        let low = self.next() as u128;
        let size = (high * 18_446_744_073_709_551_615 + low) % limit;
        if self.below(2) == 1 {
            -(size as i128)
        } else {
            size as i128
        }
    }

    fn mode(&mut self) -> Mode {
        if self.below(2) == 1 {
            Mode::Round
        } else {
            Mode::Trunc
        }
    }

    pub(super) fn division(&mut self) -> Division {
        let n = self.number();
        let d = self.number();
        let up = self.below(93) as i32 - 37;
        let mode = self.mode();
        Division { n, d, up, mode }
    }

    pub(super) fn value(&mut self) -> Value {
        let digits = 1 + self.below(18);
        let units = self.number();
        let value = Scaled {
            units,
            scale: self.below(38),
        };
        let scale = self.below(digits + 1);
        let mode = self.mode();
        Value {
            value,
            digits,
            scale,
            mode,
        }
    }
}
