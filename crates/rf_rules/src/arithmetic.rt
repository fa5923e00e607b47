//! Sums of a few frequencies, each times a small coefficient.

ghost use Rattle.std.specs.Prelude.{◌≡◌, ◌≤◌, ◌+ℤ◌, ◌-ℤ◌, ◌*ℤ◌, pos, unsigned_abs};
ghost use Rattle.rf_terms.specs.Kinds.{IsSmall};

/// What a carrier adds to a form.
#[inline]
pub fn term(coefficient: i64, khz: i64) -> i64
    requires coefficient { IsSmall coefficient }
    requires khz { unsigned_abs khz ≤ 10000000 }
    ensures value { result ≡ coefficient *ℤ khz }
    ensures bound { unsigned_abs result ≤ 80000000 }
{
    coefficient * khz
}

#[inline]
pub fn sum(a: i64, b: i64) -> i64
    requires a { unsigned_abs a ≤ 640000000 }
    requires b { unsigned_abs b ≤ 640000000 }
    ensures { result ≡ a +ℤ b }
{
    a + b
}

/// Where a form lies above the least that there may be.
#[inline]
pub fn place(form: i64) -> u64
    requires { unsigned_abs form ≤ 640000000 }
    ensures { result ≡ unsigned_abs (form +ℤ pos 640000000) }
{
    sum(form, 640_000_000).unsigned_abs()
}

/// The same of a form's opposite.
#[inline]
pub fn place_of_opposite(form: i64) -> u64
    requires { unsigned_abs form ≤ 640000000 }
    ensures { result ≡ unsigned_abs (pos 640000000 -ℤ form) }
{
    (640_000_000 - form).unsigned_abs()
}
