// A number of the units 2^-512 by its sign, its digits and its exponent: sums of two, and the f32 nearest to one.
ghost use Rattle.std.specs.Prelude.{◌≡◌, ◌-◌, ◌*◌, ◌^◌, ◌≤◌, ◌<◌};
ghost use Rattle.std.specs.Float.Ieee as Ieee;
ghost use Rattle.std.specs.Float.{binary32};
ghost use Rattle.std.specs.Float.Ieee.Nearest.{closest};
ghost use Rattle.fused.specs.Align.{jam, Operand};

// y / 2^d with the last digit set where anything is cut off.
fn jammed(y: u64, d: u64) -> u64
    requires { (0 < y) × (y < 2 ^ 62) }
    ensures { result ≡ jam y d }
{
    if d >= 62 {
        return 1;
    }
    let s = d + 1;
    let h = y >> s;
    if h << s == y { 2 * h } else { 2 * h + 1 }
}

// m / 2^s to the nearest whole number, a tie to the even one.
fn rounded(m: u64, s: u64) -> u64
    requires { (m < 2 ^ 63) × (0 < s) × (s < 64) }
    ensures { result ≡ closest m (2 ^ s) }
{
    let q = m >> s;
    let rest = m - (q << s);
    let half = 1 << (s - 1);
    if rest < half {
        q
    } else if rest > half {
        q + 1
    } else {
        q + q % 2
    }
}

// m * 2^e, with a sign.
#[derive(Clone, Copy)]
pub(crate) struct Term {
    pub(crate) negative: bool,
    pub(crate) m: u64,
    pub(crate) e: u64,
    ghost short: { e < 1000 },
}

impl Term {
    ghost use Rattle.fused.specs.Lifted.{Lifted};

    // The same number with z zeros before the digits of m. A term may be a zero, which has no first digit, and a lift takes up to 63 from e: so
    // neither `0 < m` nor `64 ≤ e` is a field, and both are asked where a term is lifted.
    fn lifted(self, z: u64) -> Term
        requires { (0 < self.m) × (self.m < 2 ^ (64 - z)) × (64 ≤ self.e) × (z < 64) }
        ensures moved { Lifted self z result }
        ensures same { result.m * 2 ^ result.e ≡ self.m * 2 ^ self.e }
    {
        let n = self.m.leading_zeros() as u64 - z;
        Term {
            negative: self.negative,
            m: self.m << n,
            e: self.e - n,
        }
    }

    // The same number with its digits where `plus_lower` takes them.
    fn operand(self) -> Term
        requires { (0 < self.m) × (self.m < 2 ^ 48) × (128 ≤ self.e) }
        ensures { Operand result.m × (64 ≤ result.e) × (result.negative ≡ self.negative) × (result.m * 2 ^ result.e ≡ self.m * 2 ^ self.e) }
    {
        self.lifted(2)
    }

    // The number rounded: to 24 digits, and to none below binary32's smallest float, which is 2^363 units.
    fn pack(self) -> f32
        requires { (0 < self.m) × (self.m < 2 ^ 63) × (64 ≤ self.e) }
        ensures { result ≡ Ieee.round binary32 self.negative (self.m * 2 ^ self.e) (2 ^ 512) }
    {
        let v = self.lifted(1);
        if v.e >= 324 {
            return float::encode(v.negative, rounded(v.m, 39), v.e - 324);
        }
        let s = 363 - v.e;
        if s >= 64 {
            return float::encode(v.negative, 0, 0);
        }
        float::encode(v.negative, rounded(v.m, s), 0)
    }

    // The sum with a number of no larger exponent, rounded once.
    fn plus_lower(self, other: Term) -> f32
        requires { Operand self.m × Operand other.m × (other.e ≤ self.e) × (64 ≤ self.e) }
        ensures { result ≡ Ieee.sum binary32 self.negative (self.m * 2 ^ self.e) other.negative (other.m * 2 ^ other.e) (2 ^ 512) }
    {
        let j = jammed(other.m, self.e - other.e);
        let (negative, m) = if self.negative == other.negative {
            (self.negative, self.m + j)
        } else if self.m < j {
            (other.negative, j - self.m)
        } else if j < self.m {
            (self.negative, self.m - j)
        } else {
            return 0.0;
        };
        let sum = Term {
            negative,
            m,
            e: self.e,
        };
        sum.pack()
    }

    // The sum of two numbers, each of them a zero or not, rounded once.
    pub(crate) fn plus(self, other: Term) -> f32
        requires { (self.m < 2 ^ 48) × (other.m < 2 ^ 48) × (128 ≤ self.e) × (128 ≤ other.e) }
        ensures { result ≡ Ieee.sum binary32 self.negative (self.m * 2 ^ self.e) other.negative (other.m * 2 ^ other.e) (2 ^ 512) }
    {
        match (self.m, other.m) {
            (0, 0) => float::encode(self.negative & other.negative, 0, 0),
            (0, _) => other.pack(),
            (_, 0) => self.pack(),
            _ => {
                let x = self.operand();
                let y = other.operand();
                if y.e <= x.e {
                    x.plus_lower(y)
                } else {
                    y.plus_lower(x)
                }
            }
        }
    }
}
