// The length of a vector, rounded once: a guess in binary64 and one strict test of it against the two midpoints beside it.
// Where the test does not pass, as at a tie, a very small or large result, an infinity or a NaN, whole numbers decide.
#![tactic(auto)]

ghost use Rattle.std.specs.Prelude.{◌≡◌, true, not, T, IfSome};
ghost use Rattle.std.specs.Float.{binary32, binary64};
ghost use Rattle.std.specs.Float.Ieee.{add, mul, is_nan};
ghost use Rattle.ieee.specs.Root.{hypot_of};
ghost use Rattle.root.specs.Candidate.{IsCandidate, Sure, single_of};

// A candidate for a root: a number of 24 digits in binary32's normal range, by its pattern in binary64.
#[derive(Clone, Copy)]
pub struct Candidate {
    pub pattern: u64,
    pub ghost normal: { IsCandidate pattern },
}

impl Candidate {
    // A candidate for the root of n: the right one nearly always, and some candidate where n is a NaN or has no such root.
    pub fn of_root(n: f64) -> Candidate {
        Candidate::nearest(number(guess(number(n))))
    }

    // The nearest to r where r is from 2^-63 to 2^64, and else some candidate. That r is no NaN is a fact of one float, here and in
    // `guess`: both take what a test or `number` has just answered, and a type between the two would only carry it.
    fn nearest(r: f64) -> Candidate
        requires { T (not (is_nan r)) }
    {
        let u = (r.to_bits() % 0x8000_0000_0000_0000 + 0x0400_0000_1000_0000)
            % 0x0800_0000_0000_0000;
        Candidate {
            pattern: 0x3c00_0000_0000_0000 + (u - u % 0x2000_0000),
        }
    }

    // Whether n lies strictly between the squares of the midpoints s and t beside the number: then the number is its root.
    #[tactic(auto, using(crate::proofs::Ways::below_ok, crate::proofs::Ways::above_ok))]
    pub fn is_sure(self, n: f64) -> bool
        ensures { result ≡ true → Sure n self.pattern }
    {
        let s = f64::from_bits(self.pattern - 0x1000_0000);
        let t = f64::from_bits(self.pattern + 0x1000_0000);
        s * s < n && n < t * t
    }

    // The number as an f32.
    #[tactic(auto, using(crate::proofs::Ways::result_ok))]
    pub fn single(self) -> f32
        ensures { result ≡ single_of self.pattern }
    {
        f32::from_bits((self.pattern / 0x2000_0000 - 0x1_c000_0000) as u32)
    }
}

// r, or 0 in place of a NaN and of what is not above 0: one instruction, and no branch. An Option would have to be tested
// wherever the number is used.
fn number(r: f64) -> f64
    ensures { T (not (is_nan result)) }
{
    if 0.0 < r { r } else { 0.0 }
}

// k * y - h * y³: a step of Newton's method from y towards 1 / √n, where k is 1.5 and h is n / 2. Nothing is promised of it.
fn newton(h: f64, k: f64, y: f64) -> f64 {
    k * y - h * y * (y * y)
}

// A guess at the square root of n, of which nothing is promised: three steps from n's bit pattern, the last of them times n.
// What a step leaves has one sign, so a little more than 1.5 in the first two halves it.
#[tactic(auto, using(whole_root::proofs::Ways::guess_ok))]
fn guess(n: f64) -> f64
    requires { T (not (is_nan n)) }
{
    let y = f64::from_bits(0x5fe6eb50c7b537a9 - n.to_bits() % 0x8000_0000_0000_0000 / 2);
    let h = n * 0.5;
    newton(h * n, 1.5 * n, newton(h, 1.5000006, newton(h, 1.5008, y)))
}

// A guess at the square root of n, of which nothing is promised: the mean of d and n / d, a step of Heron's method from d.
fn heron(n: f64, d: f64) -> f64 {
    0.5 * d + n * (0.5 / d)
}

// The sum of the squares in binary64, where each square is exact and the sum is rounded. There is none where x or y is a NaN.
#[tactic(auto, using(ieee::proofs::Wide::widens))]
fn squares(x: f32, y: f32) -> Option<f64>
    ensures { IfSome result (λ n. n ≡ add binary64 (mul binary64 x x) (mul binary64 y y)) }
{
    if x.is_nan() || y.is_nan() {
        return None;
    }
    let a = x as f64;
    let b = y as f64;
    Some(a * a + b * b)
}

// The length of the vector from a guess r at it, where n is the sum of the squares: where n is strictly between the squares
// of the midpoints beside the candidate, so is the sum that is not rounded. Here a branch that is not taken costs less than
// `number`.
fn settle(x: f32, y: f32, n: f64, r: f64) -> f32
    requires { n ≡ add binary64 (mul binary64 x x) (mul binary64 y y) }
    ensures { result ≡ hypot_of binary32 x y }
{
    if !r.is_nan() {
        let candidate = Candidate::nearest(r);
        if candidate.is_sure(n) {
            return candidate.single();
        }
    }
    whole_root::hypot_exact(x, y)
}

// The f32 nearest to √(x² + y²), a tie to the even one; an infinity wins over a NaN.
pub fn hypot(x: f32, y: f32) -> f32
    ensures { result ≡ hypot_of binary32 x y }
{
    match squares(x, y) {
        Some(n) if !n.is_nan() => settle(x, y, n, guess(n)),
        _ => whole_root::hypot_exact(x, y),
    }
}

// The same by a guess from a number near the root: one step of Heron's method in binary64. Nothing is asked of that number.
pub fn hypot_near(x: f32, y: f32, near: f32) -> f32
    ensures { result ≡ hypot_of binary32 x y }
{
    match squares(x, y) {
        Some(n) if !near.is_nan() => settle(x, y, n, heron(n, near as f64)),
        _ => whole_root::hypot_exact(x, y),
    }
}
