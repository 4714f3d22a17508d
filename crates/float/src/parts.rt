// The parts of a finite f32.
ghost use Rattle.std.specs.Prelude.{◌^◌, ◌≤◌, ◌<◌};

// `digits` * 2^`drops` of the smallest float, 2^-149, with a sign: all 24 digits, unless none is dropped.
#[derive(Clone, Copy)]
pub struct Parts {
    pub negative: bool,
    pub digits: u64,
    pub drops: u64,
    pub ghost small: { digits < 2 ^ 24 },
    pub ghost short: { drops < 254 },
    pub ghost full: { 0 < drops → 2 ^ 23 ≤ digits },
}
