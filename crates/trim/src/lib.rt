// Trim: which part of a path's length is visible, by `normalized_trim_segments` of drawing_paths.rs.
#![tactic(auto)]

ghost use Rattle.std.specs.Prelude.{◌≡◌};
ghost use Rattle.trim.specs.Trim as spec;
ghost use Rattle.trim.specs.Ranges.{range_count};

// A trim, sampled: start and end in per cent, the offset in degrees, and the mode. Start and end stand apart: side by side
// they would be stored one by one and then read as one, for which a processor waits.
// The mode is a number, as C lends it: any may come, and whether it is listed is a check that has its place after others.
#[derive(Clone, Copy)]
pub struct TrimStyle {
    pub start: f32,
    pub offset_degrees: f32,
    pub end: f32,
    pub mode: u8,
}

// The visible ranges of a path's length. Two(s, e) stands for (s, 1) and (0, e).
#[derive(Clone, Copy)]
pub enum Ranges {
    Nothing,
    One(f32, f32),
    Two(f32, f32),
}

// From a start to an end on a path. They may be past 1, and the end before the start.
#[derive(Clone, Copy)]
struct Span {
    start: f32,
    end: f32,
}

// The step by which trims are rounded: places no further apart are one.
const TRIM_STEP: f32 = 0.0001;

// Not below 0 and not above 1.
fn clamp_unit(x: f32) -> f32
    ensures { result ≡ spec.clamp_unit x }
{
    float::clamp(x, 0.0, 1.0)
}

// The offset as a part of a turn.
#[tactic(auto, unfolding(crate::specs::Trim::offset_of))]
fn offset_of(degrees: f32) -> f32
    ensures { result ≡ spec.offset_of degrees }
{
    remainder::rem_euclid_360(degrees) / 360.0
}

// A percentage as a place from 0 to 1, moved on by the offset.
#[tactic(auto, unfolding(crate::specs::Trim::placed_at))]
fn placed_at(percent: f32, offset: f32) -> f32
    ensures { result ≡ spec.placed_at percent offset }
{
    clamp_unit(percent / 100.0) + offset
}

// x rounded to the step.
#[tactic(auto, unfolding(crate::specs::Trim::snapped))]
fn snapped(x: f32) -> f32
    ensures { result ≡ spec.snapped x }
{
    whole::round(x * 10000.0) * TRIM_STEP
}

// At most a step apart.
#[tactic(auto, unfolding(crate::specs::Trim::near))]
fn is_near(a: f32, b: f32) -> bool
    ensures { result ≡ spec.near a b }
{
    float::is_within(a - b, TRIM_STEP)
}

impl Span {
    // Start near a, and end near b.
    #[tactic(auto, unfolding(crate::specs::Trim::near_both))]
    fn is_near(self, a: f32, b: f32) -> bool
        ensures { result ≡ spec.near_both self.start self.end a b }
    {
        is_near(self.start, a) && is_near(self.end, b)
    }

    // From 0 to 1, or from 1 back to 0.
    #[tactic(auto, unfolding(crate::specs::Trim::is_whole))]
    fn is_whole(self) -> bool
        ensures { result ≡ spec.is_whole self.start self.end }
    {
        self.is_near(0.0, 1.0) || self.is_near(1.0, 0.0)
    }

    // The ranges that it shows.
    #[tactic(auto, unfolding(crate::specs::Trim::ranges_between))]
    fn ranges(self) -> Ranges
        ensures { result ≡ spec.ranges_between self.start self.end }
    {
        let Span { start, end } = self;
        if is_near(start, end) {
            Ranges::Nothing
        } else if self.is_whole() {
            Ranges::One(0.0, 1.0)
        } else if end <= 1.0 {
            Ranges::One(clamp_unit(start), clamp_unit(end))
        } else if start >= 1.0 {
            Ranges::One(clamp_unit(start - 1.0), clamp_unit(end - 1.0))
        } else {
            Ranges::Two(clamp_unit(start), clamp_unit(end - 1.0))
        }
    }

    // From the lower of the two to the upper.
    #[tactic(auto, unfolding(crate::specs::Trim::lower, crate::specs::Trim::upper))]
    fn in_order(self) -> Span
        ensures { result ≡ record { start = spec.lower self.start self.end; end = spec.upper self.start self.end } }
    {
        let Span { start, end } = self;
        if start > end {
            Span {
                start: end,
                end: start,
            }
        } else {
            self
        }
    }

    // Both ends rounded to the step.
    fn snapped(self) -> Span
        ensures { result ≡ record { start = spec.snapped self.start; end = spec.snapped self.end } }
    {
        Span {
            start: snapped(self.start),
            end: snapped(self.end),
        }
    }
}

#[tactic(auto, unfolding(crate::specs::Trim::normalized_trim_segments))]
pub fn normalized_trim_segments(trim: TrimStyle) -> Ranges
    ensures { result ≡ spec.normalized_trim_segments trim }
{
    let offset = offset_of(trim.offset_degrees);
    let start = placed_at(trim.start, offset);
    let end = placed_at(trim.end, offset);
    Span { start, end }.in_order().snapped().ranges()
}

impl Ranges {
    // Whether they are marked as the whole path: `is_full_trim_segments`.
    #[tactic(auto, unfolding(crate::specs::Trim::is_full_trim_segments))]
    pub fn is_full(self) -> bool
        ensures { result ≡ spec.is_full_trim_segments self }
    {
        matches!(self, Ranges::One(start, end) if start <= TRIM_STEP && is_near(1.0, end))
    }

    // How many there are.
    pub fn count(self) -> usize
        ensures { result ≡ range_count self }
    {
        match self {
            Ranges::Nothing => 0,
            Ranges::One(_, _) => 1,
            Ranges::Two(_, _) => 2,
        }
    }
}
