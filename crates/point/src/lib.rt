// A point, or any two numbers of which one belongs to each axis: a shift, an anchor, a scale.
#![tactic(auto)]

#[derive(Clone, Copy)]
pub struct Point {
    pub x: f32,
    pub y: f32,
}
