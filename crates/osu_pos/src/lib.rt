// Positions in f32, each operation rounded once.
#![tactic(auto)]

ghost use Rattle.std.specs.Prelude.{◌≡◌};
ghost use Rattle.osu_pos.specs.Pos.{dot_of, det_of, length_of};

use std::ops::{Add, Mul, Sub};

// A position, or the way from one to another.
#[derive(Clone, Copy)]
pub struct Pos {
    pub x: f32,
    pub y: f32,
}

impl Pos {
    // The position (x, y).
    pub fn new(x: f32, y: f32) -> Pos
        ensures { result ≡ record { x = x; y = y } }
    {
        Pos { x, y }
    }

    // The dot product: the lengths multiplied, by the cosine of the angle between.
    pub fn dot(self, p: Pos) -> f32
        ensures { result ≡ dot_of self p }
    {
        self.x * p.x + self.y * p.y
    }

    // The determinant: the lengths multiplied, by the sine of the angle from self to p.
    pub fn det(self, p: Pos) -> f32
        ensures { result ≡ det_of self p }
    {
        self.x * p.y - self.y * p.x
    }

    // The distance from (0, 0): the root of x * x + y * y.
    pub fn length(self) -> f32
        ensures { result ≡ length_of self }
    {
        num_roots::root(self.x * self.x + self.y * self.y)
    }
}

// self and p added, coordinate by coordinate.
impl Add for Pos {
    ghost use Rattle.osu_pos.specs.Pos.{◌+ₚ◌};

    type Output = Pos;

    ghost add_gives = { λ p q r. r ≡ p +ₚ q };

    fn add(self, p: Pos) -> Pos {
        Pos {
            x: self.x + p.x,
            y: self.y + p.y,
        }
    }
}

// The way from p to self.
impl Sub for Pos {
    ghost use Rattle.osu_pos.specs.Pos.{◌-ₚ◌};

    type Output = Pos;

    ghost sub_gives = { λ p q r. r ≡ p -ₚ q };

    fn sub(self, p: Pos) -> Pos {
        Pos {
            x: self.x - p.x,
            y: self.y - p.y,
        }
    }
}

// Both coordinates times k.
impl Mul<f32> for Pos {
    ghost use Rattle.osu_pos.specs.Pos.{◌*ₚ◌};

    type Output = Pos;

    ghost mul_gives = { λ p k r. r ≡ p *ₚ k };

    fn mul(self, k: f32) -> Pos {
        Pos {
            x: self.x * k,
            y: self.y * k,
        }
    }
}
