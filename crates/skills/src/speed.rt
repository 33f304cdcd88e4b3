// The constants of skills/speed.rs.
pub const SKILL_MULTIPLIER: f64 = 1.47;

pub const STRAIN_DECAY_BASE: f64 = 0.3;

pub const REDUCED_SECTION_COUNT: usize = 5;
