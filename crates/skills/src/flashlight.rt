// The constants of skills/flashlight.rs.
pub const SKILL_MULTIPLIER: f64 = 0.05512;

pub const STRAIN_DECAY_BASE: f64 = 0.15;
