// The constants of skills/aim.rs, for aim with and without sliders.
pub const SKILL_MULTIPLIER: f64 = 26.0;

pub const STRAIN_DECAY_BASE: f64 = 0.15;
