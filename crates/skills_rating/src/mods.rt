// The mods that ratings ask for.
ghost use Rattle.std.specs.Prelude.{◌≡◌};
ghost use Rattle.skills_rating.specs.Mods.{mods_of};
ghost use Rattle.skills_rating.specs.Rating as Rating;

// A flag for each of seven mods; attraction strength and start scale, each of which may be absent.
#[derive(Clone, Copy)]
pub struct Mods {
    pub autopilot: bool,
    pub relax: bool,
    pub touch_device: bool,
    pub hidden: bool,
    pub flashlight: bool,
    pub traceable: bool,
    pub fade_only: bool,
    pub attraction: Option<f64>,
    pub start_scale: Option<f64>,
}

impl Mods {
    // The flags from bits 0 to 6 of a word; its other bits are not read, nor is a number without its flag.
    pub fn from_word(
        word: u32,
        has_attraction: bool,
        attraction_strength: f64,
        has_start_scale: bool,
        start_scale: f64,
    ) -> Self
        ensures { result ≡ mods_of word has_attraction attraction_strength has_start_scale start_scale }
    {
        Self {
            autopilot: word % 2 == 1,
            relax: word / 2 % 2 == 1,
            touch_device: word / 4 % 2 == 1,
            hidden: word / 8 % 2 == 1,
            flashlight: word / 16 % 2 == 1,
            traceable: word / 32 % 2 == 1,
            fade_only: word / 64 % 2 == 1,
            attraction: has_attraction.then_some(attraction_strength),
            start_scale: has_start_scale.then_some(start_scale),
        }
    }

    // A rating on a touch device.
    pub fn touched(self, rating: f64) -> f64
        ensures { result ≡ Rating.touched self rating }
    {
        if self.touch_device {
            return num_elementary::power(rating, 0.8);
        }
        rating
    }

    // A rating under attraction.
    pub fn attracted(self, rating: f64) -> f64
        ensures { result ≡ Rating.attracted self rating }
    {
        if let Some(strength) = self.attraction {
            return rating * (1.0 - strength);
        }
        rating
    }

    // The speed rating under attraction, which takes off 0.3 of it at most.
    pub fn speed_attracted(self, rating: f64) -> f64
        ensures { result ≡ Rating.speed_attracted self rating }
    {
        if let Some(strength) = self.attraction {
            return rating * (1.0 - strength * 0.3);
        }
        rating
    }

    // The flashlight rating under relax or autopilot.
    pub fn helped(self, rating: f64) -> f64
        ensures { result ≡ Rating.helped self rating }
    {
        if self.relax {
            return rating * 0.7;
        }
        scaled_if(self.autopilot, 0.4, rating)
    }

    // The flashlight rating of circles that start larger.
    pub fn deflated(self, rating: f64) -> f64
        ensures { result ≡ Rating.deflated self rating }
    {
        if let Some(scale) = self.start_scale {
            let share = num_util::difficulty::reverse_lerp(scale, 11.0, 1.0);
            return rating * num_floats::clamp(share, 0.1, 1.0);
        }
        rating
    }
}

// A rating times a number where a mod is on.
pub fn scaled_if(on: bool, by: f64, rating: f64) -> f64
    ensures { result ≡ Rating.scaled_if on by rating }
{
    if on { rating * by } else { rating }
}
