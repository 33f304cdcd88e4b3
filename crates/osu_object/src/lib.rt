// An object of the chart, with its nested entries and the points of its path (src/osu/object.rs).
#![tactic(auto)]

ghost use Rattle.std.specs.Prelude.{◌≡◌, true, ◌<◌};
ghost use Rattle.chart_fields.specs.Objects.{Holds};
ghost use Rattle.osu_object.specs.Osu.{osu_object, object_of, stacked_pos, is_slider, is_spinner};
ghost use Rattle.osu_object.specs.Osu.{Slides, Ready, nested_list, end_pos, stacked_end_pos};
ghost use Rattle.osu_object.specs.Base.{base_of, end_of, repeats_of};

use chart_fields::{Fields, Layout, ObjectKind};
use osu_pos::Pos;
pub use slider::OsuSlider;

mod slider;

// A slider's kind carries its end time and span count.
#[derive(Clone, Copy)]
pub enum OsuObjectKind {
    Circle,
    Spinner,
    Slider(f64, f64),
}

// An object without its entries. The length is the one that a slider's path is stated to have, 0 for the drawn one.
#[derive(Clone, Copy)]
pub struct OsuObject {
    pub pos: Pos,
    pub start_time: f64,
    pub stack_offset: Pos,
    pub kind: OsuObjectKind,
    pub length: f64,
}

// Where a slider's nested entries and points stand in their tables.
#[derive(Clone, Copy)]
pub struct Runs {
    pub nested_first: usize,
    pub nested_count: usize,
    pub point_first: usize,
    pub point_count: usize,
}

// The kind that a chart's number stands for; no object that opens has a fourth.
impl From<Fields> for OsuObjectKind {
    ghost use Rattle.osu_object.specs.Osu.{kind_of};

    ghost from_gives = { λ f k. k ≡ kind_of f };

    #[tactic(auto, unfolding(crate::specs::Osu::kind_of))]
    fn from(f: Fields) -> OsuObjectKind {
        match ObjectKind::try_from(f.kind) {
            Ok(ObjectKind::Circle) => OsuObjectKind::Circle,
            Ok(ObjectKind::Slider) => OsuObjectKind::Slider(f.end, f.spans as f64),
            Ok(ObjectKind::Spinner) | Err(_) => OsuObjectKind::Spinner,
        }
    }
}

// From the fields of the slider.
impl From<Fields> for Runs {
    ghost use Rattle.osu_object.specs.Osu.{runs_of};

    ghost from_gives = { λ f r. r ≡ runs_of f };

    fn from(f: Fields) -> Runs {
        Runs {
            nested_first: f.first_nested,
            nested_count: f.nested_count,
            point_first: f.first_point,
            point_count: f.point_count,
        }
    }
}

impl OsuObject {
    // From the fields of the object.
    pub fn new(f: Fields) -> OsuObject
        ensures { result ≡ osu_object f }
    {
        OsuObject {
            pos: Pos { x: f.x, y: f.y },
            start_time: f.start,
            stack_offset: Pos {
                x: f.stack_x,
                y: f.stack_y,
            },
            kind: OsuObjectKind::from(f),
            length: f.length,
        }
    }

    // The position, moved by the stack offset.
    pub fn stacked_pos(self) -> Pos
        ensures { result ≡ stacked_pos self }
    {
        self.pos + self.stack_offset
    }

    // Whether it is a slider.
    pub fn is_slider(self) -> bool
        ensures { result ≡ is_slider self.kind }
    {
        matches!(self.kind, OsuObjectKind::Slider(_, _))
    }

    // Whether it is a spinner.
    pub fn is_spinner(self) -> bool
        ensures { result ≡ is_spinner self.kind }
    {
        matches!(self.kind, OsuObjectKind::Spinner)
    }

    // The position where the object ends: a slider's tail, of which r says where it stands.
    pub fn end_pos(self, chart: &[u8], lay: Layout, r: Runs) -> Pos
        requires { is_slider self.kind ≡ true → Slides chart.now lay r }
        ensures { result ≡ end_pos self (nested_list chart.now lay r) }
    {
        match self.kind {
            OsuObjectKind::Circle => self.pos,
            OsuObjectKind::Spinner => self.pos,
            OsuObjectKind::Slider(_, _) => OsuSlider {
                chart,
                lay,
                runs: r,
            }
            .tail(),
        }
    }

    // The position where the object ends, moved by the stack offset.
    pub fn stacked_end_pos(self, chart: &[u8], lay: Layout, r: Runs) -> Pos
        requires { is_slider self.kind ≡ true → Slides chart.now lay r }
        ensures { result ≡ stacked_end_pos self (nested_list chart.now lay r) }
    {
        self.end_pos(chart, lay, r) + self.stack_offset
    }
}

// What the evaluators read of an object beside its nested entries; the position is stacked.
#[derive(Clone, Copy)]
pub struct BaseObject {
    pub slider: bool,
    pub spinner: bool,
    pub start_time: f64,
    pub pos: Pos,
}

// The base object at a place.
pub fn base_at(chart: &[u8], lay: Layout, j: usize) -> BaseObject
    requires { Holds chart.now lay × (j < lay.n) }
    ensures { result ≡ base_of (object_of chart.now lay j) }
{
    let o = OsuObject::new(chart_fields::fields_of(chart, lay, j));
    BaseObject {
        slider: o.is_slider(),
        spinner: o.is_spinner(),
        start_time: o.start_time,
        pos: o.stacked_pos(),
    }
}

// Where the object at a place ends, stacked: a slider at its tail.
pub fn end_at(chart: &[u8], lay: Layout, j: usize) -> Pos
    requires { Ready chart.now lay × (j < lay.n) }
    ensures { result ≡ end_of (object_of chart.now lay j) }
{
    let f = chart_fields::fields_of(chart, lay, j);
    let o = OsuObject::new(f);
    o.stacked_end_pos(chart, lay, Runs::from(f))
}

// The number of repeats of the object at a place, 0 where it is no slider.
pub fn repeats_at(chart: &[u8], lay: Layout, j: usize) -> u32
    requires { Ready chart.now lay × (j < lay.n) }
    ensures { result ≡ repeats_of (object_of chart.now lay j) }
{
    let f = chart_fields::fields_of(chart, lay, j);
    let o = OsuObject::new(f);
    if o.is_slider() {
        let runs = Runs::from(f);
        return OsuSlider { chart, lay, runs }.repeat_count();
    }
    0
}
