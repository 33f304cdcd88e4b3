// A chart's objects by a layout, and conditions 3 and 5 on them (document 01, "The chart" and "What each call answers").
#![tactic(auto)]

ghost use Rattle.std.specs.Prelude.{◌≡◌, ◌+◌, ◌<◌, ◌≤◌, eqb, length};
ghost use Rattle.chart_fields.specs.Limits.{object_size};
ghost use Rattle.chart_fields.specs.Kinds.{Named};
ghost use Rattle.chart_fields.specs.Search.{place_below};
ghost use Rattle.chart_fields.specs.Objects.{Holds, stated_length, fields_at, fields_of, time_ok, coordinate_ok, stack_ok};
ghost use Rattle.chart_fields.specs.Objects.{count_ok, plain_ok, slider_ok, kind_ok, fields_ok, bad_fields, falls, slider};

// The bytes of a chart's header, of an object, and of one with a stated length.
pub const HEADER_SIZE: usize = 80;

pub const OBJECT_SIZE: usize = 56;

pub const STATED_SIZE: usize = 64;

// The latest time, in milliseconds.
const LATEST_TIME: f64 = 10_000_000.0;

// How far coordinates and stack offsets reach either side of 0.
const FARTHEST_COORDINATE: f32 = 131_072.0;

const FARTHEST_STACK: f32 = 1_024.0;

// Spans, nested entries and points of a slider, each at most.
const MOST_PER_SLIDER: usize = 1_024;

// A slider's end minus its start, at least.
const SHORTEST_SLIDER: f64 = 0.001;

// The length of a path, at most.
pub const LONGEST_PATH: f64 = 1_000_000.0;

// The bytes of a nested entry, and of a point.
pub const NESTED_SIZE: usize = 24;

pub const POINT_SIZE: usize = 16;

// Objects of a chart, and its nested entries and points each, at most.
pub const MOST_OBJECTS: usize = 16_384;

pub const MOST_ENTRIES: usize = 65_536;

// The kinds of objects, by the chart's numbers.
#[derive(Clone, Copy, Debug, PartialEq, Eq)]
pub enum ObjectKind {
    Circle,
    Slider,
    Spinner,
}

// A number that names no kind.
#[derive(Clone, Copy, Debug, PartialEq, Eq)]
pub struct UnknownKind(pub u32);

impl TryFrom<u32> for ObjectKind {
    type Error = UnknownKind;

    ghost try_from_gives = { Named };

    fn try_from(number: u32) -> Result<Self, UnknownKind> {
        match number {
            0 => Ok(ObjectKind::Circle),
            1 => Ok(ObjectKind::Slider),
            2 => Ok(ObjectKind::Spinner),
            _ => Err(UnknownKind(number)),
        }
    }
}

// The counts of a chart, an object's size in bytes, and the offsets of the two tables behind the objects: read from the header once.
#[derive(Clone, Copy)]
pub struct Layout {
    pub n: usize,
    pub nested: usize,
    pub points: usize,
    pub object_size: usize,
    pub nested_at: usize,
    pub points_at: usize,
}

// An object's fields as they are stored, whatever they hold; the length is the one that a slider states, 0 for the drawn one.
#[derive(Clone, Copy)]
pub struct Fields {
    pub start: f64,
    pub end: f64,
    pub x: f32,
    pub y: f32,
    pub stack_x: f32,
    pub stack_y: f32,
    pub kind: u32,
    pub spans: u32,
    pub first_nested: usize,
    pub nested_count: usize,
    pub first_point: usize,
    pub point_count: usize,
    pub length: f64,
}

impl Fields {
    // Whether the object is a slider.
    pub fn is_slider(self) -> bool
        ensures { result ≡ eqb self.kind slider }
    {
        self.kind == ObjectKind::Slider as u32
    }
}

// The stated length of the object of a size at an offset, 0 where objects of that size have none.
#[tactic(auto, unfolding(crate::specs::Objects::stated_length))]
fn stated_length(s: &[u8], at: usize, size: usize) -> f64
    requires { at + size ≤ length s.now }
    ensures { result ≡ stated_length s.now at size }
{
    if size == STATED_SIZE {
        num_floats::f64_at(s, at + OBJECT_SIZE)
    } else {
        0.0
    }
}

// The fields of the object of a size at an offset.
#[tactic(auto, unfolding(crate::specs::Objects::fields_at))]
pub fn fields_at(s: &[u8], at: usize, size: usize) -> Fields
    requires { (object_size ≤ size) × (at + size ≤ length s.now) }
    ensures { result ≡ fields_at s.now at size }
{
    Fields {
        start: num_floats::f64_at(s, at),
        end: num_floats::f64_at(s, at + 8),
        x: num_floats::f32_at(s, at + 16),
        y: num_floats::f32_at(s, at + 20),
        stack_x: num_floats::f32_at(s, at + 24),
        stack_y: num_floats::f32_at(s, at + 28),
        kind: num_floats::u32_at(s, at + 32),
        spans: num_floats::u32_at(s, at + 36),
        first_nested: num_floats::count_at(s, at + 40),
        nested_count: num_floats::count_at(s, at + 44),
        first_point: num_floats::count_at(s, at + 48),
        point_count: num_floats::count_at(s, at + 52),
        length: stated_length(s, at, size),
    }
}

// The fields of the object at a place.
#[tactic(auto, using(crate::specs::Place::place_within), unfolding(crate::specs::Objects::fields_of))]
pub fn fields_of(chart: &[u8], lay: Layout, i: usize) -> Fields
    requires { Holds chart.now lay × (i < lay.n) }
    ensures { result ≡ fields_of chart.now lay i }
{
    fields_at(chart, HEADER_SIZE + lay.object_size * i, lay.object_size)
}

// Whether t is a time: 0 to 10,000,000 ms.
pub fn time_ok(t: f64) -> bool
    ensures { result ≡ time_ok t }
{
    (0.0 <= t) & (t <= LATEST_TIME)
}

// Whether x is a coordinate: within 131,072 either side of 0.
pub fn coordinate_ok(x: f32) -> bool
    ensures { result ≡ coordinate_ok x }
{
    (-FARTHEST_COORDINATE <= x) & (x <= FARTHEST_COORDINATE)
}

// Whether x is a stack offset: within 1,024 either side of 0.
fn stack_ok(x: f32) -> bool
    ensures { result ≡ stack_ok x }
{
    (-FARTHEST_STACK <= x) & (x <= FARTHEST_STACK)
}

// Whether n is a count of a slider: 1 to 1,024.
fn count_ok(n: usize) -> bool
    ensures { result ≡ count_ok n }
{
    (1 <= n) & (n <= MOST_PER_SLIDER)
}

// Whether the last five of the old fields and the length are 0, as a circle's and a spinner's are.
fn plain_ok(f: Fields) -> bool
    ensures { result ≡ plain_ok f }
{
    (f.spans == 0)
        & (f.first_nested == 0)
        & (f.nested_count == 0)
        & (f.first_point == 0)
        & (f.point_count == 0)
        & (f.length == 0.0)
}

// Whether the length in time, the counts and the stated length are a slider's.
fn slider_ok(f: Fields) -> bool
    ensures { result ≡ slider_ok f }
{
    (SHORTEST_SLIDER <= f.end - f.start)
        & count_ok(f.spans as usize)
        & count_ok(f.nested_count)
        & count_ok(f.point_count)
        & ((0.0 <= f.length) & (f.length <= LONGEST_PATH))
}

// Whether the kind is one of the three, and the end, the fields behind it and the length are right for it.
fn kind_ok(f: Fields) -> bool
    ensures { result ≡ kind_ok f }
{
    match ObjectKind::try_from(f.kind) {
        Ok(ObjectKind::Circle) => (f.end == f.start) & plain_ok(f),
        Ok(ObjectKind::Slider) => slider_ok(f),
        Ok(ObjectKind::Spinner) => (f.start <= f.end) & plain_ok(f),
        Err(_) => false,
    }
}

// Whether an object's own fields are right: condition 3 is that they are not.
#[tactic(auto, unfolding(crate::specs::Objects::fields_ok))]
pub fn fields_ok(f: Fields) -> bool
    ensures { result ≡ fields_ok f }
{
    time_ok(f.start)
        & time_ok(f.end)
        & coordinate_ok(f.x)
        & coordinate_ok(f.y)
        & stack_ok(f.stack_x)
        & stack_ok(f.stack_y)
        & kind_ok(f)
}

// Condition 3 at a place.
#[tactic(auto, unfolding(crate::specs::Objects::bad_fields))]
fn bad_fields(chart: &[u8], lay: Layout, i: usize) -> bool
    requires { Holds chart.now lay × (i < lay.n) }
    ensures { result ≡ bad_fields chart.now lay i }
{
    !fields_ok(fields_of(chart, lay, i))
}

// The lowest place that breaks condition 3.
pub fn first_bad_fields(chart: &[u8], lay: Layout) -> Option<usize>
    requires { Holds chart.now lay }
    ensures { result ≡ place_below (bad_fields chart.now lay) lay.n }
{
    (0..lay.n).find(|&i| bad_fields(chart, lay, i))
}

// Condition 5 at the place of the later object: its start is before its predecessor's.
#[tactic(auto, unfolding(crate::specs::Objects::falls))]
pub fn falls_at(chart: &[u8], lay: Layout, i: usize) -> bool
    requires { Holds chart.now lay × (i < lay.n) }
    ensures { result ≡ falls chart.now lay i }
{
    0 < i && fields_of(chart, lay, i).start < fields_of(chart, lay, i - 1).start
}

// The lowest place that breaks condition 5.
pub fn first_fall(chart: &[u8], lay: Layout) -> Option<usize>
    requires { Holds chart.now lay }
    ensures { result ≡ place_below (falls chart.now lay) lay.n }
{
    (0..lay.n).find(|&i| falls_at(chart, lay, i))
}
