// A slider's nested entries and points, and condition 4 on them (document 01, "The chart" and "What each call answers").
#![tactic(auto)]

ghost use Rattle.std.specs.Prelude.{◌≡◌, ◌&&◌, ◌||◌, ◌+◌, ◌<◌, ◌≤◌, eqb, leb, ltb, length, not};
ghost use Rattle.chart_fields.specs.Limits.{nested_size, point_size};
ghost use Rattle.chart_fields.specs.Objects.{Holds};
ghost use Rattle.chart_fields.specs.Search.{first_below, place_below};
ghost use Rattle.chart_entries.specs.Kinds.{Named};
ghost use Rattle.chart_entries.specs.Entries.{tail, nested_at, nested_of, point_at, point_of, nested_ok, in_order, in_time, nested_bad};
ghost use Rattle.chart_entries.specs.Entries.{length_ok, point_ok, point_bad, runs_ok, wrong_entries, bad_entries};

use chart_fields::{Fields, Layout, UnknownKind};

// The kinds of nested entries: the Rust's NestedSliderObjectKind, by the chart's numbers.
#[derive(Clone, Copy, Debug, PartialEq, Eq)]
pub enum NestedKind {
    Tick,
    Repeat,
    Tail,
}

impl TryFrom<u32> for NestedKind {
    type Error = UnknownKind;

    ghost try_from_gives = { Named };

    fn try_from(number: u32) -> Result<Self, UnknownKind> {
        match number {
            0 => Ok(NestedKind::Tick),
            1 => Ok(NestedKind::Repeat),
            2 => Ok(NestedKind::Tail),
            _ => Err(UnknownKind(number)),
        }
    }
}

// A nested entry's fields as they are stored: a tick, a repeat or the tail of a slider.
#[derive(Clone, Copy)]
pub struct Nested {
    pub start: f64,
    pub x: f32,
    pub y: f32,
    pub kind: u32,
    pub zero: u32,
}

// A point of a slider's path, and the path's length up to it.
#[derive(Clone, Copy)]
pub struct Point {
    pub x: f32,
    pub y: f32,
    pub length: f64,
}

// The nested entry at an offset.
#[tactic(auto, unfolding(crate::specs::Entries::nested_at))]
fn nested_at(s: &[u8], at: usize) -> Nested
    requires { at + nested_size ≤ length s.now }
    ensures { result ≡ nested_at s.now at }
{
    Nested {
        start: num_floats::f64_at(s, at),
        x: num_floats::f32_at(s, at + 8),
        y: num_floats::f32_at(s, at + 12),
        kind: num_floats::u32_at(s, at + 16),
        zero: num_floats::u32_at(s, at + 20),
    }
}

// The nested entry of a number.
#[tactic(auto, unfolding(crate::specs::Entries::nested_of))]
pub fn nested_of(chart: &[u8], lay: Layout, e: usize) -> Nested
    requires { Holds chart.now lay × (e < lay.nested) }
    ensures { result ≡ nested_of chart.now lay e }
{
    nested_at(chart, lay.nested_at + chart_fields::NESTED_SIZE * e)
}

// The point at an offset.
#[tactic(auto, unfolding(crate::specs::Entries::point_at))]
fn point_at(s: &[u8], at: usize) -> Point
    requires { at + point_size ≤ length s.now }
    ensures { result ≡ point_at s.now at }
{
    Point {
        x: num_floats::f32_at(s, at),
        y: num_floats::f32_at(s, at + 4),
        length: num_floats::f64_at(s, at + 8),
    }
}

// The point of a number.
#[tactic(auto, unfolding(crate::specs::Entries::point_of))]
pub fn point_of(chart: &[u8], lay: Layout, e: usize) -> Point
    requires { Holds chart.now lay × (e < lay.points) }
    ensures { result ≡ point_of chart.now lay e }
{
    point_at(chart, lay.points_at + chart_fields::POINT_SIZE * e)
}

// Whether a nested entry's kind is the tail as the last of its slider's, and a tick or a repeat as another.
fn kind_ok(kind: u32, last: bool) -> bool
    ensures { result ≡ (last && eqb kind tail || not last && ltb kind tail) }
{
    match NestedKind::try_from(kind) {
        Ok(NestedKind::Tail) => last,
        Ok(NestedKind::Tick | NestedKind::Repeat) => !last,
        Err(_) => false,
    }
}

// Whether a nested entry is right as the last of its slider's, or as another.
#[tactic(auto, unfolding(crate::specs::Entries::nested_ok))]
fn nested_ok(e: Nested, last: bool) -> bool
    ensures { result ≡ nested_ok e last }
{
    chart_fields::time_ok(e.start)
        & chart_fields::coordinate_ok(e.x)
        & chart_fields::coordinate_ok(e.y)
        & kind_ok(e.kind, last)
        & (e.zero == 0)
}

// Whether entry b may follow a, neither of them the tail: starts never fall, and of equal ones a tick comes before a repeat.
#[tactic(auto, unfolding(crate::specs::Entries::in_order))]
fn in_order(a: Nested, b: Nested) -> bool
    ensures { result ≡ in_order a b }
{
    (a.start < b.start) | (a.start == b.start) & (a.kind <= b.kind)
}

// Whether entry k of count nested entries from first on is the first, the tail, or may follow the one before.
#[tactic(auto, unfolding(crate::specs::Entries::in_time))]
fn in_time(chart: &[u8], lay: Layout, first: usize, count: usize, k: usize) -> bool
    requires { Holds chart.now lay × (first + count ≤ lay.nested) × (k < count) }
    ensures { result ≡ in_time chart.now lay first count k }
{
    k == 0
        || k + 1 == count
        || in_order(
            nested_of(chart, lay, first + (k - 1)),
            nested_of(chart, lay, first + k),
        )
}

// Whether entry k of count nested entries from first on is wrong.
#[tactic(auto, unfolding(crate::specs::Entries::nested_bad))]
fn nested_bad(chart: &[u8], lay: Layout, first: usize, count: usize, k: usize) -> bool
    requires { Holds chart.now lay × (first + count ≤ lay.nested) × (k < count) }
    ensures { result ≡ nested_bad chart.now lay first count k }
{
    !(nested_ok(nested_of(chart, lay, first + k), k + 1 == count)
        & in_time(chart, lay, first, count, k))
}

// Whether one of count nested entries from first on is wrong.
fn any_bad_nested(chart: &[u8], lay: Layout, first: usize, count: usize) -> bool
    requires { Holds chart.now lay × (first + count ≤ lay.nested) }
    ensures { result ≡ not (eqb (first_below (nested_bad chart.now lay first count) count) count) }
{
    (0..count).any(|k| nested_bad(chart, lay, first, count, k))
}

// Whether the length at point k of those from first on is 0 for the first, and not below the one before for another.
#[tactic(auto, unfolding(crate::specs::Entries::length_ok))]
fn length_ok(chart: &[u8], lay: Layout, first: usize, k: usize) -> bool
    requires { Holds chart.now lay × (first + k < lay.points) }
    ensures { result ≡ length_ok chart.now lay first k }
{
    let length = point_of(chart, lay, first + k).length;
    if k == 0 {
        length == 0.0
    } else {
        point_of(chart, lay, first + (k - 1)).length <= length
    }
}

// Whether a point's coordinates and length are in their ranges.
#[tactic(auto, unfolding(crate::specs::Entries::point_ok))]
fn point_ok(p: Point) -> bool
    ensures { result ≡ point_ok p }
{
    chart_fields::coordinate_ok(p.x)
        & chart_fields::coordinate_ok(p.y)
        & ((0.0 <= p.length) & (p.length <= chart_fields::LONGEST_PATH))
}

// Whether point k of those from first on is wrong.
#[tactic(auto, unfolding(crate::specs::Entries::point_bad))]
fn point_bad(chart: &[u8], lay: Layout, first: usize, k: usize) -> bool
    requires { Holds chart.now lay × (first + k < lay.points) }
    ensures { result ≡ point_bad chart.now lay first k }
{
    !(point_ok(point_of(chart, lay, first + k)) & length_ok(chart, lay, first, k))
}

// Whether one of count points from first on is wrong.
fn any_bad_point(chart: &[u8], lay: Layout, first: usize, count: usize) -> bool
    requires { Holds chart.now lay × (first + count ≤ lay.points) }
    ensures { result ≡ not (eqb (first_below (point_bad chart.now lay first) count) count) }
{
    (0..count).any(|k| point_bad(chart, lay, first, k))
}

// Whether count entries from first on lie in a table of all; the sum of the two may not fit.
fn run_within(first: usize, count: usize, all: usize) -> bool
    ensures { result ≡ leb (first + count) all }
{
    first.checked_add(count).is_some_and(|end| end <= all)
}

// Whether a slider's entries lie in their tables and are right; they are read only where they lie there.
#[tactic(auto, unfolding(crate::specs::Entries::runs_ok))]
pub fn runs_ok(chart: &[u8], lay: Layout, f: Fields) -> bool
    requires { Holds chart.now lay }
    ensures { result ≡ runs_ok chart.now lay f }
{
    run_within(f.first_nested, f.nested_count, lay.nested)
        && run_within(f.first_point, f.point_count, lay.points)
        && !any_bad_nested(chart, lay, f.first_nested, f.nested_count)
        && !any_bad_point(chart, lay, f.first_point, f.point_count)
}

// Condition 4 of an object with these fields: it is a slider, and its entries are not right.
pub fn wrong_entries(chart: &[u8], lay: Layout, f: Fields) -> bool
    requires { Holds chart.now lay }
    ensures { result ≡ wrong_entries chart.now lay f }
{
    f.is_slider() && !runs_ok(chart, lay, f)
}

// Condition 4 at a place.
#[tactic(auto, unfolding(crate::specs::Entries::bad_entries))]
pub fn bad_entries(chart: &[u8], lay: Layout, i: usize) -> bool
    requires { Holds chart.now lay × (i < lay.n) }
    ensures { result ≡ bad_entries chart.now lay i }
{
    wrong_entries(chart, lay, chart_fields::fields_of(chart, lay, i))
}

// The lowest place that breaks condition 4.
pub fn first_bad_entries(chart: &[u8], lay: Layout) -> Option<usize>
    requires { Holds chart.now lay }
    ensures { result ≡ place_below (bad_entries chart.now lay) lay.n }
{
    (0..lay.n).find(|&i| bad_entries(chart, lay, i))
}
