// A slider's nested entries and the points of its path, which stand in the chart's tables; lookups on the path.
ghost use Rattle.std.specs.Prelude.{◌≡◌};
ghost use Rattle.osu_object.specs.Osu.{Slides};
ghost use Rattle.osu_object.specs.Path.{point_pos, between, whole_length};

use crate::Runs;
use chart_entries::{Nested, NestedKind, Point};
use chart_fields::Layout;
use osu_pos::Pos;

// The last two lengths of a path, at least so far apart where its last segment is prolonged.
const LEAST_APART: f64 = 0.001;

// A slider of a chart: its entries lie in the chart's tables.
#[derive(Clone, Copy)]
pub struct OsuSlider<'a> {
    pub chart: &'a [u8],
    pub lay: Layout,
    pub runs: Runs,
    ghost slides: { Slides chart.now lay runs },
}

impl OsuSlider<'_> {
    ghost use Rattle.std.specs.Prelude.{◌≡◌, ◌<◌, length};
    ghost use Rattle.osu_object.specs.Osu.{nested_list, point_list, nested_in, point_in, is_repeat, repeat_count, tail_of};
    ghost use Rattle.osu_object.specs.Path.{reaches, segment_of, lookup_at, prolonged, position_at};

    // Nested entry k.
    pub fn nested(&self, k: usize) -> Nested
        requires { k < self.now.runs.nested_count }
        ensures { result ≡ nested_in (nested_list self.now.chart.now self.now.lay self.now.runs) k }
    {
        chart_entries::nested_of(self.chart, self.lay, self.runs.nested_first + k)
    }

    // Point k of the path.
    pub fn point(&self, k: usize) -> Point
        requires { k < self.now.runs.point_count }
        ensures { result ≡ point_in (point_list self.now.chart.now self.now.lay self.now.runs) k }
    {
        chart_entries::point_of(self.chart, self.lay, self.runs.point_first + k)
    }

    // The position of the tail, which is the last entry.
    pub fn tail(&self) -> Pos
        ensures { result ≡ tail_of (nested_list self.now.chart.now self.now.lay self.now.runs) }
    {
        let e = self.nested(self.runs.nested_count - 1);
        Pos { x: e.x, y: e.y }
    }

    // Whether nested entry k is a repeat.
    fn is_repeat(&self, k: usize) -> bool
        requires { k < self.now.runs.nested_count }
        ensures { result ≡ is_repeat (nested_list self.now.chart.now self.now.lay self.now.runs) k }
    {
        self.nested(k).kind == NestedKind::Repeat as u32
    }

    // How many nested entries are repeats.
    pub fn repeat_count(&self) -> u32
        ensures { result ≡ repeat_count (nested_list self.now.chart.now self.now.lay self.now.runs) }
    {
        (0..self.runs.nested_count)
            .filter(|&k| self.is_repeat(k))
            .count() as u32
    }

    // Whether the path is at least d long at point k.
    fn reached(&self, d: f64, k: usize) -> bool
        requires { k < self.now.runs.point_count }
        ensures { result ≡ reaches (point_list self.now.chart.now self.now.lay self.now.runs) d k }
    {
        d <= self.point(k).length
    }

    // The first point with a length of at least d, the last if there is none.
    fn segment(&self, d: f64) -> usize
        ensures { (result ≡ segment_of (point_list self.now.chart.now self.now.lay self.now.runs) d) × (result < self.now.runs.point_count) }
    {
        let last = self.runs.point_count - 1;
        (0..last).find(|&k| self.reached(d, k)).unwrap_or(last)
    }

    // The position at length d on the path as it is drawn.
    fn on_path(&self, d: f64) -> Pos
        ensures { result ≡ (let ps = point_list self.now.chart.now self.now.lay self.now.runs in lookup_at ps d (segment_of ps d)) }
    {
        let i = self.segment(d);
        let p1 = self.point(i);
        if i == 0 {
            return point_pos(p1);
        }
        on_line(self.point(i - 1), p1, d)
    }

    // The position at length d beyond the drawn end: on the last segment prolonged, or on the last point where it is none or short.
    fn beyond(&self, d: f64) -> Pos
        ensures { result ≡ prolonged (point_list self.now.chart.now self.now.lay self.now.runs) d }
    {
        let count = self.runs.point_count;
        let p1 = self.point(count - 1);
        if count == 1 {
            return point_pos(p1);
        }
        let p0 = self.point(count - 2);
        if p1.length - p0.length < LEAST_APART {
            return point_pos(p1);
        }
        on_line(p0, p1, d)
    }

    // The position on the path of a stated length, relative to the head, at a progress from 0 to 1.
    pub fn position_at(&self, stated: f64, progress: f64) -> Pos
        ensures { result ≡ position_at (point_list self.now.chart.now self.now.lay self.now.runs) stated progress }
    {
        let last = self.point(self.runs.point_count - 1);
        let d = progress * whole_length(stated, last.length);
        if d <= last.length {
            return self.on_path(d);
        }
        self.beyond(d)
    }
}

// The position of a point, relative to the head.
fn point_pos(p: Point) -> Pos
    ensures { result ≡ point_pos p }
{
    Pos { x: p.x, y: p.y }
}

// The position at length d on the line from a to b.
fn on_line(a: Point, b: Point, d: f64) -> Pos
    ensures { result ≡ between a b d }
{
    let from = Pos { x: a.x, y: a.y };
    let to = Pos { x: b.x, y: b.y };
    let w = num_whole::f64_to_f32((d - a.length) / (b.length - a.length));
    from + (to - from) * w
}

// The length of the whole path: the stated one, or the drawn one where 0 is stated.
fn whole_length(stated: f64, drawn: f64) -> f64
    ensures { result ≡ whole_length stated drawn }
{
    if stated == 0.0 {
        return drawn;
    }
    stated
}
