// A chart's header and settings, and the conditions of opening in their order (document 01, "The chart" and "What each call answers").
#![tactic(auto)]

ghost use Rattle.std.specs.Prelude.{◌≡◌, ◌&&◌, ◌+◌, ◌*◌, ◌^◌, ◌<◌, ◌≤◌, leb, ltb, length};
ghost use Rattle.chart_fields.specs.Limits.{header_size, point_size};
ghost use Rattle.chart_fields.specs.Objects.{Holds};
ghost use Rattle.chart_fields.specs.Search.{first_below};
ghost use Rattle.chart_opening.specs.Limits.{settings_size};
ghost use Rattle.chart_opening.specs.Header.{size_for, format_of, layout_of, counts_ok, offsets_ok, frame_ok, flags_ok, header_ok};
ghost use Rattle.chart_opening.specs.Header.{settings_at, settings_ok, far_apart, too_long};
ghost use Rattle.chart_opening.specs.Conditions.{refusal_number, refusal_place, first_of, at_fault, body_conditions, under_conditions, open_verdict};

use chart_fields::Layout;

// Where a header's settings begin.
pub const SETTINGS_START: usize = 32;

// A chart's settings, the flags taken apart.
#[derive(Clone, Copy)]
pub struct Settings {
    pub clock_rate: f64,
    pub radius: f64,
    pub hit_window: f64,
    pub preempt: f64,
    pub fade_in: f64,
    pub factor: f32,
    pub hidden: bool,
    pub autopilot: bool,
}

// Why a call is refused: the ten conditions, with the offending place where they have one.
#[derive(Clone, Copy, Debug, PartialEq, Eq)]
pub enum Refusal {
    Header,
    Setting,
    Object(usize),
    Entries(usize),
    Order(usize),
    Length,
    Table,
    Place,
    Room,
    NotFinite,
}

impl Refusal {
    // The number of the condition.
    pub fn number(self) -> usize
        ensures { result ≡ refusal_number self }
    {
        match self {
            Refusal::Header => 1,
            Refusal::Setting => 2,
            Refusal::Object(_) => 3,
            Refusal::Entries(_) => 4,
            Refusal::Order(_) => 5,
            Refusal::Length => 6,
            Refusal::Table => 7,
            Refusal::Place => 8,
            Refusal::Room => 9,
            Refusal::NotFinite => 10,
        }
    }

    // The offending place, 0 where the condition has none.
    pub fn place(self) -> usize
        ensures { result ≡ refusal_place self }
    {
        match self {
            Refusal::Object(i) | Refusal::Entries(i) | Refusal::Order(i) => i,
            _ => 0,
        }
    }
}

// The bytes of an object by the word at 28.
#[tactic(auto, unfolding(crate::specs::Header::size_for))]
fn size_for(format: u32) -> usize
    ensures { result ≡ size_for format }
{
    if format == 1 {
        chart_fields::STATED_SIZE
    } else {
        chart_fields::OBJECT_SIZE
    }
}

// The layout that the counts of a header and its word at 28 ask for; whether the rest of the header agrees is condition 1.
pub fn layout_of(s: &[u8]) -> Layout
    requires { header_size ≤ length s.now }
    ensures { result ≡ layout_of s.now }
{
    // Not by count_at: that these fit a u32 is what keeps the offsets small.
    let n = num_floats::u32_at(s, 0) as usize;
    let nested = num_floats::u32_at(s, 4) as usize;
    let points = num_floats::count_at(s, 8);
    let object_size = size_for(num_floats::u32_at(s, 28));
    let nested_at = chart_fields::HEADER_SIZE + object_size * n;
    Layout {
        n,
        nested,
        points,
        object_size,
        nested_at,
        points_at: nested_at + chart_fields::NESTED_SIZE * nested,
    }
}

// Whether the counts are within their limits, and the word at 28 is 0 or 1.
#[tactic(auto, unfolding(crate::specs::Header::counts_ok, crate::specs::Header::layout_of))]
fn counts_ok(s: &[u8]) -> bool
    requires { header_size ≤ length s.now }
    ensures { result ≡ (counts_ok (layout_of s.now) && leb (format_of s.now) 1) }
{
    num_floats::count_at(s, 0) <= chart_fields::MOST_OBJECTS
        && num_floats::count_at(s, 4) <= chart_fields::MOST_ENTRIES
        && num_floats::count_at(s, 8) <= chart_fields::MOST_ENTRIES
        && num_floats::u32_at(s, 28) <= 1
}

// Whether the header's offsets and length are those of its counts, and the buffer has that length at least.
#[tactic(auto, unfolding(crate::specs::Header::offsets_ok))]
fn offsets_ok(s: &[u8], lay: Layout) -> bool
    requires { (header_size ≤ length s.now) × (lay.points_at + point_size * lay.points < 2 ^ 64) }
    ensures { result ≡ offsets_ok s.now lay }
{
    (num_floats::count_at(s, 12) == chart_fields::HEADER_SIZE)
        & (num_floats::count_at(s, 16) == lay.nested_at)
        & (num_floats::count_at(s, 20) == lay.points_at)
        & (num_floats::count_at(s, 24) == lay.points_at + chart_fields::POINT_SIZE * lay.points)
        & (num_floats::count_at(s, 24) <= s.len())
}

// Whether the header is right but for its flags.
#[tactic(auto, unfolding(crate::specs::Header::frame_ok))]
pub fn frame_ok(s: &[u8]) -> bool
    ensures { result ≡ frame_ok s.now }
{
    chart_fields::HEADER_SIZE <= s.len() && counts_ok(s) && offsets_ok(s, layout_of(s))
}

// Whether the flags' reserved bits are 0.
#[tactic(auto, unfolding(crate::specs::Header::flags_ok))]
pub fn flags_ok(flags: u32) -> bool
    ensures { result ≡ flags_ok flags }
{
    flags < 4
}

// Whether the header is right: condition 1 is that it is not.
#[tactic(auto, unfolding(crate::specs::Header::header_ok))]
pub fn header_ok(s: &[u8]) -> bool
    ensures { result ≡ header_ok s.now }
{
    frame_ok(s) && flags_ok(num_floats::u32_at(s, 76))
}

// The settings at an offset.
#[tactic(auto, unfolding(crate::specs::Header::settings_at))]
pub fn settings_at(s: &[u8], at: usize) -> Settings
    requires { at + settings_size ≤ length s.now }
    ensures { result ≡ settings_at s.now at }
{
    let flags = num_floats::u32_at(s, at + 44);
    Settings {
        clock_rate: num_floats::f64_at(s, at),
        radius: num_floats::f64_at(s, at + 8),
        hit_window: num_floats::f64_at(s, at + 16),
        preempt: num_floats::f64_at(s, at + 24),
        fade_in: num_floats::f64_at(s, at + 32),
        factor: num_floats::f32_at(s, at + 40),
        hidden: flags % 2 == 1,
        autopilot: flags / 2 % 2 == 1,
    }
}

// Whether every setting is in its range: condition 2 is that one is not.
#[tactic(auto, unfolding(crate::specs::Header::settings_ok))]
pub fn settings_ok(t: Settings) -> bool
    ensures { result ≡ settings_ok t }
{
    ((0.25 <= t.clock_rate) & (t.clock_rate <= 4.0))
        & ((1.0 <= t.radius) & (t.radius <= 200.0))
        & ((1.0 <= t.hit_window) & (t.hit_window <= 400.0))
        & ((1.0 <= t.preempt) & (t.preempt <= 10_000.0))
        & ((1.0 <= t.fade_in) & (t.fade_in <= 10_000.0))
        & ((0.25 <= t.factor) & (t.factor <= 50.0))
}

// Whether the starts of place N-1 and of place 1 are more than 3,000,000 ms apart at a clock rate.
pub fn far_apart(last: f64, first: f64, clock: f64) -> bool
    ensures { result ≡ far_apart last first clock }
{
    !(last / clock - first / clock <= 3_000_000.0)
}

// Condition 6.
#[tactic(auto, unfolding(crate::specs::Header::too_long))]
pub fn too_long(chart: &[u8], lay: Layout, clock: f64) -> bool
    requires { Holds chart.now lay }
    ensures { result ≡ too_long chart.now lay clock }
{
    2 <= lay.n
        && far_apart(
            chart_fields::fields_of(chart, lay, lay.n - 1).start,
            chart_fields::fields_of(chart, lay, 1).start,
            clock,
        )
}

// Whether a place breaks condition 3, 4 or 5. A slider's fields are read again with its entries: fields that are lent on
// would be written to memory for every object.
fn has_fault(chart: &[u8], lay: Layout) -> bool
    requires { Holds chart.now lay }
    ensures { result ≡ ltb (first_below (at_fault chart.now lay) lay.n) lay.n }
{
    let mut last = 0.0;
    for i in 0..lay.n {
        let f = chart_fields::fields_of(chart, lay, i);
        if !chart_fields::fields_ok(f) | (0 < i) & (f.start < last) {
            return true;
        }
        if f.is_slider() && chart_entries::bad_entries(chart, lay, i) {
            return true;
        }
        last = f.start;
    }
    false
}

// Conditions 3 to 6, each over the whole chart before the next.
fn check_in_turn(chart: &[u8], lay: Layout, clock: f64) -> Result<(), Refusal>
    requires { Holds chart.now lay }
    ensures { result ≡ first_of (body_conditions chart.now lay clock) }
{
    if let Some(object) = chart_fields::first_bad_fields(chart, lay) {
        return Err(Refusal::Object(object));
    }
    if let Some(entries) = chart_entries::first_bad_entries(chart, lay) {
        return Err(Refusal::Entries(entries));
    }
    if let Some(order) = chart_fields::first_fall(chart, lay) {
        return Err(Refusal::Order(order));
    }
    if too_long(chart, lay, clock) {
        return Err(Refusal::Length);
    }
    Ok(())
}

// Conditions 3 to 6. A chart without a fault is gone over once; where there is one, the conditions' order names it.
pub fn check_body(chart: &[u8], lay: Layout, clock: f64) -> Result<(), Refusal>
    requires { Holds chart.now lay }
    ensures { result ≡ first_of (body_conditions chart.now lay clock) }
{
    if has_fault(chart, lay) {
        return check_in_turn(chart, lay, clock);
    }
    if too_long(chart, lay, clock) {
        return Err(Refusal::Length);
    }
    Ok(())
}

// Conditions 2 to 7 under given settings, of a chart whose header is right; entries is the number of entries of the shortest table.
pub fn check_under(chart: &[u8], set: Settings, entries: usize) -> Result<(), Refusal>
    requires { (header_size ≤ length chart.now) × Holds chart.now (layout_of chart.now) }
    ensures { result ≡ first_of (under_conditions chart.now set entries) }
{
    let lay = layout_of(chart);
    if !settings_ok(set) {
        return Err(Refusal::Setting);
    }
    check_body(chart, lay, set.clock_rate)?;
    if entries < lay.n {
        return Err(Refusal::Table);
    }
    Ok(())
}

// Conditions 1 to 7.
pub fn check(chart: &[u8], entries: usize) -> Result<(), Refusal>
    ensures { result ≡ open_verdict chart.now entries }
{
    if !header_ok(chart) {
        return Err(Refusal::Header);
    }
    check_under(chart, settings_at(chart, SETTINGS_START), entries)
}
