// Values while playing: the totals over the first places of a chart, for every number of places, from one walk.
#![tactic(auto)]

ghost use Rattle.std.specs.Prelude.{◌≡◌, ◌+◌, ◌-◌, ◌*◌, ◌≤◌, ◌<◌, length, take, replicate};
ghost use Rattle.num_floats.specs.Numbers.{zero64};
ghost use Rattle.num_tables.specs.Parts.{row, put, fill};
ghost use Rattle.skills.specs.Chart.{Readable, Roomy};
ghost use Rattle.skills_peaks.specs.Peaks.{Sorted};
ghost use Rattle.skills_playing.specs.Playing.{totals_after, total_row, row_after};
ghost use Rattle.skills_playing.specs.Kept.{kept_with, open_total, Fit, Closed, Stepped, first_played};
ghost use Rattle.skills_playing.specs.Kept.{FourFit, FourStepped, four_totals, no_totals, first_objects};

use chart_fields::Layout;
use skills::{Skill, Skills};

// A skill's walk so far: the peaks above zero of the closed sections, in order, are the first `kept` numbers of its scratch; `count` sections are closed, and
// `sum` is the sum of their peaks; the open section's peak and its end; and the last place's decaying strain and strain.
#[derive(Clone, Copy)]
pub struct Played {
    pub kept: usize,
    pub count: usize,
    pub sum: f64,
    pub peak: f64,
    pub end: f64,
    pub current: f64,
    pub strain: f64,
}

// The four skills' walks.
#[derive(Clone, Copy)]
pub struct Four {
    pub aim: Played,
    pub aim_no_sliders: Played,
    pub speed: Played,
    pub flashlight: Played,
}

// A closed section's peak, for the skills whose value asks for the peaks in order.
#[tactic(auto, unfolding(crate::specs::Kept::kept_with))]
fn keep_peak(peaks: &mut [f64], n: usize, skill: Skill, x: f64) -> usize
    requires { (n < length peaks.old) × (Sorted (take n peaks.old)) }
    ensures { (result ≤ n + 1) × (take result peaks.new ≡ kept_with skill (take n peaks.old) x) }
{
    match skill {
        Skill::Aim | Skill::AimNoSliders | Skill::Speed => skills_peaks::close_peak(peaks, n, x),
        Skill::Flashlight => n,
    }
}

// A skill's total, from the closed sections' peaks in order, their sum, and the open section's peak.
#[tactic(auto, unfolding(crate::specs::Kept::open_total))]
fn total_open(skill: Skill, s: &[f64], sum: f64, peak: f64) -> f64
    requires { Sorted s.now }
    ensures { result ≡ open_total skill s.now sum peak }
{
    match skill {
        Skill::Aim | Skill::AimNoSliders => skills_peaks::aim_value(s, peak),
        Skill::Speed => skills_peaks::speed_value(s, peak),
        Skill::Flashlight => sum + peak,
    }
}

// Closes sections while `start` is after the open one's end. `last` is the start of the place before.
fn close_sections(peaks: &mut [f64], from: Played, skill: Skill, last: f64, start: f64) -> Played
    requires { Fit peaks.old from }
    ensures { Closed skill last start peaks.old from peaks.new result }
{
    let mut s = from;
    while s.count < skills::ROOM && s.end < start {
        s = Played {
            kept: keep_peak(peaks, s.kept, skill, s.peak),
            count: s.count + 1,
            sum: s.sum + s.peak,
            peak: skills::calculate_initial_strain(skill, from.strain, last, s.end),
            end: s.end + skills::SECTION_LENGTH,
            ..s
        };
    }
    s
}

// One place more: j, which starts at `start`, `delta` after the place before; that one starts at `last`.
fn place(
    values: &[f64],
    j: usize,
    skill: Skill,
    from: Played,
    last: f64,
    start: f64,
    delta: f64,
    peaks: &mut [f64],
) -> Played
    requires { (Fit peaks.old from) × (1 ≤ j) × (5 * j + 5 ≤ length values.now) }
    ensures { Stepped skill (row 5 values.now) j last start delta peaks.old from peaks.new result }
{
    let closed = close_sections(peaks, from, skill, last, start);
    let current = skills::current_strain(values, j, skill, from.current, delta);
    let strain = skills::strain_value_at(values, j, skill, current);
    Played {
        peak: num_floats::max(closed.peak, strain),
        current,
        strain,
        ..closed
    }
}

// Before place 1, which starts at `start`.
fn first_played(start: f64) -> Played
    ensures { result ≡ first_played start }
{
    let skills::Sections { count, peak, end } = skills::open_first(start);
    Played {
        kept: 0,
        count,
        sum: 0.0,
        peak,
        end,
        current: 0.0,
        strain: 0.0,
    }
}

// One place more of the four walks.
fn place_all(
    values: &[f64],
    j: usize,
    from: Four,
    last: f64,
    start: f64,
    delta: f64,
    aim: &mut [f64],
    aim_no_sliders: &mut [f64],
    speed: &mut [f64],
    flashlight: &mut [f64],
) -> Four
    requires { (FourFit aim.old aim_no_sliders.old speed.old flashlight.old from) × (1 ≤ j) × (5 * j + 5 ≤ length values.now) }
    ensures { FourStepped (row 5 values.now) j last start delta
        aim.old aim_no_sliders.old speed.old flashlight.old from
        aim.new aim_no_sliders.new speed.new flashlight.new result }
{
    Four {
        aim: place(values, j, Skill::Aim, from.aim, last, start, delta, aim),
        aim_no_sliders: place(
            values,
            j,
            Skill::AimNoSliders,
            from.aim_no_sliders,
            last,
            start,
            delta,
            aim_no_sliders,
        ),
        speed: place(
            values,
            j,
            Skill::Speed,
            from.speed,
            last,
            start,
            delta,
            speed,
        ),
        flashlight: place(
            values,
            j,
            Skill::Flashlight,
            from.flashlight,
            last,
            start,
            delta,
            flashlight,
        ),
    }
}

// A skill's total after the places so far.
fn total_of(skill: Skill, s: Played, peaks: &[f64]) -> f64
    requires { Fit peaks.now s }
    ensures { result ≡ open_total skill (take s.kept peaks.now) s.sum s.peak }
{
    total_open(skill, &peaks[..s.kept], s.sum, s.peak)
}

// The four totals after the places so far.
fn totals_of(
    s: Four,
    aim: &[f64],
    aim_no_sliders: &[f64],
    speed: &[f64],
    flashlight: &[f64],
) -> Skills
    requires { FourFit aim.now aim_no_sliders.now speed.now flashlight.now s }
    ensures { result ≡ four_totals s aim.now aim_no_sliders.now speed.now flashlight.now }
{
    Skills {
        aim: total_of(Skill::Aim, s.aim, aim),
        aim_no_sliders: total_of(Skill::AimNoSliders, s.aim_no_sliders, aim_no_sliders),
        speed: total_of(Skill::Speed, s.speed, speed),
        flashlight: total_of(Skill::Flashlight, s.flashlight, flashlight),
    }
}

// Row m of a list of four numbers an entry.
fn put_row(list: &mut [f64], m: usize, t: Skills)
    requires { 4 * m + 4 ≤ length list.old }
    ensures { list.new ≡ put (4 * m) (total_row t) list.old }
{
    let at = 4 * m;
    list[at] = t.aim;
    list[at + 1] = t.aim_no_sliders;
    list[at + 2] = t.speed;
    list[at + 3] = t.flashlight;
}

// Entries 2 to n, for a chart of n objects, two or more. What the scratch holds afterwards is not said.
fn play(
    chart: &[u8],
    lay: Layout,
    clock: f64,
    values: &[f64],
    list: &mut [f64],
    aim: &mut [f64],
    aim_no_sliders: &mut [f64],
    speed: &mut [f64],
    flashlight: &mut [f64],
)
    requires { (Readable chart.now lay values.now) × (2 ≤ lay.n) × (4 * (lay.n + 1) ≤ length list.old)
        × (Roomy aim.old) × (Roomy aim_no_sliders.old) × (Roomy speed.old) × (Roomy flashlight.old) }
    ensures { list.new ≡ fill 4 (row_after chart.now lay clock values.now) 2 (lay.n - 1) list.old }
{
    let first = first_played(skills::raw_start(chart, lay, 1) / clock);
    let mut s = Four {
        aim: first,
        aim_no_sliders: first,
        speed: first,
        flashlight: first,
    };
    let mut raw_last = skills::raw_start(chart, lay, 0);
    let mut last = 0.0;
    for j in 1..lay.n {
        let raw = skills::raw_start(chart, lay, j);
        let start = raw / clock;
        let delta = (raw - raw_last) / clock;
        s = place_all(
            values,
            j,
            s,
            last,
            start,
            delta,
            aim,
            aim_no_sliders,
            speed,
            flashlight,
        );
        let totals = totals_of(s, aim, aim_no_sliders, speed, flashlight);
        put_row(list, j + 1, totals);
        raw_last = raw;
        last = start;
    }
}

// The totals where there is no place: after 0 objects and after 1.
fn no_totals() -> Skills
    ensures { result ≡ no_totals }
{
    Skills {
        aim: 0.0,
        aim_no_sliders: 0.0,
        speed: 0.0,
        flashlight: 0.0,
    }
}

// Entries 0 to n. What the scratch holds afterwards is not said.
fn fill_entries(
    chart: &[u8],
    lay: Layout,
    clock: f64,
    values: &[f64],
    list: &mut [f64],
    aim: &mut [f64],
    aim_no_sliders: &mut [f64],
    speed: &mut [f64],
    flashlight: &mut [f64],
)
    requires { (Readable chart.now lay values.now) × (4 * (lay.n + 1) ≤ length list.old)
        × (Roomy aim.old) × (Roomy aim_no_sliders.old) × (Roomy speed.old) × (Roomy flashlight.old) }
    ensures { list.new ≡ fill 4 (row_after chart.now lay clock values.now) 0 (lay.n + 1) list.old }
{
    let n = lay.n;
    put_row(list, 0, no_totals());
    if n < 1 {
        return;
    }
    put_row(list, 1, no_totals());
    if n < 2 {
        return;
    }
    play(
        chart,
        lay,
        clock,
        values,
        list,
        aim,
        aim_no_sliders,
        speed,
        flashlight,
    );
}

// The totals reached after the first m objects, for each m from 0 to n, the chart's objects: entry m of the list, four numbers, has the totals over places 1
// to m - 1. What the list holds past entry n stays. All scratch is 0 afterwards, for charts of 0 and 1 objects too.
pub fn totals_while_playing(
    chart: &[u8],
    lay: Layout,
    clock: f64,
    values: &[f64],
    list: &mut [f64],
    aim: &mut [f64],
    aim_no_sliders: &mut [f64],
    speed: &mut [f64],
    flashlight: &mut [f64],
)
    requires { (Readable chart.now lay values.now) × (4 * (lay.n + 1) ≤ length list.old)
        × (Roomy aim.old) × (Roomy aim_no_sliders.old) × (Roomy speed.old) × (Roomy flashlight.old) }
    ensures entries { list.new
        ≡ fill 4 (row_after chart.now lay clock values.now) 0 (lay.n + 1) list.old }
    ensures first { aim.new ≡ replicate (length aim.old) zero64 }
    ensures second { aim_no_sliders.new ≡ replicate (length aim_no_sliders.old) zero64 }
    ensures third { speed.new ≡ replicate (length speed.old) zero64 }
    ensures fourth { flashlight.new ≡ replicate (length flashlight.old) zero64 }
{
    fill_entries(
        chart,
        lay,
        clock,
        values,
        list,
        aim,
        aim_no_sliders,
        speed,
        flashlight,
    );
    skills::clear(aim);
    skills::clear(aim_no_sliders);
    skills::clear(speed);
    skills::clear(flashlight);
}

// The layout of the first m objects.
fn first_objects(lay: Layout, m: usize) -> Layout
    ensures { result ≡ first_objects lay m }
{
    Layout { n: m, ..lay }
}

// The totals reached after the first m objects, for one m. All scratch is 0 afterwards.
pub fn totals_to(
    chart: &[u8],
    lay: Layout,
    clock: f64,
    values: &[f64],
    m: usize,
    aim: &mut [f64],
    aim_no_sliders: &mut [f64],
    speed: &mut [f64],
    flashlight: &mut [f64],
) -> Skills
    requires { (Readable chart.now lay values.now) × (m ≤ lay.n)
        × (Roomy aim.old) × (Roomy aim_no_sliders.old) × (Roomy speed.old) × (Roomy flashlight.old) }
    ensures result { result ≡ totals_after chart.now lay clock values.now m }
    ensures first { aim.new ≡ replicate (length aim.old) zero64 }
    ensures second { aim_no_sliders.new ≡ replicate (length aim_no_sliders.old) zero64 }
    ensures third { speed.new ≡ replicate (length speed.old) zero64 }
    ensures fourth { flashlight.new ≡ replicate (length flashlight.old) zero64 }
{
    skills::totals(
        chart,
        first_objects(lay, m),
        clock,
        values,
        aim,
        aim_no_sliders,
        speed,
        flashlight,
    )
}
