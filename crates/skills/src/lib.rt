// Strains, the section walk and the totals of the four skills (document 01, "Strains and totals").
#![tactic(auto)]

ghost use Rattle.std.specs.Prelude.{◌≡◌, ◌+◌, ◌-◌, ◌*◌, ◌≤◌, ◌<◌, length, take, set, replicate};
ghost use Rattle.num_floats.specs.Numbers.{zero64};
ghost use Rattle.chart_fields.specs.Objects.{Holds, fields_of};
ghost use Rattle.num_tables.specs.Parts.{row, fill};
ghost use Rattle.skills.specs.Strains as strains;
ghost use Rattle.skills.specs.Chart.{Readable, Roomy, strain_row, peaks_of, total_of, totals_of};
ghost use Rattle.skills.specs.Shown.{shown, opened, closed, joined};
ghost use Rattle.skills.specs.Strands.{strain_by, started_with, Advanced, PeaksIn};
ghost use Rattle.skills.specs.declared.Skill.TheVariants as Skill;

mod aim;
mod flashlight;
mod speed;
pub mod strain;

use chart_fields::Layout;

// The four skills.
#[derive(Clone, Copy)]
pub enum Skill {
    Aim,
    AimNoSliders,
    Speed,
    Flashlight,
}

// A number for each skill.
#[derive(Clone, Copy)]
pub struct Skills {
    pub aim: f64,
    pub aim_no_sliders: f64,
    pub speed: f64,
    pub flashlight: f64,
}

// The sections of the walk: how many are closed, the open one's peak, and its end.
#[derive(Clone, Copy)]
pub struct Sections {
    pub count: usize,
    pub peak: f64,
    pub end: f64,
}

// What the walk holds of a skill: its sections, its decaying strain, and its strain at the place before.
#[derive(Clone, Copy)]
struct Strand {
    sections: Sections,
    current: f64,
    strain: f64,
}

// What there is of each skill whose strains decay alike.
#[derive(Clone, Copy)]
struct Alike<T> {
    aim: T,
    aim_no_sliders: T,
    flashlight: T,
}

impl Strand {
    // Before place 1.
    fn new(sections: Sections) -> Self
        ensures { result ≡ started_with sections }
    {
        Self {
            sections,
            current: 0.0,
            strain: 0.0,
        }
    }
}

// The length of a section, in milliseconds.
pub const SECTION_LENGTH: f64 = 400.0;

// Sections that are closed before the last, at most; a chart that opens stays below it.
pub const ROOM: usize = 8191;

// The least adjusted delta time, as in the record.
const MIN_DELTA_TIME: f64 = 25.0;

const MS_PER_SECOND: f64 = 1000.0;

// The values of a place, and which of them is the rhythm.
const VALUES: usize = 5;

const RHYTHM: usize = 3;

impl Skill {
    // The base to which the skill's strain decays in a second.
    #[tactic(auto, unfolding(crate::specs::Strains::base))]
    fn strain_decay_base(self) -> f64
        ensures { result ≡ strains.base self }
    {
        match self {
            Self::Aim | Self::AimNoSliders => aim::STRAIN_DECAY_BASE,
            Self::Speed => speed::STRAIN_DECAY_BASE,
            Self::Flashlight => flashlight::STRAIN_DECAY_BASE,
        }
    }

    // What the skill multiplies its value by.
    #[tactic(auto, unfolding(crate::specs::Strains::multiplier))]
    fn multiplier(self) -> f64
        ensures { result ≡ strains.multiplier self }
    {
        match self {
            Self::Aim | Self::AimNoSliders => aim::SKILL_MULTIPLIER,
            Self::Speed => speed::SKILL_MULTIPLIER,
            Self::Flashlight => flashlight::SKILL_MULTIPLIER,
        }
    }

    // Which of a place's five values the skill adds.
    #[tactic(auto, unfolding(crate::specs::Strains::column))]
    fn column(self) -> usize
        ensures { (result ≡ strains.column self) × (result < 5) }
    {
        match self {
            Self::Aim => 0,
            Self::AimNoSliders => 1,
            Self::Speed => 2,
            Self::Flashlight => 4,
        }
    }

    // The time by which the strain decays: speed's is the adjusted delta time, the others' the delta time.
    #[tactic(auto, unfolding(crate::specs::Strains::elapsed))]
    fn elapsed(self, delta: f64) -> f64
        ensures { result ≡ strains.elapsed self delta }
    {
        match self {
            Self::Speed => num_floats::max(delta, MIN_DELTA_TIME),
            Self::Aim | Self::AimNoSliders | Self::Flashlight => delta,
        }
    }

    // What is left of the strain after `delta`.
    fn decay(self, delta: f64) -> f64
        ensures { result ≡ strains.strain_decay (strains.elapsed self delta) (strains.base self) }
    {
        strain_decay(self.elapsed(delta), self.strain_decay_base())
    }
}

// What is left of 1 after some milliseconds (any/difficulty/skills.rs).
fn strain_decay(ms: f64, base: f64) -> f64
    ensures { result ≡ strains.strain_decay ms base }
{
    num_elementary::power(base, ms / MS_PER_SECOND)
}

// The Rust's `current_strain` at place j, after `current` at the place before, of which `decay` is left.
fn decayed_strain(values: &[f64], j: usize, skill: Skill, current: f64, decay: f64) -> f64
    requires { 5 * j + 5 ≤ length values.now }
    ensures { result ≡ strain_by skill current decay (row 5 values.now j) }
{
    let at = VALUES * j + skill.column();
    current * decay + values[at] * skill.multiplier()
}

// The same with the time since the place before.
pub fn current_strain(values: &[f64], j: usize, skill: Skill, current: f64, delta: f64) -> f64
    requires { 5 * j + 5 ≤ length values.now }
    ensures { result ≡ strains.strain_next skill current delta (row 5 values.now j) }
{
    decayed_strain(values, j, skill, current, skill.decay(delta))
}

// The strain at place j, of its decaying strain: speed's times the rhythm, the others' alone.
#[tactic(auto, unfolding(crate::specs::Strains::joined))]
pub fn strain_value_at(values: &[f64], j: usize, skill: Skill, current: f64) -> f64
    requires { 5 * j + 5 ≤ length values.now }
    ensures { result ≡ strains.joined skill current (row 5 values.now j) }
{
    match skill {
        Skill::Speed => current * values[VALUES * j + RHYTHM],
        Skill::Aim | Skill::AimNoSliders | Skill::Flashlight => current,
    }
}

// The strain with which a section starts at `time`, after a place with this start and this strain.
pub fn calculate_initial_strain(skill: Skill, strain: f64, start: f64, time: f64) -> f64
    ensures { result ≡ strains.initial_strain skill strain start time }
{
    strain * strain_decay(time - start, skill.strain_decay_base())
}

// Closes sections while `start` is after the open one's end. `strain` and `last` are the strain and the start of the place before.
fn close_sections(
    peaks: &mut [f64],
    from: Sections,
    skill: Skill,
    strain: f64,
    last: f64,
    start: f64,
) -> Sections
    requires { (from.count ≤ strains.room) × (Roomy peaks.old) }
    ensures { (result.count ≤ strains.room) × (shown peaks.new result ≡ closed peaks.old from skill strain last start) }
{
    let mut s = from;
    while s.count < ROOM && s.end < start {
        peaks[s.count] = s.peak;
        s = Sections {
            count: s.count + 1,
            peak: calculate_initial_strain(skill, strain, last, s.end),
            end: s.end + SECTION_LENGTH,
        };
    }
    s
}

// The sections before place 1, which starts at `start`: the first is open, and its peak starts at 0.
pub fn open_first(start: f64) -> Sections
    ensures { result ≡ opened start }
{
    Sections {
        count: 0,
        peak: 0.0,
        end: num_whole::ceil(start / SECTION_LENGTH) * SECTION_LENGTH,
    }
}

// The strain joins the open section's peak by max.
fn join(s: Sections, strain: f64) -> Sections
    ensures { result ≡ joined s strain }
{
    Sections {
        count: s.count,
        peak: num_floats::max(s.peak, strain),
        end: s.end,
    }
}

// The start of place j as the chart has it, not divided by the clock rate.
pub fn raw_start(chart: &[u8], lay: Layout, j: usize) -> f64
    requires { Holds chart.now lay × (j < lay.n) }
    ensures { result ≡ (fields_of chart.now lay j).start }
{
    chart_fields::fields_of(chart, lay, j).start
}

// One place more of a skill's walk: sections that end before `start` are closed, and the strain, of which `decay` is left, joins.
fn advance(
    peaks: &mut [f64],
    from: Strand,
    values: &[f64],
    j: usize,
    skill: Skill,
    decay: f64,
    last: f64,
    start: f64,
) -> Strand
    requires { (from.sections.count ≤ strains.room) × (Roomy peaks.old) × (5 * j + 5 ≤ length values.now) }
    ensures { Advanced skill decay last start (row 5 values.now j) peaks.old from peaks.new result }
{
    let before = from.sections;
    let closed = close_sections(peaks, before, skill, from.strain, last, start);
    let current = decayed_strain(values, j, skill, from.current, decay);
    let strain = strain_value_at(values, j, skill, current);
    let sections = join(closed, strain);
    Strand {
        sections,
        current,
        strain,
    }
}

// The open section's peak behind the closed ones; returns how many they are then.
fn close_last(peaks: &mut [f64], s: Sections) -> usize
    requires { (s.count ≤ strains.room) × (Roomy peaks.old) }
    ensures { (result ≡ s.count + 1) × (peaks.new ≡ set peaks.old s.count s.peak) }
{
    let count = s.count;
    peaks[count] = s.peak;
    count + 1
}

// The section walk over a chart of two objects or more: writes the peaks of all sections, the last closed too, and returns how many they are.
fn walk(
    chart: &[u8],
    lay: Layout,
    clock: f64,
    values: &[f64],
    skill: Skill,
    peaks: &mut [f64],
) -> usize
    requires { (Readable chart.now lay values.now) × (2 ≤ lay.n) × (Roomy peaks.old) }
    ensures { (result ≤ strains.room + 1) × (take result peaks.new ≡ peaks_of chart.now lay clock values.now skill) }
{
    let first = open_first(raw_start(chart, lay, 1) / clock);
    let mut raw_last = raw_start(chart, lay, 0);
    let mut last = 0.0;
    let mut s = Strand::new(first);
    for j in 1..lay.n {
        let raw = raw_start(chart, lay, j);
        let start = raw / clock;
        let decay = skill.decay((raw - raw_last) / clock);
        s = advance(peaks, s, values, j, skill, decay, last, start);
        raw_last = raw;
        last = start;
    }
    close_last(peaks, s.sections)
}

// The section walks of aim, aim without sliders and flashlight over a chart of two objects or more. Their strains decay alike, so that the power is taken once
// for all three. Writes the peaks of all sections, the last closed too, and returns how many they are.
fn walk_three(
    chart: &[u8],
    lay: Layout,
    clock: f64,
    values: &[f64],
    aim: &mut [f64],
    aim_no_sliders: &mut [f64],
    flashlight: &mut [f64],
) -> Alike<usize>
    requires { (Readable chart.now lay values.now) × (2 ≤ lay.n)
        × (Roomy aim.old) × (Roomy aim_no_sliders.old) × (Roomy flashlight.old) }
    ensures aim { PeaksIn aim.new result.aim (peaks_of chart.now lay clock values.now Skill.Aim) }
    ensures plain { PeaksIn aim_no_sliders.new result.aim_no_sliders
        (peaks_of chart.now lay clock values.now Skill.AimNoSliders) }
    ensures light { PeaksIn flashlight.new result.flashlight
        (peaks_of chart.now lay clock values.now Skill.Flashlight) }
{
    let first = open_first(raw_start(chart, lay, 1) / clock);
    let mut raw_last = raw_start(chart, lay, 0);
    let mut last = 0.0;
    let mut a = Strand::new(first);
    let mut b = Strand::new(first);
    let mut c = Strand::new(first);
    for j in 1..lay.n {
        let raw = raw_start(chart, lay, j);
        let at = raw / clock;
        let decay = Skill::Aim.decay((raw - raw_last) / clock);
        a = advance(aim, a, values, j, Skill::Aim, decay, last, at);
        b = advance(
            aim_no_sliders,
            b,
            values,
            j,
            Skill::AimNoSliders,
            decay,
            last,
            at,
        );
        c = advance(flashlight, c, values, j, Skill::Flashlight, decay, last, at);
        raw_last = raw;
        last = at;
    }
    Alike {
        aim: close_last(aim, a.sections),
        aim_no_sliders: close_last(aim_no_sliders, b.sections),
        flashlight: close_last(flashlight, c.sections),
    }
}

// The strains of places 1 to n - 1 of one skill, each written to its place.
pub fn strains_into(
    chart: &[u8],
    lay: Layout,
    clock: f64,
    values: &[f64],
    skill: Skill,
    out: &mut [f64],
)
    requires { (Readable chart.now lay values.now) × (lay.n ≤ length out.old) }
    ensures { out.new
        ≡ fill 1 (strain_row chart.now lay clock values.now skill) 1 (lay.n - 1) out.old }
{
    let n = lay.n;
    if n < 2 {
        return;
    }
    let mut raw_last = raw_start(chart, lay, 0);
    let mut current = 0.0;
    for j in 1..n {
        let raw = raw_start(chart, lay, j);
        current = current_strain(values, j, skill, current, (raw - raw_last) / clock);
        out[j] = strain_value_at(values, j, skill, current);
        raw_last = raw;
    }
}

// A skill's total. What the scratch holds afterwards is not said.
fn skill_total(
    chart: &[u8],
    lay: Layout,
    clock: f64,
    values: &[f64],
    skill: Skill,
    peaks: &mut [f64],
    tmp: &mut [f64],
) -> f64
    requires { (Readable chart.now lay values.now) × (Roomy peaks.old) × (Roomy tmp.old) }
    ensures { result ≡ total_of chart.now lay clock values.now skill }
{
    if lay.n < 2 {
        return 0.0;
    }
    let count = walk(chart, lay, clock, values, skill, peaks);
    strain::difficulty_of(skill, &mut peaks[..count], tmp)
}

// The totals of aim, aim without sliders and flashlight. What the scratch holds afterwards is not said.
fn alike_totals(
    chart: &[u8],
    lay: Layout,
    clock: f64,
    values: &[f64],
    aim: &mut [f64],
    aim_no_sliders: &mut [f64],
    flashlight: &mut [f64],
    tmp: &mut [f64],
) -> Alike<f64>
    requires { (Readable chart.now lay values.now)
        × (Roomy aim.old) × (Roomy aim_no_sliders.old) × (Roomy flashlight.old) × (Roomy tmp.old) }
    ensures { (result.aim ≡ total_of chart.now lay clock values.now Skill.Aim)
        × (result.aim_no_sliders ≡ total_of chart.now lay clock values.now Skill.AimNoSliders)
        × (result.flashlight ≡ total_of chart.now lay clock values.now Skill.Flashlight) }
{
    if lay.n < 2 {
        return Alike {
            aim: 0.0,
            aim_no_sliders: 0.0,
            flashlight: 0.0,
        };
    }
    let peaks = walk_three(chart, lay, clock, values, aim, aim_no_sliders, flashlight);
    Alike {
        aim: strain::difficulty_of(Skill::Aim, &mut aim[..peaks.aim], tmp),
        aim_no_sliders: strain::difficulty_of(
            Skill::AimNoSliders,
            &mut aim_no_sliders[..peaks.aim_no_sliders],
            tmp,
        ),
        flashlight: strain::difficulty_of(
            Skill::Flashlight,
            &mut flashlight[..peaks.flashlight],
            tmp,
        ),
    }
}

// All numbers become 0.
pub fn clear(a: &mut [f64])
    ensures { a.new ≡ replicate (length a.old) zero64 }
{
    a.fill(0.0);
}

// The four totals. All scratch is 0 afterwards, for charts of 0 and 1 objects too.
pub fn totals(
    chart: &[u8],
    lay: Layout,
    clock: f64,
    values: &[f64],
    aim: &mut [f64],
    aim_no_sliders: &mut [f64],
    speed: &mut [f64],
    flashlight: &mut [f64],
) -> Skills
    requires { (Readable chart.now lay values.now)
        × (Roomy aim.old) × (Roomy aim_no_sliders.old) × (Roomy speed.old) × (Roomy flashlight.old) }
    ensures result { result ≡ totals_of chart.now lay clock values.now }
    ensures first { aim.new ≡ replicate (length aim.old) zero64 }
    ensures second { aim_no_sliders.new ≡ replicate (length aim_no_sliders.old) zero64 }
    ensures third { speed.new ≡ replicate (length speed.old) zero64 }
    ensures fourth { flashlight.new ≡ replicate (length flashlight.old) zero64 }
{
    let alike = alike_totals(
        chart,
        lay,
        clock,
        values,
        aim,
        aim_no_sliders,
        flashlight,
        speed,
    );
    let speed_total = skill_total(chart, lay, clock, values, Skill::Speed, speed, flashlight);
    clear(aim);
    clear(aim_no_sliders);
    clear(speed);
    clear(flashlight);
    Skills {
        aim: alike.aim,
        aim_no_sliders: alike.aim_no_sliders,
        speed: speed_total,
        flashlight: alike.flashlight,
    }
}
