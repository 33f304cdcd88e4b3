// The lines that list a chart: the number of objects, the values of each place, the totals and the counts, or the refusal.
#![tactic(auto)]

ghost use Rattle.std.specs.Prelude.{◌≤◌, ◌<◌, ◌-◌, length};
ghost use Rattle.print_text.specs.Buffer.{Puts};
ghost use Rattle.num_tables.specs.Parts.{row};
ghost use Rattle.chart_opening.specs.Header.{layout_of};
ghost use Rattle.print_lines.specs.Lines.{place_text, totals_text, counts_text};
ghost use Rattle.print_listing.specs.List.{limit, places_text, totals_afresh, counts_afresh, afresh_text, chart_text, list_text, Filled, Tables, ScratchRoom};

use chart_opening::Refusal;

// The longest chart that is listed, in bytes.
const LIMIT: usize = 32768;

// The objects that a chart of so many bytes can have, and the numbers of each table for as many.
const OBJECTS: usize = 583;

const RECORDS: usize = calls::RECORD_WIDTH * OBJECTS;

const VALUES: usize = calls::VALUE_WIDTH * OBJECTS;

// The numbers that totals and counts need for each skill.
const SCRATCH: usize = 8192;

// The line of a place.
fn put_place(out: &mut [u8], at: usize, chart: &[u8], values: &[f64], j: usize) -> usize
    requires { Filled chart.now values.now × (1 ≤ j) × (j < (layout_of chart.now).n) }
    ensures { Puts (place_text j (row 5 values.now j)) out.old at out.new result }
{
    match calls_readings::read_values(chart, values, j) {
        Err(r) => print_lines::put_refusal(out, at, r),
        Ok(v) => print_lines::put_values(out, at, j, v),
    }
}

// The lines of all places from 1 on.
fn put_places(out: &mut [u8], at: usize, chart: &[u8], values: &[f64], n: usize) -> usize
    requires { Filled chart.now values.now × (n ≤ (layout_of chart.now).n) }
    ensures { Puts (places_text (row 5 values.now) (n - 1)) out.old at out.new result }
{
    let mut end = at;
    for j in 1..n {
        end = put_place(out, end, chart, values, j);
    }
    end
}

// The totals' line.
fn put_totals(
    out: &mut [u8],
    at: usize,
    chart: &[u8],
    values: &[f64],
    aim: &mut [f64],
    aim_no_sliders: &mut [f64],
    speed: &mut [f64],
    flashlight: &mut [f64],
) -> usize
    requires { Filled chart.now values.now
        × ScratchRoom (length aim.old) (length aim_no_sliders.old) (length speed.old) (length flashlight.old) }
    ensures { Puts (totals_text (totals_afresh chart.now)) out.old at out.new result }
{
    match calls_figures::totals(chart, values, aim, aim_no_sliders, speed, flashlight) {
        Err(r) => print_lines::put_refusal(out, at, r),
        Ok(t) => print_lines::put_totals(out, at, t),
    }
}

// The counts' line.
fn put_counts(
    out: &mut [u8],
    at: usize,
    chart: &[u8],
    values: &[f64],
    aim: &mut [f64],
    aim_no_sliders: &mut [f64],
    speed: &mut [f64],
    flashlight: &mut [f64],
) -> usize
    requires { Filled chart.now values.now
        × ScratchRoom (length aim.old) (length aim_no_sliders.old) (length speed.old) (length flashlight.old) }
    ensures { Puts (counts_text (counts_afresh chart.now)) out.old at out.new result }
{
    match calls_figures::counts(chart, values, aim, aim_no_sliders, speed, flashlight) {
        Err(r) => print_lines::put_refusal(out, at, r),
        Ok(c) => print_lines::put_counts(out, at, c),
    }
}

// The lines of a chart that is opened.
fn put_opened(
    out: &mut [u8],
    chart: &[u8],
    values: &[f64],
    aim: &mut [f64],
    aim_no_sliders: &mut [f64],
    speed: &mut [f64],
    flashlight: &mut [f64],
) -> usize
    requires { Filled chart.now values.now
        × ScratchRoom (length aim.old) (length aim_no_sliders.old) (length speed.old) (length flashlight.old) }
    ensures { Puts (afresh_text chart.now) out.old 0 out.new result }
{
    let n = chart_opening::layout_of(chart).n;
    let count = print_lines::put_count(out, 0, n);
    let places = put_places(out, count, chart, values, n);
    let totals = put_totals(
        out,
        places,
        chart,
        values,
        aim,
        aim_no_sliders,
        speed,
        flashlight,
    );
    put_counts(
        out,
        totals,
        chart,
        values,
        aim,
        aim_no_sliders,
        speed,
        flashlight,
    )
}

// The lines of a chart within the limit.
fn put_within(
    out: &mut [u8],
    chart: &[u8],
    records: &mut [f64],
    values: &mut [f64],
    aim: &mut [f64],
    aim_no_sliders: &mut [f64],
    speed: &mut [f64],
    flashlight: &mut [f64],
) -> usize
    requires chart_len_bound { (length chart.now ≤ limit) × Tables (length records.old) (length values.old) }
    requires scratch_room { ScratchRoom (length aim.old) (length aim_no_sliders.old) (length speed.old) (length flashlight.old) }
    ensures { Puts (chart_text chart.now) out.old 0 out.new result }
{
    match calls_editor::open(chart, records, values) {
        Err(r) => print_lines::put_refusal(out, 0, r),
        Ok(()) => put_opened(out, chart, values, aim, aim_no_sliders, speed, flashlight),
    }
}

// All lines of a chart, put at the start of the buffer; how many bytes they are. More bytes than the limit are refused before any check.
pub fn put_chart(out: &mut [u8], chart: &[u8]) -> usize
    ensures { Puts (list_text chart.now) out.old 0 out.new result }
{
    if LIMIT < chart.len() {
        return print_lines::put_refusal(out, 0, Refusal::Table);
    }
    let mut records = [0.0f64; RECORDS];
    let mut values = [0.0f64; VALUES];
    let mut aim = [0.0f64; SCRATCH];
    let mut aim_no_sliders = [0.0f64; SCRATCH];
    let mut speed = [0.0f64; SCRATCH];
    let mut flashlight = [0.0f64; SCRATCH];
    put_within(
        out,
        chart,
        &mut records[..],
        &mut values[..],
        &mut aim[..],
        &mut aim_no_sliders[..],
        &mut speed[..],
        &mut flashlight[..],
    )
}
