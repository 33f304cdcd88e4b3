// Lists the values of charts as the lister does but for the totals, by the outer entries: the records of a chart stand in an array of structs, of which its
// N - 1 records are lent to them as a slice. Standard input has for each chart its length (u32, little-endian) and its bytes. Of a chart
// that is opened the number of objects is printed, and for each place from 1 on its five values as bits; of any other, and of one with more
// than 65 objects, the refusal.
#![tactic(auto)]

ghost use Rattle.std.specs.Prelude.{◌≡◌, ◌≤◌, ◌<◌, length, take};
ghost use Rattle.osu_object.specs.Osu.{Ready, object_of};
ghost use Rattle.eval_values.specs.Values.{row_of, values_of};
ghost use Rattle.eval_outer.specs.Records.{record_of};
ghost use Rattle.test_outer.specs.Values.{gathered_of};

use chart_fields::Layout;
use chart_opening::Settings;
use eval_values::Values;
use osu_difficulty_object::OsuDifficultyObject;
use print_lines::Header;

// The records of places 1 to n - 1 as structs; those behind them repeat the first.
fn records_of(t: &[f64], n: usize) -> [OsuDifficultyObject; 64]
    requires { (n ≤ 65) × (1040 ≤ length t.now) }
{
    let first = osu_records::record_at(t, 1);
    let mut rs = [first; 64];
    for j in 1..n {
        rs[j - 1] = osu_records::record_at(t, j);
    }
    rs
}

// The five values of a place.
fn gathered(aim: f64, aim_no_sliders: f64, speed: f64, rhythm: f64, flashlight: f64) -> Values
    ensures { result ≡ gathered_of aim aim_no_sliders speed rhythm flashlight }
{
    Values {
        aim,
        aim_no_sliders,
        speed,
        rhythm,
        flashlight,
    }
}

// The five values of place j by the outer entries, over the first m of the records.
fn values_of_array(
    chart: &[u8],
    records: [OsuDifficultyObject; 64],
    m: usize,
    lay: Layout,
    set: Settings,
    j: usize,
) -> Values
    requires { Ready chart.now lay × (1 ≤ j) × (j < lay.n) × (m ≤ 64) }
    ensures { row_of result ≡ values_of set m (object_of chart.now lay) (record_of (take m records)) j }
{
    let light = eval_flashlight::evaluator_of(set);
    let rs = &records[..m];
    let aim = eval_outer::evaluate_aim(rs, chart, lay, j, true);
    let aim_no_sliders = eval_outer::evaluate_aim(rs, chart, lay, j, false);
    let speed = eval_outer::evaluate_speed(rs, chart, lay, j, set.hit_window, set.autopilot);
    let rhythm = eval_outer::evaluate_rhythm(rs, chart, lay, j, set.hit_window);
    let flashlight = eval_outer::evaluate_flashlight(rs, chart, lay, j, light, set.hidden);
    gathered(aim, aim_no_sliders, speed, rhythm, flashlight)
}

// The number of objects, and the values of their places.
fn show_values(
    out: &mut [u8],
    chart: &[u8],
    rs: [OsuDifficultyObject; 64],
    lay: Layout,
    set: Settings,
)
    requires { Ready chart.now lay × (lay.n ≤ 65) }
{
    let mut end = print_lines::put_count(out, 0, lay.n);
    for j in 1..lay.n {
        let values = values_of_array(chart, rs, lay.n - 1, lay, set, j);
        end = print_lines::put_values(out, end, j, values);
    }
    print_text::show(out, end);
}

// The lines of one chart.
fn answer(out: &mut [u8], chart: &[u8], t: &mut [f64])
    requires { 1040 ≤ length t.old }
{
    match print_lines::open(chart, 65) {
        Err(r) => print_lines::show_refusal(out, r),
        Ok(Header { lay, set }) => {
            osu_records::fill(chart, lay, set, t);
            show_values(out, chart, records_of(t, lay.n), lay, set);
        }
    }
}

// Charts to the end of the input.
fn main() {
    let mut out = io::large_buffer();
    let mut buffer = io::large_buffer();
    let mut t = [0.0f64; 1040];
    print_text::each_chart(
        &mut buffer[..],
        |chart| answer(&mut out[..], chart, &mut t[..]),
    );
}
