// The five values of a place, and rows of the value table.
#![tactic(auto)]

ghost use Rattle.std.specs.Prelude.{◌≡◌, ◌+◌, ◌-◌, ◌*◌, ◌≤◌, ◌<◌, length};
ghost use Rattle.num_tables.specs.Parts.{row, put, fill};
ghost use Rattle.osu_object.specs.Osu.{Ready};
ghost use Rattle.eval_values.specs.Values.{row_of, values_in};

use chart_fields::Layout;
use chart_opening::Settings;

#[derive(Clone, Copy)]
pub struct Values {
    pub aim: f64,
    pub aim_no_sliders: f64,
    pub speed: f64,
    pub rhythm: f64,
    pub flashlight: f64,
}

// The values of place j, from the chart and the records in the table.
pub fn values_at(t: &[f64], chart: &[u8], lay: Layout, set: Settings, j: usize) -> Values
    requires { Ready chart.now lay × (1 ≤ j) × (j < lay.n) × (16 * lay.n ≤ length t.now) }
    ensures { row_of result ≡ values_in set chart.now lay t.now j }
{
    let light = eval_flashlight::evaluator_of(set);
    let aim = eval_aim::evaluate_both(t, chart, lay, j);
    Values {
        aim: aim.with,
        aim_no_sliders: aim.without,
        speed: eval_speed::evaluate_place(t, chart, lay, j, set.hit_window, set.autopilot),
        rhythm: eval_rhythm::evaluate_place(t, chart, lay, j, set.hit_window),
        flashlight: light.evaluate_place(t, chart, lay, j, set.hidden),
    }
}

// Reads one row of the value table.
pub fn row_at(values: &[f64], j: usize) -> Values
    requires { 5 * j + 5 ≤ length values.now }
    ensures { row_of result ≡ row 5 values.now j }
{
    let at = 5 * j;
    Values {
        aim: values[at],
        aim_no_sliders: values[at + 1],
        speed: values[at + 2],
        rhythm: values[at + 3],
        flashlight: values[at + 4],
    }
}

// Writes one row of the value table.
pub fn put_values(values: &mut [f64], j: usize, v: Values)
    requires { (j < 65536) × (5 * j + 5 ≤ length values.old) }
    ensures { values.new ≡ put (5 * j) (row_of v) values.old }
{
    values[5 * j..5 * j + 5].copy_from_slice(&[
        v.aim,
        v.aim_no_sliders,
        v.speed,
        v.rhythm,
        v.flashlight,
    ]);
}

// Makes the rows of places lo to hi - 1 anew: opening's and replacing's loop.
pub fn fill_values(
    values: &mut [f64],
    t: &[f64],
    chart: &[u8],
    lay: Layout,
    set: Settings,
    lo: usize,
    hi: usize,
)
    requires { Ready chart.now lay × (1 ≤ lo) × (hi ≤ lay.n) × (16 * lay.n ≤ length t.now) × (5 * lay.n ≤ length values.old) }
    ensures { values.new ≡ fill 5 (values_in set chart.now lay t.now) lo (hi - lo) values.old }
{
    for j in lo..hi {
        put_values(values, j, values_at(t, chart, lay, set, j));
    }
}
