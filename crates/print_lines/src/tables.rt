// Charts that open, and their tables from the chart alone.
ghost use Rattle.std.specs.Prelude.{◌≡◌, ◌*◌, ◌-◌, ◌≤◌, length, Err, MatchResult};
ghost use Rattle.osu_object.specs.Osu.{Ready};
ghost use Rattle.num_tables.specs.Parts.{fill};
ghost use Rattle.chart_opening.specs.Conditions.{open_verdict};
ghost use Rattle.osu_records.specs.Fill.{filled};
ghost use Rattle.eval_values.specs.Values.{values_in};
ghost use Rattle.print_lines.specs.Charts.{Fits};

use chart_fields::Layout;
use chart_opening::{Refusal, Settings};

// What a chart's header says.
#[derive(Clone, Copy)]
pub struct Header {
    pub lay: Layout,
    pub set: Settings,
}

// Opens a chart for tables of so many entries.
pub fn open(chart: &[u8], entries: usize) -> Result<Header, Refusal>
    ensures { MatchResult result (λ h. Fits chart.now entries h.lay h.set)
        (λ r. open_verdict chart.now entries ≡ Err r) }
{
    chart_opening::check(chart, entries)?;
    let lay = chart_opening::layout_of(chart);
    let set = chart_opening::settings_at(chart, 32);
    Ok(Header { lay, set })
}

// The records, and the values that are worked out from them.
pub fn fill_tables(chart: &[u8], lay: Layout, set: Settings, t: &mut [f64], values: &mut [f64])
    requires { Ready chart.now lay × (16 * lay.n ≤ length t.old) × (5 * lay.n ≤ length values.old) }
    ensures records { t.new ≡ filled chart.now lay set t.old }
    ensures values { values.new ≡ fill 5 (values_in set chart.now lay t.new) 1 (lay.n - 1) values.old }
{
    osu_records::fill(chart, lay, set, t);
    eval_values::fill_values(values, t, chart, lay, set, 1, lay.n);
}
