// The station's figures of a chart: what is worked out from the values of all places, with scratch. Nothing is assumed of the
// caller: each call answers the first condition of its list that is met and changes nothing, or is carried out and leaves all
// scratch 0. Times come from the chart. A figure whose name ends in as is the second player's, with that player's settings; the
// first player's settings are the header's.
#![tactic(auto)]

ghost use Rattle.std.specs.Prelude.{◌≡◌, [], ◌/◌, length, Ok, Err};
ghost use Rattle.std.specs.Result.{MatchResult};
ghost use Rattle.chart_opening.specs.Header.{layout_of, settings_at};
ghost use Rattle.calls.specs.Tables.{totals_width};
ghost use Rattle.calls.specs.Afresh as kinds;
ghost use Rattle.calls.specs.Conditions as ops;
ghost use Rattle.calls.specs.Conditions.{lengths};
ghost use Rattle.calls.specs.Calls.{state, outcome_with, verdict_in, outcome, scratch_after, list_after};
ghost use Rattle.calls_players.specs.Second.{verdict_as, outcome_as, scratch_after_as};
ghost use Rattle.calls_figures.specs.Answers.{scratch_of, lent_verdict, totals_answer, counts_answer, ratings_answer};

use chart_fields::Layout;
use chart_opening::Refusal;
use skills::Skills;
use skills_counts::ObjectCounts;
use skills_stars::{Asked, Ratings};

// The scratch stays four slices: the C interface lends four, and crate skills takes four.

// What a figure reads of a chart besides its values: where its objects lie, and the player's clock rate.
#[derive(Clone, Copy)]
struct Timed {
    lay: Layout,
    clock_rate: f64,
}

// Conditions 1 to 7 for the second player, with the value table and the scratch that are lent; and what a figure reads of a chart
// that meets none.
fn check_lent(
    chart: &[u8],
    settings: &[u8],
    values: &[f64],
    aim: &[f64],
    aim_no_sliders: &[f64],
    speed: &[f64],
    flashlight: &[f64],
) -> Result<Timed, Refusal>
    ensures { MatchResult result (λ on. (lent_verdict settings.now chart.now (length values.now)
        (lengths (scratch_of aim.now aim_no_sliders.now speed.now flashlight.now)) ≡ Ok tt)
        × (on.lay ≡ layout_of chart.now) × (on.clock_rate ≡ (settings_at settings.now 0).clock_rate))
        (λ r. lent_verdict settings.now chart.now (length values.now)
        (lengths (scratch_of aim.now aim_no_sliders.now speed.now flashlight.now)) ≡ Err r) }
{
    chart_players::check_as(chart, settings, values.len() / calls::VALUE_WIDTH)?;
    if calls::scratch_short(
        aim.len(),
        aim_no_sliders.len(),
        speed.len(),
        flashlight.len(),
    ) {
        return Err(Refusal::Table);
    }
    Ok(Timed {
        lay: chart_opening::layout_of(chart),
        clock_rate: chart_opening::settings_at(settings, 0).clock_rate,
    })
}

// The four totals, over the values in the table, for the second player.
pub fn totals_as(
    chart: &[u8],
    settings: &[u8],
    values: &[f64],
    aim: &mut [f64],
    aim_no_sliders: &mut [f64],
    speed: &mut [f64],
    flashlight: &mut [f64],
) -> Result<Skills, Refusal>
    ensures answer { outcome_with (totals_answer result) chart.now [] values.now
        ≡ outcome_as settings.now (ops.figure kinds.totals
        (lengths (scratch_of aim.old aim_no_sliders.old speed.old flashlight.old)))
        (state chart.now [] values.now) }
    ensures scratch { scratch_of aim.new aim_no_sliders.new speed.new flashlight.new
        ≡ scratch_after_as settings.now kinds.totals (state chart.now [] values.now)
        (scratch_of aim.old aim_no_sliders.old speed.old flashlight.old) }
{
    let on = check_lent(
        chart,
        settings,
        values,
        aim,
        aim_no_sliders,
        speed,
        flashlight,
    )?;
    Ok(skills::totals(
        chart,
        on.lay,
        on.clock_rate,
        values,
        aim,
        aim_no_sliders,
        speed,
        flashlight,
    ))
}

// The four totals, over the values in the table.
pub fn totals(
    chart: &[u8],
    values: &[f64],
    aim: &mut [f64],
    aim_no_sliders: &mut [f64],
    speed: &mut [f64],
    flashlight: &mut [f64],
) -> Result<Skills, Refusal>
    ensures answer { outcome_with (totals_answer result) chart.now [] values.now
        ≡ outcome (ops.figure kinds.totals
        (lengths (scratch_of aim.old aim_no_sliders.old speed.old flashlight.old)))
        (state chart.now [] values.now) }
    ensures scratch { scratch_of aim.new aim_no_sliders.new speed.new flashlight.new
        ≡ scratch_after kinds.totals (state chart.now [] values.now)
        (scratch_of aim.old aim_no_sliders.old speed.old flashlight.old) }
{
    totals_as(
        chart,
        calls::own_settings(chart)?,
        values,
        aim,
        aim_no_sliders,
        speed,
        flashlight,
    )
}

// How many objects carry the chart: the seven counts, over the values in the table, for the second player.
pub fn counts_as(
    chart: &[u8],
    settings: &[u8],
    values: &[f64],
    aim: &mut [f64],
    aim_no_sliders: &mut [f64],
    speed: &mut [f64],
    flashlight: &mut [f64],
) -> Result<ObjectCounts, Refusal>
    ensures answer { outcome_with (counts_answer result) chart.now [] values.now
        ≡ outcome_as settings.now (ops.figure kinds.counts
        (lengths (scratch_of aim.old aim_no_sliders.old speed.old flashlight.old)))
        (state chart.now [] values.now) }
    ensures scratch { scratch_of aim.new aim_no_sliders.new speed.new flashlight.new
        ≡ scratch_after_as settings.now kinds.counts (state chart.now [] values.now)
        (scratch_of aim.old aim_no_sliders.old speed.old flashlight.old) }
{
    let on = check_lent(
        chart,
        settings,
        values,
        aim,
        aim_no_sliders,
        speed,
        flashlight,
    )?;
    Ok(skills_counts::counts(
        chart,
        on.lay,
        on.clock_rate,
        values,
        aim,
        aim_no_sliders,
        speed,
        flashlight,
    ))
}

// How many objects carry the chart: the seven counts, over the values in the table.
pub fn counts(
    chart: &[u8],
    values: &[f64],
    aim: &mut [f64],
    aim_no_sliders: &mut [f64],
    speed: &mut [f64],
    flashlight: &mut [f64],
) -> Result<ObjectCounts, Refusal>
    ensures answer { outcome_with (counts_answer result) chart.now [] values.now
        ≡ outcome (ops.figure kinds.counts
        (lengths (scratch_of aim.old aim_no_sliders.old speed.old flashlight.old)))
        (state chart.now [] values.now) }
    ensures scratch { scratch_of aim.new aim_no_sliders.new speed.new flashlight.new
        ≡ scratch_after kinds.counts (state chart.now [] values.now)
        (scratch_of aim.old aim_no_sliders.old speed.old flashlight.old) }
{
    counts_as(
        chart,
        calls::own_settings(chart)?,
        values,
        aim,
        aim_no_sliders,
        speed,
        flashlight,
    )
}

// The totals reached after the first m objects, over the values in the table, for the second player.
pub fn totals_to_as(
    chart: &[u8],
    settings: &[u8],
    values: &[f64],
    m: usize,
    aim: &mut [f64],
    aim_no_sliders: &mut [f64],
    speed: &mut [f64],
    flashlight: &mut [f64],
) -> Result<Skills, Refusal>
    ensures answer { outcome_with (totals_answer result) chart.now [] values.now
        ≡ outcome_as settings.now (ops.figure (kinds.totals_to m)
        (lengths (scratch_of aim.old aim_no_sliders.old speed.old flashlight.old)))
        (state chart.now [] values.now) }
    ensures scratch { scratch_of aim.new aim_no_sliders.new speed.new flashlight.new
        ≡ scratch_after_as settings.now (kinds.totals_to m) (state chart.now [] values.now)
        (scratch_of aim.old aim_no_sliders.old speed.old flashlight.old) }
{
    let on = check_lent(
        chart,
        settings,
        values,
        aim,
        aim_no_sliders,
        speed,
        flashlight,
    )?;
    if on.lay.n < m {
        return Err(Refusal::Place);
    }
    Ok(skills_playing::totals_to(
        chart,
        on.lay,
        on.clock_rate,
        values,
        m,
        aim,
        aim_no_sliders,
        speed,
        flashlight,
    ))
}

// The totals reached after the first m objects, over the values in the table.
pub fn totals_to(
    chart: &[u8],
    values: &[f64],
    m: usize,
    aim: &mut [f64],
    aim_no_sliders: &mut [f64],
    speed: &mut [f64],
    flashlight: &mut [f64],
) -> Result<Skills, Refusal>
    ensures answer { outcome_with (totals_answer result) chart.now [] values.now
        ≡ outcome (ops.figure (kinds.totals_to m)
        (lengths (scratch_of aim.old aim_no_sliders.old speed.old flashlight.old)))
        (state chart.now [] values.now) }
    ensures scratch { scratch_of aim.new aim_no_sliders.new speed.new flashlight.new
        ≡ scratch_after (kinds.totals_to m) (state chart.now [] values.now)
        (scratch_of aim.old aim_no_sliders.old speed.old flashlight.old) }
{
    totals_to_as(
        chart,
        calls::own_settings(chart)?,
        values,
        m,
        aim,
        aim_no_sliders,
        speed,
        flashlight,
    )
}

// The totals reached after every number of objects from 0 to N, each in its entry of the list, over the values in the table, for the
// second player.
pub fn totals_while_playing_as(
    chart: &[u8],
    settings: &[u8],
    values: &[f64],
    list: &mut [f64],
    aim: &mut [f64],
    aim_no_sliders: &mut [f64],
    speed: &mut [f64],
    flashlight: &mut [f64],
) -> Result<(), Refusal>
    ensures answer { result ≡ verdict_as settings.now (ops.figure (kinds.playing (length list.old / totals_width))
        (lengths (scratch_of aim.old aim_no_sliders.old speed.old flashlight.old)))
        (state chart.now [] values.now) }
    ensures list { list.new ≡ list_after (outcome_as settings.now (ops.figure (kinds.playing (length list.old / totals_width))
        (lengths (scratch_of aim.old aim_no_sliders.old speed.old flashlight.old)))
        (state chart.now [] values.now)).answer list.old }
    ensures scratch { scratch_of aim.new aim_no_sliders.new speed.new flashlight.new
        ≡ scratch_after_as settings.now (kinds.playing (length list.old / totals_width))
        (state chart.now [] values.now)
        (scratch_of aim.old aim_no_sliders.old speed.old flashlight.old) }
{
    let on = check_lent(
        chart,
        settings,
        values,
        aim,
        aim_no_sliders,
        speed,
        flashlight,
    )?;
    if list.len() / calls::TOTALS_WIDTH < on.lay.n + 1 {
        return Err(Refusal::Table);
    }
    skills_playing::totals_while_playing(
        chart,
        on.lay,
        on.clock_rate,
        values,
        list,
        aim,
        aim_no_sliders,
        speed,
        flashlight,
    );
    Ok(())
}

// The totals reached after every number of objects from 0 to N, each in its entry of the list, over the values in the table.
pub fn totals_while_playing(
    chart: &[u8],
    values: &[f64],
    list: &mut [f64],
    aim: &mut [f64],
    aim_no_sliders: &mut [f64],
    speed: &mut [f64],
    flashlight: &mut [f64],
) -> Result<(), Refusal>
    ensures answer { result ≡ verdict_in (ops.figure (kinds.playing (length list.old / totals_width))
        (lengths (scratch_of aim.old aim_no_sliders.old speed.old flashlight.old)))
        (state chart.now [] values.now) }
    ensures list { list.new ≡ list_after (outcome (ops.figure (kinds.playing (length list.old / totals_width))
        (lengths (scratch_of aim.old aim_no_sliders.old speed.old flashlight.old)))
        (state chart.now [] values.now)).answer list.old }
    ensures scratch { scratch_of aim.new aim_no_sliders.new speed.new flashlight.new
        ≡ scratch_after (kinds.playing (length list.old / totals_width)) (state chart.now [] values.now)
        (scratch_of aim.old aim_no_sliders.old speed.old flashlight.old) }
{
    totals_while_playing_as(
        chart,
        calls::own_settings(chart)?,
        values,
        list,
        aim,
        aim_no_sliders,
        speed,
        flashlight,
    )
}

// The ratings and the stars under the mods and with the numbers that come with the call, over the values in the table, for the
// second player.
pub fn ratings_as(
    chart: &[u8],
    settings: &[u8],
    values: &[f64],
    asked: Asked,
    aim: &mut [f64],
    aim_no_sliders: &mut [f64],
    speed: &mut [f64],
    flashlight: &mut [f64],
) -> Result<Ratings, Refusal>
    ensures answer { outcome_with (ratings_answer result) chart.now [] values.now
        ≡ outcome_as settings.now (ops.figure (kinds.ratings asked)
        (lengths (scratch_of aim.old aim_no_sliders.old speed.old flashlight.old)))
        (state chart.now [] values.now) }
    ensures scratch { scratch_of aim.new aim_no_sliders.new speed.new flashlight.new
        ≡ scratch_after_as settings.now (kinds.ratings asked) (state chart.now [] values.now)
        (scratch_of aim.old aim_no_sliders.old speed.old flashlight.old) }
{
    let on = check_lent(
        chart,
        settings,
        values,
        aim,
        aim_no_sliders,
        speed,
        flashlight,
    )?;
    if !asked.is_finite() {
        return Err(Refusal::NotFinite);
    }
    let totals = skills::totals(
        chart,
        on.lay,
        on.clock_rate,
        values,
        aim,
        aim_no_sliders,
        speed,
        flashlight,
    );
    Ok(skills_stars::eval(totals, on.lay.n as u32, asked))
}

// The ratings and the stars under the mods and with the numbers that come with the call, over the values in the table.
pub fn ratings(
    chart: &[u8],
    values: &[f64],
    asked: Asked,
    aim: &mut [f64],
    aim_no_sliders: &mut [f64],
    speed: &mut [f64],
    flashlight: &mut [f64],
) -> Result<Ratings, Refusal>
    ensures answer { outcome_with (ratings_answer result) chart.now [] values.now
        ≡ outcome (ops.figure (kinds.ratings asked)
        (lengths (scratch_of aim.old aim_no_sliders.old speed.old flashlight.old)))
        (state chart.now [] values.now) }
    ensures scratch { scratch_of aim.new aim_no_sliders.new speed.new flashlight.new
        ≡ scratch_after (kinds.ratings asked) (state chart.now [] values.now)
        (scratch_of aim.old aim_no_sliders.old speed.old flashlight.old) }
{
    ratings_as(
        chart,
        calls::own_settings(chart)?,
        values,
        asked,
        aim,
        aim_no_sliders,
        speed,
        flashlight,
    )
}
