// Packs in order: the charts of a pack are opened and rated, and a list of offsets into the pack is put in order, in its place.
// Nothing is assumed of the caller: a call answers the first condition that the first such chart of the list meets and changes
// nothing, or is carried out and leaves all scratch 0.
#![tactic(auto)]

ghost use Rattle.std.specs.Prelude.{◌≡◌, map, ◌+◌, ◌*◌, ◌≤◌, ◌<◌, length, get_or, Ok};
ghost use Rattle.num_tables.specs.Parts.{put, fill};
ghost use Rattle.chart_opening.specs.Header.{layout_of, settings_of};
ghost use Rattle.chart_opening.specs.Conditions.{first_of};
ghost use Rattle.skills.specs.Chart.{totals_of};
ghost use Rattle.calls.specs.Conditions.{lengths, opening};
ghost use Rattle.calls.specs.Calls.{cleared};
ghost use Rattle.calls_figures.specs.Answers.{Sums, scratch_of};
ghost use Rattle.pack_order.specs.Listing.{chart_at, ranked, most_charts, key_width};
ghost use Rattle.pack.specs.Pack.{key_row, key_from, key_of, chart_verdict, listed_verdict, rank_verdict, tables, opened_into, tables_after, buffers, rank_answer};
ghost use Rattle.pack.specs.Pack.{ranked_buffers, rank_leaves, chart_check, listed_check};

use chart_opening::Refusal;
use skills::Skills;
use skills_stars::Asked;

// The most charts that are listed, and the numbers by which a chart is ordered.
const MOST_CHARTS: usize = 256;

const KEY_WIDTH: usize = 4;

// The numbers by which charts are ordered, in turn: the stars and three of the totals.
#[derive(Clone, Copy)]
pub struct Key {
    pub stars: f64,
    pub aim: f64,
    pub speed: f64,
    pub flashlight: f64,
}

// Whether a chart would open and be rated.
fn check_chart(chart: &[u8], entries: usize, short: bool, finite: bool) -> Result<(), Refusal>
    ensures { result ≡ chart_check entries short finite chart.now }
{
    chart_opening::check(chart, entries)?;
    if short {
        return Err(Refusal::Table);
    }
    if !finite {
        return Err(Refusal::NotFinite);
    }
    Ok(())
}

// Whether the chart at an offset lies in the pack, would open and be rated.
fn check_listed(
    pack: &[u8],
    at: usize,
    entries: usize,
    short: bool,
    finite: bool,
) -> Result<(), Refusal>
    ensures { result ≡ listed_check entries short finite pack.now at }
{
    if !pack_order::inside(pack, at) {
        return Err(Refusal::Header);
    }
    let end = at + pack_order::length_at(pack, at);
    check_chart(&pack[at..end], entries, short, finite)
}

// The first listed chart that would not stops it.
fn check_all(
    pack: &[u8],
    list: &[usize],
    entries: usize,
    short: bool,
    finite: bool,
) -> Result<(), Refusal>
    ensures { result ≡ first_of (map (listed_check entries short finite pack.now) list.now) }
{
    for at in list {
        check_listed(pack, *at, entries, short, finite)?;
    }
    Ok(())
}

// Fills entries 1 to N - 1 of an accepted chart's tables.
fn fill_tables(chart: &[u8], records: &mut [f64], values: &mut [f64])
    requires { opening (length records.old) (length values.old) chart.now ≡ Ok tt }
    ensures { tables records.new values.new
        ≡ opened_into chart.now (tables records.old values.old) }
{
    let set = chart_opening::settings_at(chart, calls::SETTINGS_AT);
    calls_editor::fill_tables(chart, set, records, values);
}

// The numbers of a chart over its values. What is in the scratch afterwards is not used.
fn key_of(
    chart: &[u8],
    values: &[f64],
    asked: Asked,
    aim: &mut [f64],
    aim_no_sliders: &mut [f64],
    speed: &mut [f64],
    flashlight: &mut [f64],
) -> Key
    requires { Sums chart.now (length values.now)
        (lengths (scratch_of aim.old aim_no_sliders.old speed.old flashlight.old)) }
    ensures { result ≡ key_from asked (layout_of chart.now).n
        (totals_of chart.now (layout_of chart.now) (settings_of chart.now).clock_rate values.now) }
{
    let lay = chart_opening::layout_of(chart);
    let clock = chart_opening::settings_at(chart, calls::SETTINGS_AT).clock_rate;
    let t = skills::totals(
        chart,
        lay,
        clock,
        values,
        aim,
        aim_no_sliders,
        speed,
        flashlight,
    );
    let r = skills_stars::eval(t, lay.n as u32, asked);
    Key {
        stars: r.stars,
        aim: t.aim,
        speed: t.speed,
        flashlight: t.flashlight,
    }
}

// Opens a chart that would open and be rated, and works its numbers out.
fn rate_chart(
    chart: &[u8],
    asked: Asked,
    records: &mut [f64],
    values: &mut [f64],
    aim: &mut [f64],
    aim_no_sliders: &mut [f64],
    speed: &mut [f64],
    flashlight: &mut [f64],
) -> Key
    requires { chart_verdict asked (length records.old) (length values.old)
        (lengths (scratch_of aim.old aim_no_sliders.old speed.old flashlight.old)) chart.now ≡ Ok tt }
    ensures key { key_row result ≡ key_of asked chart.now }
    ensures tables { tables records.new values.new
        ≡ opened_into chart.now (tables records.old values.old) }
{
    fill_tables(chart, records, values);
    key_of(chart, values, asked, aim, aim_no_sliders, speed, flashlight)
}

// The same for the chart at an offset.
fn rate_listed(
    pack: &[u8],
    at: usize,
    asked: Asked,
    records: &mut [f64],
    values: &mut [f64],
    aim: &mut [f64],
    aim_no_sliders: &mut [f64],
    speed: &mut [f64],
    flashlight: &mut [f64],
) -> Key
    requires { listed_verdict asked (length records.old) (length values.old)
        (lengths (scratch_of aim.old aim_no_sliders.old speed.old flashlight.old)) pack.now at ≡ Ok tt }
    ensures key { key_row result ≡ key_of asked (chart_at pack.now at) }
    ensures tables { tables records.new values.new
        ≡ opened_into (chart_at pack.now at) (tables records.old values.old) }
{
    let end = at + pack_order::length_at(pack, at);
    rate_chart(
        &pack[at..end],
        asked,
        records,
        values,
        aim,
        aim_no_sliders,
        speed,
        flashlight,
    )
}

// Writes a chart's numbers into row i. Keys stand as rows, since specs/Listing of pack_order, which may not change, orders rows.
fn put_key(keys: &mut [f64], i: usize, k: Key)
    requires { key_width * i + key_width ≤ length keys.old }
    ensures { keys.new ≡ put (key_width * i) (key_row k) keys.old }
{
    let at = KEY_WIDTH * i;
    keys[at..at + KEY_WIDTH].copy_from_slice(&[k.stars, k.aim, k.speed, k.flashlight]);
}

// Opens and rates the listed charts, each once, in the list's order.
fn rate_all(
    pack: &[u8],
    list: &[usize],
    asked: Asked,
    keys: &mut [f64],
    records: &mut [f64],
    values: &mut [f64],
    aim: &mut [f64],
    aim_no_sliders: &mut [f64],
    speed: &mut [f64],
    flashlight: &mut [f64],
)
    requires list_len_bound { (length list.now ≤ most_charts) × (key_width * length list.now ≤ length keys.old) }
    requires list_value { first_of (map (listed_verdict asked (length records.old) (length values.old)
        (lengths (scratch_of aim.old aim_no_sliders.old speed.old flashlight.old)) pack.now) list.now) ≡ Ok tt }
    ensures keys { keys.new
        ≡ fill key_width (λ i. key_of asked (chart_at pack.now (get_or list.now i 0)))
        0 (length list.now) keys.old }
    ensures tables { tables records.new values.new
        ≡ tables_after pack.now list.now (tables records.old values.old) }
{
    for (i, at) in list.iter().enumerate() {
        let k = rate_listed(
            pack,
            *at,
            asked,
            records,
            values,
            aim,
            aim_no_sliders,
            speed,
            flashlight,
        );
        put_key(keys, i, k);
    }
}

// Puts 0 into all scratch.
fn clear_all(aim: &mut [f64], aim_no_sliders: &mut [f64], speed: &mut [f64], flashlight: &mut [f64])
    ensures { scratch_of aim.new aim_no_sliders.new speed.new flashlight.new
        ≡ cleared (scratch_of aim.old aim_no_sliders.old speed.old flashlight.old) }
{
    skills::clear(aim);
    skills::clear(aim_no_sliders);
    skills::clear(speed);
    skills::clear(flashlight);
}

// Rates the listed charts and puts the list in order, where none is refused. The first `first` entries and the others are merged if
// they are in order each.
fn list_all(
    pack: &[u8],
    list: &mut [usize],
    first: usize,
    asked: Asked,
    records: &mut [f64],
    values: &mut [f64],
    aim: &mut [f64],
    aim_no_sliders: &mut [f64],
    speed: &mut [f64],
    flashlight: &mut [f64],
)
    requires { rank_answer asked pack.now (buffers list.old (tables records.old values.old)
        (scratch_of aim.old aim_no_sliders.old speed.old flashlight.old)) ≡ Ok tt }
    ensures { buffers list.new (tables records.new values.new)
        (scratch_of aim.new aim_no_sliders.new speed.new flashlight.new)
        ≡ ranked_buffers asked pack.now (buffers list.old (tables records.old values.old)
        (scratch_of aim.old aim_no_sliders.old speed.old flashlight.old)) }
{
    let mut keys = [0.0f64; KEY_WIDTH * MOST_CHARTS];
    rate_all(
        pack,
        list,
        asked,
        &mut keys[..],
        records,
        values,
        aim,
        aim_no_sliders,
        speed,
        flashlight,
    );
    pack_order::join(pack, &keys[..], list, first);
    clear_all(aim, aim_no_sliders, speed, flashlight);
}

// Whether a list of offsets into a pack would be ranked with tables and scratch of these lengths; nothing is written.
pub fn check(
    pack: &[u8],
    list: &[usize],
    asked: Asked,
    records: usize,
    values: usize,
    aim: usize,
    aim_no_sliders: usize,
    speed: usize,
    flashlight: usize,
) -> Result<(), Refusal>
    ensures answer { result ≡ rank_verdict asked records values
        (record { aim = aim; aim_no_sliders = aim_no_sliders; speed = speed; flashlight = flashlight }) pack.now list.now }
    ensures pack { pack.now ≡ pack.now }
    ensures list { list.now ≡ list.now }
{
    if MOST_CHARTS < list.len() {
        return Err(Refusal::Place);
    }
    let entries = calls::entries_in(records, values);
    let short = calls::scratch_short(aim, aim_no_sliders, speed, flashlight);
    check_all(pack, list, entries, short, asked.is_finite())
}

// Two lists of offsets that lie one behind the other, the first of them `first` long, whether or not they were ranked: the listing
// of both as one.
pub fn join(
    pack: &[u8],
    list: &mut [usize],
    first: usize,
    asked: Asked,
    records: &mut [f64],
    values: &mut [f64],
    aim: &mut [f64],
    aim_no_sliders: &mut [f64],
    speed: &mut [f64],
    flashlight: &mut [f64],
) -> Result<(), Refusal>
    ensures answer { result ≡ rank_answer asked pack.now (buffers list.old (tables records.old values.old)
        (scratch_of aim.old aim_no_sliders.old speed.old flashlight.old)) }
    ensures leaves { buffers list.new (tables records.new values.new)
        (scratch_of aim.new aim_no_sliders.new speed.new flashlight.new)
        ≡ rank_leaves asked pack.now (buffers list.old (tables records.old values.old)
        (scratch_of aim.old aim_no_sliders.old speed.old flashlight.old)) }
    ensures pack { pack.now ≡ pack.now }
{
    check(
        pack,
        list,
        asked,
        records.len(),
        values.len(),
        aim.len(),
        aim_no_sliders.len(),
        speed.len(),
        flashlight.len(),
    )?;
    list_all(
        pack,
        list,
        first,
        asked,
        records,
        values,
        aim,
        aim_no_sliders,
        speed,
        flashlight,
    );
    Ok(())
}

// Puts a list of offsets into a pack in order, the higher chart first, and charts of equal bytes by offset, the lower first.
pub fn rank(
    pack: &[u8],
    list: &mut [usize],
    asked: Asked,
    records: &mut [f64],
    values: &mut [f64],
    aim: &mut [f64],
    aim_no_sliders: &mut [f64],
    speed: &mut [f64],
    flashlight: &mut [f64],
) -> Result<(), Refusal>
    ensures answer { result ≡ rank_answer asked pack.now (buffers list.old (tables records.old values.old)
        (scratch_of aim.old aim_no_sliders.old speed.old flashlight.old)) }
    ensures leaves { buffers list.new (tables records.new values.new)
        (scratch_of aim.new aim_no_sliders.new speed.new flashlight.new)
        ≡ rank_leaves asked pack.now (buffers list.old (tables records.old values.old)
        (scratch_of aim.old aim_no_sliders.old speed.old flashlight.old)) }
    ensures pack { pack.now ≡ pack.now }
{
    join(
        pack,
        list,
        0,
        asked,
        records,
        values,
        aim,
        aim_no_sliders,
        speed,
        flashlight,
    )
}
