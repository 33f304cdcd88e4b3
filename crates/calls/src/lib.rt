// The calls on an opened chart, the plain chart, and the theorem over every list of calls: specs/Statement says what is claimed,
// proofs/Theorems proves it. The crate has only the sizes of what a call is lent, and what is asked of them.
#![tactic(auto)]

ghost use Rattle.std.specs.Prelude.{◌≡◌, ◌≤◌, ◌<◌, length};
ghost use Rattle.std.specs.Result.{ForOk, ForErr};
ghost use Rattle.num_tables.specs.Parts.{part};
ghost use Rattle.chart_fields.specs.Limits.{header_size};
ghost use Rattle.chart_opening.specs.Limits.{settings_start, settings_size};
ghost use Rattle.chart_opening.specs.declared.Refusal.TheVariants.{Header};
ghost use Rattle.calls.specs.Tables.{entries_of};
ghost use Rattle.calls.specs.Conditions.{scratch_short};

use chart_opening::Refusal;

// Numbers of an entry of the record table, and of the value table.
pub const RECORD_WIDTH: usize = 16;

pub const VALUE_WIDTH: usize = 5;

// Numbers of an entry of the list of totals while playing.
pub const TOTALS_WIDTH: usize = 4;

// The least scratch of a skill.
pub const LEAST_SCRATCH: usize = 8192;

// Where the settings stand in a header.
pub const SETTINGS_AT: usize = 32;

// How many whole entries both tables have.
pub fn entries_in(records: usize, values: usize) -> usize
    ensures { result ≡ entries_of records values }
{
    (records / RECORD_WIDTH).min(values / VALUE_WIDTH)
}

// The header's settings, with which the first player's calls are made; a chart shorter than a header meets condition 1.
pub fn own_settings(chart: &[u8]) -> Result<&[u8], Refusal>
    ensures own { ForOk result (λ own. (header_size ≤ length chart.now)
        × (own.now ≡ part settings_start settings_size chart.now)) }
    ensures short { ForErr result (λ r. (length chart.now < header_size) × (r ≡ Header)) }
{
    chart
        .get(SETTINGS_AT..chart_fields::HEADER_SIZE)
        .ok_or(Refusal::Header)
}

// Whether a slice of scratch is too short.
#[tactic(auto, unfolding(crate::specs::Conditions::scratch_short))]
pub fn scratch_short(aim: usize, aim_no_sliders: usize, speed: usize, flashlight: usize) -> bool
    ensures { result ≡ scratch_short (record { aim = aim; aim_no_sliders = aim_no_sliders; speed = speed; flashlight = flashlight }) }
{
    [aim, aim_no_sliders, speed, flashlight]
        .iter()
        .any(|length| *length < LEAST_SCRATCH)
}
