// Lines of the programs' answers. As in `print_text`, each function appends at an offset of a lent buffer and returns the offset behind what it wrote.
#![tactic(auto)]

mod tables;

ghost use Rattle.std.specs.Prelude.{◌≡◌};
ghost use Rattle.print_text.specs.Buffer.{Puts};
ghost use Rattle.eval_values.specs.Values.{row_of};
ghost use Rattle.chart_opening.specs.Conditions.{refusal_number, refusal_place};
ghost use Rattle.print_lines.specs.Lines.{number_text, narrow_text, flag_text, refusal_text, count_text, place_text, skills_text, totals_text, counts_text};
ghost use Rattle.print_lines.specs.Lines.{jump_text, travel_text, record_text};
ghost use Rattle.print_lines.specs.Lines.{rule_digit, rule_text, bonuses_text, parts_text, aim_text, rhythm_text};

use chart_opening::Refusal;
use eval_aim::{AimParts, AimRule};
use eval_rhythm::Counted;
use eval_values::Values;
use osu_difficulty_object::OsuDifficultyObject;
use skills::Skills;
use skills_counts::ObjectCounts;
pub use tables::{Header, fill_tables, open};

// A space and the bits of a number.
pub fn put_f64(out: &mut [u8], at: usize, x: f64) -> usize
    ensures { Puts (number_text x) out.old at out.new result }
{
    let end = print_text::put(out, at, b' ');
    print_text::put_f64(out, end, x)
}

// A space and the bits of an f32.
fn put_f32(out: &mut [u8], at: usize, x: f32) -> usize
    ensures { Puts (narrow_text x) out.old at out.new result }
{
    let end = print_text::put(out, at, b' ');
    print_text::put_f32(out, end, x)
}

// A space and 1 or 0.
fn put_flag(out: &mut [u8], at: usize, flag: bool) -> usize
    ensures { Puts (flag_text flag) out.old at out.new result }
{
    let end = print_text::put(out, at, b' ');
    if flag {
        return print_text::put(out, end, b'1');
    }
    print_text::put(out, end, b'0')
}

// The word refused, the number of the condition and the place.
pub fn put_refusal(out: &mut [u8], at: usize, r: Refusal) -> usize
    ensures { Puts (refusal_text (refusal_number r) (refusal_place r)) out.old at out.new result }
{
    let word = print_text::put_all(out, at, b"refused ");
    let number = print_text::put_decimal(out, word, r.number() as u64);
    let space = print_text::put(out, number, b' ');
    let place = print_text::put_decimal(out, space, r.place() as u64);
    print_text::put(out, place, b'\n')
}

// The word objects and how many there are.
pub fn put_count(out: &mut [u8], at: usize, n: usize) -> usize
    ensures { Puts (count_text n) out.old at out.new result }
{
    let word = print_text::put_all(out, at, b"objects ");
    let count = print_text::put_decimal(out, word, n as u64);
    print_text::put(out, count, b'\n')
}

// A place and its five values.
pub fn put_values(out: &mut [u8], at: usize, j: usize, v: Values) -> usize
    ensures { Puts (place_text j (row_of v)) out.old at out.new result }
{
    let place = print_text::put_decimal(out, at, j as u64);
    let aim = put_f64(out, place, v.aim);
    let aim_no_sliders = put_f64(out, aim, v.aim_no_sliders);
    let speed = put_f64(out, aim_no_sliders, v.speed);
    let rhythm = put_f64(out, speed, v.rhythm);
    let flashlight = put_f64(out, rhythm, v.flashlight);
    print_text::put(out, flashlight, b'\n')
}

// A number for each skill, and the line's end.
pub fn put_skills(out: &mut [u8], at: usize, t: Skills) -> usize
    ensures { Puts (skills_text t) out.old at out.new result }
{
    let aim = put_f64(out, at, t.aim);
    let aim_no_sliders = put_f64(out, aim, t.aim_no_sliders);
    let speed = put_f64(out, aim_no_sliders, t.speed);
    let flashlight = put_f64(out, speed, t.flashlight);
    print_text::put(out, flashlight, b'\n')
}

// The word totals and the four of them.
pub fn put_totals(out: &mut [u8], at: usize, t: Skills) -> usize
    ensures { Puts (totals_text t) out.old at out.new result }
{
    let word = print_text::put_all(out, at, b"totals");
    put_skills(out, word, t)
}

// The word counts and the seven of them.
pub fn put_counts(out: &mut [u8], at: usize, c: ObjectCounts) -> usize
    ensures { Puts (counts_text c) out.old at out.new result }
{
    let word = print_text::put_all(out, at, b"counts");
    let aim = put_f64(out, word, c.aim_difficult_strain_count);
    let aim_no_sliders = put_f64(out, aim, c.aim_no_sliders_difficult_strain_count);
    let speed = put_f64(out, aim_no_sliders, c.speed_difficult_strain_count);
    let aim_sliders = put_f64(out, speed, c.aim_no_sliders_top_weighted_slider_count);
    let speed_sliders = put_f64(out, aim_sliders, c.speed_top_weighted_slider_count);
    let difficult = put_f64(out, speed_sliders, c.aim_difficult_slider_count);
    let notes = put_f64(out, difficult, c.speed_note_count);
    print_text::put(out, notes, b'\n')
}

// Times and distances from the object before.
fn put_jump(out: &mut [u8], at: usize, r: OsuDifficultyObject) -> usize
    ensures { Puts (jump_text r) out.old at out.new result }
{
    let start = put_f64(out, at, r.start_time);
    let delta = put_f64(out, start, r.delta_time);
    let adjusted = put_f64(out, delta, r.adjusted_delta_time);
    let jump = put_f64(out, adjusted, r.lazy_jump_dist);
    let least = put_f64(out, jump, r.min_jump_dist);
    put_f64(out, least, r.min_jump_time)
}

// What a slider has.
fn put_travel(out: &mut [u8], at: usize, r: OsuDifficultyObject) -> usize
    ensures { Puts (travel_text r) out.old at out.new result }
{
    let distance = put_f64(out, at, r.travel_dist);
    let time = put_f64(out, distance, r.travel_time);
    let flag = put_flag(out, time, r.has_lazy_end);
    let x = put_f32(out, flag, r.lazy_end_x);
    let y = put_f32(out, x, r.lazy_end_y);
    let lazy = put_f64(out, y, r.lazy_travel_dist);
    put_f64(out, lazy, r.lazy_travel_time)
}

// A place and the sixteen fields of its record.
pub fn put_record(out: &mut [u8], at: usize, j: usize, r: OsuDifficultyObject) -> usize
    ensures { Puts (record_text j r) out.old at out.new result }
{
    let place = print_text::put_decimal(out, at, j as u64);
    let jump = put_jump(out, place, r);
    let travel = put_travel(out, jump, r);
    let flag = put_flag(out, travel, r.has_angle);
    let angle = put_f64(out, flag, r.angle);
    let small = put_f64(out, angle, r.small_circle_bonus);
    print_text::put(out, small, b'\n')
}

// The digit of the rule that answered aim.
fn rule_digit(rule: AimRule) -> u8
    ensures { result ≡ rule_digit rule }
{
    match rule {
        AimRule::TooFew => b'0',
        AimRule::Spinner => b'1',
        AimRule::Acute => b'2',
        AimRule::Wide => b'3',
    }
}

// A blank and the rule's number.
fn put_rule(out: &mut [u8], at: usize, rule: AimRule) -> usize
    ensures { Puts (rule_text rule) out.old at out.new result }
{
    let end = print_text::put(out, at, b' ');
    print_text::put(out, end, rule_digit(rule))
}

// The five bonuses.
fn put_bonuses(out: &mut [u8], at: usize, p: AimParts) -> usize
    ensures { Puts (bonuses_text p) out.old at out.new result }
{
    let wide = put_f64(out, at, p.wide);
    let acute = put_f64(out, wide, p.acute);
    let wiggle = put_f64(out, acute, p.wiggle);
    let vel_change = put_f64(out, wiggle, p.vel_change);
    put_f64(out, vel_change, p.slider)
}

// Aim's value, its parts and the rule that answered.
fn put_parts(out: &mut [u8], at: usize, value: f64, p: AimParts) -> usize
    ensures { Puts (parts_text value p) out.old at out.new result }
{
    let rule = p.rule;
    let whole = put_f64(out, at, value);
    let curr_vel = put_f64(out, whole, p.curr_vel);
    let prev_vel = put_f64(out, curr_vel, p.prev_vel);
    let bonuses = put_bonuses(out, prev_vel, p);
    put_rule(out, bonuses, rule)
}

// A place, aim's value with its parts, and both without sliders.
pub fn put_aim(
    out: &mut [u8],
    at: usize,
    j: usize,
    value: f64,
    parts: AimParts,
    value_no_sliders: f64,
    parts_no_sliders: AimParts,
) -> usize
    ensures { Puts (aim_text j value parts value_no_sliders parts_no_sliders) out.old at out.new result }
{
    let place = print_text::put_decimal(out, at, j as u64);
    let with = put_parts(out, place, value, parts);
    let without = put_parts(out, with, value_no_sliders, parts_no_sliders);
    print_text::put(out, without, b'\n')
}

// A place, its rhythm value and how often an island was compared for it.
pub fn put_rhythm(out: &mut [u8], at: usize, j: usize, r: Counted) -> usize
    ensures { Puts (rhythm_text j r) out.old at out.new result }
{
    let place = print_text::put_decimal(out, at, j as u64);
    let value = put_f64(out, place, r.value);
    let space = print_text::put(out, value, b' ');
    let comparisons = print_text::put_decimal(out, space, r.comparisons as u64);
    print_text::put(out, comparisons, b'\n')
}

// The line of a refusal, written.
pub fn show_refusal(out: &mut [u8], r: Refusal) {
    let end = put_refusal(out, 0, r);
    print_text::show(out, end);
}

// The number of objects and the values of a table that has them, written.
pub fn show_values(out: &mut [u8], values: &[f64], n: usize) {
    if values.len() / 5 < n {
        return;
    }
    let mut end = put_count(out, 0, n);
    for j in 1..n {
        end = print_text::show_if_full(out, end);
        end = put_values(out, end, j, eval_values::row_at(values, j));
    }
    print_text::show(out, end);
}
