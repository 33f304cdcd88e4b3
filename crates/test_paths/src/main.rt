// Looks positions up on paths. Standard input has for each lookup the progress (f64), the stated length (f64), the number of points (u32, 1 to 64) and the
// points (f32 x, f32 y, f64 length so far), little-endian. The position is written as bits, x and y.
#![tactic(auto)]

ghost use Rattle.std.specs.Prelude.{◌+◌, ◌*◌, ◌<◌, ◌≤◌, length};

use chart_fields::Layout;
use osu_object::{OsuSlider, Runs};
use osu_pos::Pos;

// Lookups that are made at most.
const MOST: usize = 65536;

const MOST_POINTS: usize = 64;

// Where the points begin: after a header and one nested entry, as in a chart without objects.
const POINTS_AT: usize = 104;

// The position on the path of the first points.
fn position(path: &[u8], count: usize, stated: f64, progress: f64) -> Pos
    requires { (0 < count) × (count ≤ 64) × (104 + 16 * count ≤ length path.now) }
{
    let lay = Layout {
        n: 0,
        nested: 1,
        points: count,
        object_size: chart_fields::OBJECT_SIZE,
        nested_at: 80,
        points_at: POINTS_AT,
    };
    let runs = Runs {
        nested_first: 0,
        nested_count: 1,
        point_first: 0,
        point_count: count,
    };
    let slider = OsuSlider {
        chart: path,
        lay,
        runs,
    };
    slider.position_at(stated, progress)
}

// Writes a position as one line.
fn show(p: Pos) {
    let mut line = [0u8; 32];
    let mut end = print_text::put_f32(&mut line[..], 0, p.x);
    end = print_text::put(&mut line[..], end, b' ');
    end = print_text::put_f32(&mut line[..], end, p.y);
    end = print_text::put(&mut line[..], end, b'\n');
    print_text::show(&line[..], end);
}

// Reads a lookup and answers it; false at the end of the input.
fn answer(path: &mut [u8]) -> bool
    requires { 1128 ≤ length path.old }
{
    let mut head = [0u8; 20];
    if io::read_full(0, &mut head[..]) < 20 {
        return false;
    }
    let count = num_floats::count_at(&head[..], 16);
    if count < 1 {
        return false;
    }
    if MOST_POINTS < count {
        return false;
    }
    let size = 16 * count;
    if io::read_full(0, &mut path[POINTS_AT..POINTS_AT + size]) < size {
        return false;
    }
    let progress = num_floats::f64_at(&head[..], 0);
    let stated = num_floats::f64_at(&head[..], 8);
    show(position(path, count, stated, progress));
    true
}

// Lookups to the end of the input.
fn run(path: &mut [u8])
    requires { 1128 ≤ length path.old }
{
    for _ in 0..MOST {
        if !answer(path) {
            break;
        }
    }
}

fn main() {
    let mut path = [0u8; 1128];
    run(&mut path[..]);
}
