// Works opacities out. Standard input has for each the object's start, the time, the preempt and fade-in times (f64) and whether it is hidden (u64, 0 or 1),
// little-endian. The opacity is written as bits.
#![tactic(auto)]

// The bytes of a question, and questions that are answered at most.
const SIZE: usize = 40;

const MOST: usize = 65536;

// Writes a number's bits on a line.
fn show(x: f64) {
    let mut line = [0u8; 32];
    let mut end = print_text::put_f64(&mut line[..], 0, x);
    end = print_text::put(&mut line[..], end, b'\n');
    print_text::show(&line[..], end);
}

// Reads a question and answers it; false at the end of the input.
fn answer() -> bool {
    let mut s = [0u8; 40];
    if io::read_full(0, &mut s[..]) < SIZE {
        return false;
    }
    let start = num_floats::f64_at(&s[..], 0);
    let time = num_floats::f64_at(&s[..], 8);
    let preempt = num_floats::f64_at(&s[..], 16);
    let fade_in = num_floats::f64_at(&s[..], 24);
    let hidden = num_floats::u64_at(&s[..], 32) == 1;
    show(osu_difficulty_object::opacity_at(start, time, hidden, preempt, fade_in));
    true
}

fn main() {
    for _ in 0..MOST {
        if !answer() {
            break;
        }
    }
}
