// Standard input of the programs: little-endian numbers, charts and tables, one after the other.
ghost use Rattle.std.specs.Prelude.{◌*◌, ◌≤◌, length, IfSome};

// Charts that are read at most.
const MOST: usize = 65536;

// The next u32; the largest where the input ends. With an Option each caller would write that default, so it is no plainer.
pub fn next_word() -> usize {
    let mut word = [0u8; 4];
    if io::read_full(0, &mut word[..]) < 4 {
        return 0xFFFF_FFFF;
    }
    u32::from_le_bytes(word) as usize
}

// The next u32, at most this.
pub fn next_length(most: usize) -> usize
    ensures { result ≤ most }
{
    next_word().min(most)
}

// The next u64; 0 where the input ends.
pub fn next_long() -> u64 {
    let mut word = [0u8; 8];
    io::read_full(0, &mut word[..]);
    u64::from_le_bytes(word)
}

// Reads a length and as many bytes into the buffer; how many there were, or none where the buffer is too short for the length.
pub fn read_chart(chart: &mut [u8]) -> Option<usize>
    ensures { IfSome result (λ n. n ≤ length chart.new) }
{
    let n = next_word();
    if chart.len() < n {
        return None;
    }
    Some(io::read_full(0, &mut chart[..n]))
}

// Answers each chart of the input, which is read into the buffer, to the input's end.
pub fn each_chart<F: FnMut(&mut [u8])>(chart: &mut [u8], mut answer: F)
    requires { F.IsAlwaysCallable answer }
{
    for _ in 0..MOST {
        let Some(n) = read_chart(chart) else {
            break;
        };
        answer(&mut chart[..n]);
    }
}

// The first n numbers of the bytes.
fn decode(bytes: &[u8], n: usize, table: &mut [f64])
    requires { (8 * n ≤ length bytes.now) × (n ≤ length table.old) }
{
    for i in 0..n {
        table[i] = num_floats::f64_at(bytes, 8 * i);
    }
}

// Reads n numbers into the table by way of the bytes, none where either is too short.
pub fn read_numbers(n: usize, bytes: &mut [u8], table: &mut [f64]) {
    if table.len() < n {
        return;
    }
    if bytes.len() / 8 < n {
        return;
    }
    let size = 8 * n;
    io::read_full(0, &mut bytes[0..size]);
    decode(bytes, n, table);
}
