// The runs of a line between two points: one that rises or falls by less than its ticks (`rising`,
// `falling`), and one with a new value at each tick (`climb`, `sink`). Rounding stands here alone. Each pair
// differs in where its runs begin and in what it rounds, so that one function with a direction would hold two
// loops. The runs go into two slices, and not into a struct that lends both, since each function would then
// have to promise that the struct still lends the same ones.
ghost use Rattle.std.specs.Prelude.{◌≡◌, ◌+◌, ◌-◌, ◌/◌, ◌≤◌, ◌<◌, length, set};
ghost use Rattle.theory_travel.specs.Pieces.{line_at};
ghost use Rattle.day_slopes.specs.Held.{Added, Held, Room};

// A piece of a day: the line from tick a, with value v, to tick b, with value w.
#[derive(Clone, Copy)]
pub struct Piece {
    pub a: usize,
    pub v: u32,
    pub b: usize,
    pub w: u32,
}

// Puts run n: from where run n - 1 ends up to tick e.
pub fn put(starts: &mut [u16], values: &mut [u32], n: usize, e: usize, v: u32)
    requires { (n + 1 < length starts.old) × (n < length values.old) × (e ≤ 65535) }
    ensures { (starts.new ≡ set starts.old (n + 1) e)
        × (values.new ≡ set values.old n v) }
{
    starts[n + 1] = e as u16;
    values[n] = v;
}

// The wholes of so many parts.
pub fn wholes(parts: u64) -> usize
    ensures { result ≡ parts / 4294967296 }
{
    (parts / 4294967296) as usize
}

// Runs of a line that falls by less than its ticks: value v - j begins at the `ceiled`-th tick of j.
pub fn falling(starts: &mut [u16], values: &mut [u32], n: usize, p: Piece) -> usize
    requires room { Room starts.old values.old n p.a p.b }
    requires w_lt_v { (p.w < p.v) × (p.v - p.w < p.b - p.a) }
    ensures { Added starts.old values.old starts.new
        values.new n result p.a p.v p.b (line_at p.a p.v p.b p.w) }
{
    let fall = (p.v - p.w) as usize;
    let last = fall - 1;
    let step = travel_runs::step_down((p.b - p.a) as u32, fall);
    let mut parts = 4294967295;
    for j in 0..last {
        parts += step;
        let e = p.a + wholes(parts);
        put(starts, values, n + j, e, p.v - j as u32);
    }
    put(starts, values, n + last, p.b, p.w + 1);
    n + fall
}

// Runs of a line that rises by less than its ticks: value v + (j + 1) begins after the `floored`-th tick of
// j. The last, of value w, stays open.
pub fn rising(starts: &mut [u16], values: &mut [u32], n: usize, p: Piece) -> usize
    requires room { Room starts.old values.old n p.a p.b }
    requires v_lt_w { (p.v < p.w) × (p.w - p.v < p.b - p.a) }
    ensures { Held starts.old values.old starts.new
        values.new n result p.a p.v p.b p.w (line_at p.a p.v p.b p.w) }
{
    let rise = (p.w - p.v) as usize;
    let step = travel_runs::step_up((p.b - p.a) as u32, rise);
    let mut parts = 0;
    for j in 0..rise {
        let e = p.a + 1 + wholes(parts);
        put(starts, values, n + j, e, p.v + j as u32);
        parts += step;
    }
    n + rise
}

// Runs of a line that rises by its ticks or more: one for each tick. The walk starts one part short of the
// next whole, so its wholes are rounded up.
pub fn climb(starts: &mut [u16], values: &mut [u32], n: usize, p: Piece) -> usize
    requires room { Room starts.old values.old n p.a p.b }
    requires v_lt_w { p.v < p.w }
    ensures { Added starts.old values.old starts.new
        values.new n result p.a p.v p.b (line_at p.a p.v p.b p.w) }
{
    let start = u64::from(p.v) * 4294967296 + 4294967295;
    let step = travel_runs::step_down(p.w - p.v, p.b - p.a);
    let last = p.b - 1;
    let mut parts = start;
    for x in p.a..last {
        put(starts, values, n + (x - p.a), x + 1, wholes(parts) as u32);
        parts += step;
    }
    put(starts, values, n + (last - p.a), p.b, wholes(parts) as u32);
    n + (p.b - p.a)
}

// The same of one that falls.
pub fn sink(starts: &mut [u16], values: &mut [u32], n: usize, p: Piece) -> usize
    requires room { Room starts.old values.old n p.a p.b }
    requires w_lt_v { p.w < p.v }
    ensures { Added starts.old values.old starts.new
        values.new n result p.a p.v p.b (line_at p.a p.v p.b p.w) }
{
    let start = u64::from(p.v) * 4294967296 + 4294967295;
    let step = travel_runs::step_up(p.v - p.w, p.b - p.a);
    let last = p.b - 1;
    let mut parts = start;
    for x in p.a..last {
        put(starts, values, n + (x - p.a), x + 1, wholes(parts) as u32);
        parts -= step;
    }
    put(starts, values, n + (last - p.a), p.b, wholes(parts) as u32);
    n + (p.b - p.a)
}
