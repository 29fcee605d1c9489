// Runs of a day walked along: the run that holds a tick, from one tick to a later one, and the span over
// which neither the node's run, the arc's nor its head's changes. specs/Walk.antt.
ghost use Rattle.std.specs.Prelude.{◌≡◌, ◌+◌, ◌%◌, ◌≤◌, ◌<◌, length, get_or};
ghost use Rattle.day_walk.specs.Walk.{At, Listed, Reached, Span};

// The runs of a day: run i holds the ticks from starts[i] up to starts[i + 1], at which the day's value is
// values[i]; starts[count] is the period.
#[derive(Drop)]
pub struct DayRuns<'a, V> {
    pub starts: &'a [u16],
    pub values: &'a [V],
    pub count: usize,
    pub period: usize,
    pub ghost listed: { Listed starts.now count period },
    pub ghost valued: { count ≤ length values.now },
}

// 1 where a is at most b, else 0: a step without a jump.
pub fn reached(a: usize, b: usize) -> usize
    ensures { Reached a b result }
{
    usize::from(a <= b)
}

impl<V> DayRuns<'_, V> {
    // Where run i begins.
    pub fn start(&self, i: usize) -> usize
        requires { i < length self.now.starts.now }
        ensures { result ≡ get_or self.now.starts.now i 0 }
    {
        usize::from(self.starts[i])
    }

    // The run that holds tick e, looked for from run `from` on: most often that one or the next, so that the
    // first step makes no jump.
    pub fn on(&self, from: usize, e: usize) -> usize
        requires { (from < self.now.count) × (get_or self.now.starts.now from 0 ≤ e)
            × (e < self.now.period) }
        ensures { At self.now.starts.now self.now.count result e }
    {
        let mut i = from + reached(self.start(from + 1), e);
        while self.start(i + 1) <= e {
            i += 1;
        }
        i
    }

    // The run that holds tick e: run i or one after it, or, after midnight, from the first on.
    pub fn seek(&self, i: usize, e: usize) -> usize
        requires { (i ≤ self.now.count) × (e < self.now.period) }
        ensures { At self.now.starts.now self.now.count result e }
    {
        if self.start(i) <= e {
            return self.on(i, e);
        }
        self.on(0, e)
    }

    // The run that holds tick `to`, where run i holds tick t and goes on at least up to `to`: without a jump.
    pub fn next(&self, i: usize, t: usize, to: usize) -> usize
        requires at { At self.now.starts.now self.now.count i t }
        requires t_le_to { (t ≤ to) × (to ≤ get_or self.now.starts.now (i + 1) 0) }
        ensures { (result ≤ self.now.count)
            × (to < self.now.period → At self.now.starts.now self.now.count result to) }
    {
        i + reached(self.start(i + 1), to)
    }

    // The tick up to which nothing changes from tick t on, at which the runs i and j are those of the node
    // and of the head, where the arc ends at tick e; its travel stays the same up to `stop`.
    pub fn until(
        &self,
        i: usize,
        head: &DayRuns<'_, V>,
        j: usize,
        t: usize,
        e: usize,
        stop: usize,
    ) -> usize
        requires one_day { (head.now.period ≡ self.now.period) × (self.now.period ≤ 65535) }
        requires at { At self.now.starts.now self.now.count i t × At head.now.starts.now head.now.count j e
            × (t < stop) }
        ensures { Span self.now.starts.now i head.now.starts.now j t e stop result self.now.period }
    {
        let left = t + (head.start(j + 1) - e);
        self.start(i + 1).min(stop).min(left)
    }
}

// The tick of the day at which a travel of w from tick t ends.
pub fn ends(t: usize, w: usize, period: usize) -> usize
    requires { (t < period) × (w ≤ period) × (period ≤ 65535) }
    ensures { (result ≡ (t + w) % period) × (result < period) }
{
    let e = t + w;
    if e < period {
        return e;
    }
    e - period
}
