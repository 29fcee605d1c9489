// The two rounds over the borders of a network.
ghost use Rattle.std.specs.Prelude.{◌≡◌, ◌*◌, ◌≤◌, ◌<◌, length, replicate};
ghost use Rattle.network.specs.Decode.{decode};
ghost use Rattle.network.specs.Limits.{most_nodes};
ghost use Rattle.network.specs.Town.{partition_of};
ghost use Rattle.plan.specs.Border.{border_count};
ghost use Rattle.plan_encode.specs.Places.{PlanRoom};
ghost use Rattle.toward_list.specs.Heights.{Bounds};
ghost use Rattle.plan_flags.specs.Words.{Flags};
ghost use Rattle.plan_rounds.specs.Rounds.{Aimed, Counted, Held, PutTo};

use crate::borders::Borders;
use network::limits::{MOST_ARCS, MOST_NODES, MOST_PERIOD};
use plan::header::PlanLayout;
use plan::limits::MOST_POINTS;
use plan_flags::flag_border;
use plan_rows::count::count_rows;
use plan_rows::rows::put_rows;
use toward_node::least_travels;

// The least travels to border number i, which it answers. `row` is a row to work in; `low` and `room` begin
// as zeros, and end as bounds of the rows.
fn travels_to(
    borders: &Borders<'_, '_>,
    i: usize,
    work: &mut [u32],
    row: &mut [u32; MOST_PERIOD],
    low: &mut [u32; MOST_NODES],
    room: &mut [u32; MOST_NODES],
) -> usize
    requires i_bound { (i < border_count (partition_of (decode borders.now.roads.file.now)))
        × (length work.old ≡ borders.now.roads.layout.nodes * borders.now.roads.layout.period)
        × (borders.now.roads.layout.period ≤ length row.old) }
    requires zeros { (low.old ≡ replicate most_nodes 0) × (room.old ≡ replicate most_nodes 0) }
    ensures { Aimed (decode borders.now.roads.file.now) i work.new result
        × Bounds borders.now.roads.layout work.new low.new room.new
        × (length work.new ≡ length work.old)
        × (length row.new ≡ length row.old) }
{
    let b = usize::from(borders.nodes[i]);
    least_travels(&borders.roads, b, work, row, low, room);
    b
}

// How many points all profiles have. Where they are more than a plan can hold it leaves early, with a number
// that is more too.
pub fn count_points(borders: &Borders<'_, '_>, work: &mut [u32]) -> u32
    requires { length work.old ≡ borders.now.roads.layout.nodes * borders.now.roads.layout.period }
    ensures { Counted (partition_of (decode borders.now.roads.file.now)) result }
{
    let mut row = [0u32; MOST_PERIOD];
    let mut seen = 0;
    for i in 0..borders.nodes.len() {
        let mut low = [0u32; MOST_NODES];
        let mut room = [0u32; MOST_NODES];
        travels_to(borders, i, work, &mut row, &mut low, &mut room);
        seen += count_rows(borders.roads.layout, work);
        if MOST_POINTS < seen {
            return seen;
        }
    }
    seen
}

// Puts the counts and points of all borders into the file, and adds their flags to the words.
pub fn put_borders(
    borders: &Borders<'_, '_>,
    k: PlanLayout,
    work: &mut [u32],
    words: &mut [u64; MOST_ARCS],
    out: &mut [u8],
)
    requires held { Held (decode borders.now.roads.file.now) k × PlanRoom k (length out.old) }
    requires work_len { (length work.old ≡ borders.now.roads.layout.nodes * borders.now.roads.layout.period)
        × Flags (decode borders.now.roads.file.now) 0 words.old }
    ensures { PutTo (decode borders.now.roads.file.now) k k.borders words.new out.old
        out.new }
{
    let mut row = [0u32; MOST_PERIOD];
    let l = borders.roads.layout;
    let mut q = 0;
    for i in 0..k.borders {
        let mut low = [0u32; MOST_NODES];
        let mut room = [0u32; MOST_NODES];
        let b = travels_to(borders, i, work, &mut row, &mut low, &mut room);
        flag_border(&borders.roads, b, &low, &room, work, &mut row, words);
        q = put_rows(l, work, out, k, i * l.nodes, q);
    }
}
