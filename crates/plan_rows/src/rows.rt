// The points and counts of all rows of a border, put into a plan's file.
ghost use Rattle.std.specs.Prelude.{◌≡◌, ◌+◌, ◌*◌, ◌≤◌, ◌<◌, length};
ghost use Rattle.theory_loops.specs.Total.{total};
ghost use Rattle.network.specs.Decode.{Small};
ghost use Rattle.plan_encode.specs.Places.{PlanRoom};
ghost use Rattle.plan_rows.specs.Rows.{LowRows, row_points, RowPut, RowsPut};

use crate::points::put_points;
use network::header::Layout;
use network::limits::NEVER;
use plan::header::PlanLayout;
use plan_encode::entries::put_count;
use toward_list::rows::row_place;

// Puts node u's points from place q on, and their count as that of profile c. Answers the place after them.
fn put_row(
    l: Layout,
    u: usize,
    work: &[u32],
    out: &mut [u8],
    k: PlanLayout,
    c: usize,
    q: usize,
) -> usize
    requires small { Small l × PlanRoom k (length out.old) }
    requires u_lt_nodes { (u < l.nodes) × (length work.now ≡ l.nodes * l.period)
        × LowRows l.nodes l.period work.now }
    requires c_lt_profiles { (c < k.profiles) × (q + row_points l.period work.now u ≤ k.points) }
    ensures { RowPut k l.period work.now u c q out.old out.new result }
{
    let p = row_place(l, u);
    if work[p] == NEVER {
        put_count(out, k, c, 0);
        return q;
    }
    let e = p + l.period;
    let next = put_points(&work[p..e], out, k, q);
    put_count(out, k, c, (next - q) as u16);
    next
}

// Puts the points of all nodes from place q on, and their counts from that of profile c on.
pub fn put_rows(l: Layout, work: &[u32], out: &mut [u8], k: PlanLayout, c: usize, q: usize) -> usize
    requires small { Small l × PlanRoom k (length out.old) }
    requires work_len { (length work.now ≡ l.nodes * l.period) × LowRows l.nodes l.period work.now }
    requires nodes_bound { (c + l.nodes ≤ k.profiles)
        × (q + total l.nodes (row_points l.period work.now) ≤ k.points) }
    ensures { RowsPut k l.period work.now l.nodes c q out.old
        out.new result }
{
    let mut at = q;
    for u in 0..l.nodes {
        at = put_row(l, u, work, out, k, c + u, at);
    }
    at
}
