// How many points rows of travels have.
ghost use Rattle.std.specs.Prelude.{◌≡◌, ◌*◌, ◌<◌, length};
ghost use Rattle.theory_loops.specs.Total.{total};
ghost use Rattle.network.specs.Decode.{Small};
ghost use Rattle.plan_rows.specs.Rows.{LowRows, row_points};

use network::header::Layout;
use network::limits::NEVER;
use toward_list::rows::row_place;
use toward_points::point_count;

// How many points a node's row has: none where it has no number.
fn row_points(l: Layout, u: usize, work: &[u32]) -> u32
    requires small { Small l }
    requires u_lt_nodes { (u < l.nodes) × (length work.now ≡ l.nodes * l.period)
        × LowRows l.nodes l.period work.now }
    ensures { result ≡ row_points l.period work.now u }
{
    let p = row_place(l, u);
    if work[p] == NEVER {
        return 0;
    }
    let e = p + l.period;
    point_count(&work[p..e])
}

// How many points all rows have.
pub fn count_rows(l: Layout, work: &[u32]) -> u32
    requires small { Small l }
    requires work_len { (length work.now ≡ l.nodes * l.period) × LowRows l.nodes l.period work.now }
    ensures { result ≡ total l.nodes (row_points l.period work.now) }
{
    let mut seen = 0;
    for u in 0..l.nodes {
        seen += row_points(l, u, work);
    }
    seen
}
