// The least travel of each arc, as its points have it.
ghost use Rattle.std.specs.Prelude.{◌≡◌, ◌+◌, ◌≤◌, ◌<◌, length};
ghost use Rattle.network.specs.Decode.{decode, Laid};
ghost use Rattle.toward_row.specs.Arcs.{Primed};
ghost use Rattle.toward_list.specs.Leasts.{LeastOf, LeastTravel, Leasts};

use network::header::Layout;
use network::limits::MOST_ARCS;
use network::read;

// The least travel of `count` points from `from` on.
fn least_of_points(file: &[u8], l: Layout, from: usize, count: usize) -> usize
    requires laid { Laid file.now l }
    requires count_bound { from + count ≤ l.points }
    ensures { LeastOf (decode file.now).travels from count result × (result < 65536) }
{
    let mut low = 65535usize;
    for k in 0..count {
        low = low.min(read::travel(file, l, from + k));
    }
    low
}

// The least travel of an arc.
fn least_of_arc(file: &[u8], l: Layout, starts: &[u16; MOST_ARCS], arc: usize) -> u16
    requires primed { Primed file.now l starts.now }
    requires arc_lt_arcs { arc < l.arcs }
    ensures { LeastTravel file.now l arc result }
{
    let from = usize::from(starts[arc]);
    let count = read::count(file, l, arc);
    least_of_points(file, l, from, count) as u16
}

// The least travel of each arc.
pub fn least_of_arcs(
    file: &[u8],
    l: Layout,
    starts: &[u16; MOST_ARCS],
    least: &mut [u16; MOST_ARCS],
)
    requires primed { Primed file.now l starts.now }
    requires arcs_in_bounds { l.arcs ≤ length least.old }
    ensures { Leasts file.now l l.arcs least.new }
{
    for a in 0..l.arcs {
        least[a] = least_of_arc(file, l, starts, a);
    }
}
