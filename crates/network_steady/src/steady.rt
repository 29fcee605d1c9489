// Whether all points keep the rules 9 and 10, yes or no: what a good file is asked. Each arc begins at tick
// 0, so at its first point the order does not go on; where it does at all others, every arc keeps the rules
// but for its day's close. Where the answer is no, a scan finds rule and point.
ghost use Rattle.std.specs.Prelude.{◌≡◌, true, Ok};
ghost use Rattle.network.specs.Decode.{decode, Laid};
ghost use Rattle.network.specs.FirstPoint.{Counted};
ghost use Rattle.network.specs.Rules.{judged_points};

use crate::closes::are_closed;
use crate::joins::count_joins;
use network::header::Layout;

// Do all points keep the rules?
pub fn is_steady(file: &[u8], l: Layout) -> bool
    requires laid { Laid file.now l }
    requires counted { Counted (decode file.now) }
    ensures { result ≡ true → Ok tt ≡ judged_points (decode file.now) }
{
    let joined = count_joins(file, l) as usize;
    if joined + l.arcs != l.points {
        return false;
    }
    are_closed(file, l)
}
