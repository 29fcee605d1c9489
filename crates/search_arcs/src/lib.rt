// search_arcs: when an arc of a sound network file that is taken at a tick ends, by its points, read in
// place; and numbers compared as the loops of those who search do it.
// It may call `network` for the entries of the file and `theory_travel` for the straight line; it cites
// `search_chains` for what it rests on, `theory_loops` and `theory_paths`.
#![tactic(auto)]

pub mod times;

ghost use Rattle.std.specs.Prelude.{◌≡◌, ◌^◌, ◌<◌, ltb};

// Is a number before another? They are compared as signed numbers, which the vector code of any x86-64 can
// do.
pub fn is_before(x: u32, other: u32) -> bool
    requires { (x < 2 ^ 31) × (other < 2 ^ 31) }
    ensures { result ≡ ltb x other }
{
    (x as i32) < (other as i32)
}
