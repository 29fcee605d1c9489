// Entries of a plan's file, each put at its place, in any order. Each contract gives the list that is left;
// specs/Laying.antt says which entries are in then.
ghost use Rattle.std.specs.Prelude.{◌≡◌, ◌+◌, ◌*◌, ◌<◌, length};
ghost use Rattle.file_fields.specs.Put.{put};
ghost use Rattle.file_blocks.specs.Kind.{flag_per, flag_size, count_per, count_size};
ghost use Rattle.file_blocks.specs.Kind.{profile_point_per, profile_point_size};
ghost use Rattle.file_blocks.specs.Place;
ghost use Rattle.file_frames.specs.Laid.{entries_put};
ghost use Rattle.plan_encode.specs.Places.{PlanRoom};

use file_blocks::kind;
use file_fields::fields::{put16, put32, put64};
use network::limits::MOST_ARCS;
use plan::header::PlanLayout;

// The count of points of profile q.
pub fn put_count(out: &mut [u8], l: PlanLayout, q: usize, count: u16)
    requires plan_room { PlanRoom l (length out.old) }
    requires q_lt_profiles { q < l.profiles }
    ensures { out.new ≡ put 2 out.old
        (Place.offset l.countblock count_per count_size q) count }
{
    let at = kind::COUNT.offset(l.countblock, q);
    put16(out, at, count);
}

// Point q, numbered through all profiles.
pub fn put_point(out: &mut [u8], l: PlanLayout, q: usize, tick: u16, travel: u32)
    requires plan_room { PlanRoom l (length out.old) }
    requires q_lt_points { q < l.points }
    ensures { out.new ≡ put 6 out.old
        (Place.offset l.pointblock profile_point_per profile_point_size q) (tick + 65536 * travel) }
{
    let at = kind::PROFILE_POINT.offset(l.pointblock, q);
    put16(out, at, tick);
    put32(out, at + 2, travel);
}

// The flag words of all arcs.
pub fn put_flags(out: &mut [u8], l: PlanLayout, words: &[u64; MOST_ARCS])
    requires { PlanRoom l (length out.old) }
    ensures { out.new ≡ entries_put 1 flag_per flag_size words.now l.arcs
        out.old }
{
    for a in 0..l.arcs {
        let at = kind::FLAG.offset(1, a);
        put64(out, at, words[a]);
    }
}
