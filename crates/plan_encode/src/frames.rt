// The frames of a plan's file: every block with its head and zeros, and the header's entry.
ghost use Rattle.std.specs.Prelude.{◌≡◌, ◌+◌, ◌^◌, ◌≤◌, ◌<◌, length};
ghost use Rattle.file_fields.specs.Block.{head_size};
ghost use Rattle.file_fields.specs.Put.{put};
ghost use Rattle.file_blocks.specs.Kind.{plan_size};
ghost use Rattle.file_frames.specs.Laid.{none};
ghost use Rattle.plan.specs.PlanHeader.{PlanWithin};
ghost use Rattle.plan_encode.specs.PlanEncode.{plan_header_number};
ghost use Rattle.plan_encode.specs.Places.{PlanWritable};
ghost use Rattle.plan_encode.specs.Laying.{Laying};

use file_blocks::kind;
use file_blocks::place::Run;
use file_fields::fields::{put16, put32};
use file_frames::frames::frame_run;
use plan::header::{PlanHeader, PlanLayout};

// The header's fields, as the one entry of block 0. Two bytes before the points are zero.
fn put_header(out: &mut [u8], k: PlanHeader)
    requires plan_within { PlanWithin k }
    requires number_bound { (k.number < 2 ^ 32) × (head_size + plan_size ≤ length out.old) }
    ensures { out.new ≡ put plan_size out.old 8 (plan_header_number k) }
{
    put32(out, 8, k.number);
    put16(out, 12, k.period);
    put16(out, 14, k.nodes);
    put16(out, 16, k.arcs);
    put16(out, 18, k.cells);
    put16(out, 20, k.borders);
    put16(out, 22, 0);
    put32(out, 24, k.points);
}

// The file of a plan with header k before any entry of its tables is in.
pub fn write_frames(out: &mut [u8], k: PlanHeader, l: PlanLayout)
    requires { PlanWritable k l (length out.old) }
    ensures { Laying k none none none out.old out.new }
{
    frame_run(
        out,
        Run {
            from: 0,
            kind: kind::PLAN,
            count: 1,
        },
    );
    frame_run(out, l.flags_run());
    frame_run(out, l.counts_run());
    frame_run(out, l.points_run());
    put_header(out, k);
}
