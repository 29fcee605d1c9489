// network_hours: when a node is open, every day alike, and the first tick at or after another at which it is
// (specs/Hours.antt, `first_open`).
// It may call `network` for a node's hours.
#![tactic(auto)]

ghost use Rattle.std.specs.Prelude.{◌≡◌, ◌^◌, ◌≤◌, ◌<◌};
ghost use Rattle.network.specs.Decode.{decode, Laid};
ghost use Rattle.network_hours.specs.Hours.{open_from, open_after};

use network::header::Layout;
use network::read;

// The first tick at or after x at which a node with these hours is open.
fn open_from(period: u32, opens: u32, closes: u32, x: u32) -> u32
    requires { (1 ≤ period) × (period ≤ 65536) × (opens < 65536) × (x ≤ 2 ^ 31) }
    ensures { result ≡ open_from period opens closes x }
{
    let tick = x % period;
    if tick < opens {
        return x + (opens - tick);
    }
    if tick < closes {
        return x;
    }
    x + (period - tick) + opens
}

// The same of node v of a file.
pub fn open_after(file: &[u8], l: Layout, v: usize, x: u32) -> u32
    requires laid { Laid file.now l }
    requires v_lt_nodes { (v < l.nodes) × (x ≤ 2 ^ 31) }
    ensures { result ≡ open_after (decode file.now) v x }
{
    let period = l.period;
    let opens = read::opens_at(file, l, v);
    let closes = read::closes_at(file, l, v);
    open_from(period as u32, opens as u32, closes as u32, x)
}
