// Import: refusals 35 and 36, then 31, or the network of the text written.
ghost use Rattle.std.specs.Prelude.{◌≡◌, ◌*◌, ◌≤◌, length};
ghost use Rattle.theory_loops.specs.Fill.{overwritten};
ghost use Rattle.file_fields.specs.Block.{block_size};
ghost use Rattle.file_refusals.specs.Writing.{written_into, Writes};
ghost use Rattle.network.specs.Tables.{network_of};
ghost use Rattle.network_encode.specs.Encode.{encode};
ghost use Rattle.network_encode.specs.Packable.{Packable};
ghost use Rattle.dimacs_reading.specs.Accepted.{SizesWithin};
ghost use Rattle.dimacs_text.specs.Noting.{TablesLong};
ghost use Rattle.dimacs_import.specs.Import.{ImportCall};
ghost use Rattle.dimacs_import.specs.Roads.{road_tables, roads_file};

use dimacs_line::line::Sizes;
use dimacs_text::judge::judge;
use dimacs_text::roads::Roads;
use file_fields::BLOCK;
use file_refusals::reason::Reason;
use file_refusals::{Refusal, refused};
use network::header::{Header, Layout};
use network::limits::{MOST_ARCS, MOST_NODES, MOST_PERIOD};
use network::tables::LentTables;
use network_encode::encode::encode_network;

// The day of an imported network.
const PERIOD: u16 = MOST_PERIOD as u16;

// Writes the file of a network of these arcs: each has one point, at tick 0, and each node is in cell 0 and
// open all day.
fn write_network(h: Header, l: Layout, roads: &Roads, out: &mut [u8])
    requires packable { Packable h l (road_tables roads.now) }
    requires blocks_in_bounds { block_size * l.blocks ≤ length out.old }
    ensures { out.new ≡ overwritten (encode (network_of h (road_tables roads.now))) out.old }
{
    let zeros = [0u16; MOST_ARCS];
    let ones = [1u16; MOST_ARCS];
    let closes = [PERIOD; MOST_NODES];
    let tables = LentTables {
        cells: &zeros,
        opens: &zeros,
        closes: &closes,
        tails: &roads.tails,
        heads: &roads.heads,
        counts: &ones,
        ticks: &zeros,
        travels: &roads.travels,
    };
    encode_network(out, h, l, &tables);
}

// Refusal 31, or the network of these sizes and arcs written.
fn import_sized(number: u32, k: Sizes, roads: &Roads, out: &mut [u8]) -> Result<u32, Refusal>
    requires { SizesWithin k × TablesLong roads.now }
    ensures { Writes (written_into (length (roads_file number k roads.now)) (length out.old))
        (roads_file number k roads.now) out.old out.new result }
{
    let h = Header {
        number,
        period: PERIOD,
        nodes: k.nodes as u16,
        arcs: k.arcs as u16,
        cells: 1,
        points: k.arcs,
        hours: 0,
    };
    let l = h.layout();
    let long = BLOCK * l.blocks;
    if out.len() < long {
        return refused(Reason::AnswerShort, 0);
    }
    write_network(h, l, roads, out);
    Ok(long as u32)
}

// The length of the network's file, with the first lent bytes that file; or a refusal, with every lent byte
// as it was.
pub fn import_dimacs(text: &[u8], number: u32, out: &mut [u8]) -> Result<u32, Refusal>
    ensures { ImportCall text.now number out.old out.new result }
{
    let mut roads = Roads {
        tails: [0; MOST_ARCS],
        heads: [0; MOST_ARCS],
        travels: [0; MOST_ARCS],
    };
    match judge(text, &mut roads) {
        Ok(k) => import_sized(number, k, &roads, out),
        Err(r) => Err(r),
    }
}
