// The file of a network, written block by block from its start on. specs/Encode.antt says which bytes these
// are, and specs/BlockWritten.antt that a head, entries, zeros and a check make a block of them.
ghost use Rattle.std.specs.Prelude.{◌≡◌, ◌+◌, ◌*◌, ◌^◌, ◌≤◌, ◌<◌, length};
ghost use Rattle.theory_loops.specs.Fill.{Filled, overwritten};
ghost use Rattle.file_fields.specs.Block.{block_size, head_size};
ghost use Rattle.file_blocks.specs.Kind.{network_kind, network_size, cell_kind, cell_size, cell_per};
ghost use Rattle.file_blocks.specs.Kind.{arc_size, arc_per, point_kind, point_size, point_per};
ghost use Rattle.file_write.specs.Bytes.{file_byte};
ghost use Rattle.file_fields.specs.Put.{put};
ghost use Rattle.file_write.specs.Run.{run_body, header_body};
ghost use Rattle.network.specs.Limits.{WithinLimits};
ghost use Rattle.network.specs.Tables.{tables_of, network_of};
ghost use Rattle.network_encode.specs.Encode.{header_number, header_byte, cell_byte, triple_byte};
ghost use Rattle.network_encode.specs.Encode.{point_byte, node_byte, body_by, encode};
ghost use Rattle.network.specs.Node.{node_kind, node_size, node_per};
ghost use Rattle.network_encode.specs.Entries.{part_byte, InRun};
ghost use Rattle.network_encode.specs.Packable.{Packable};

use file_blocks::kind;
use file_fields::fields::{put8, put16, put32};
use file_fields::{BLOCK, ENTRIES, HEAD, SUMMED};
use file_write::write::{write_check, write_head, write_zeros};
use network::header::{Header, Layout};
use network::tables::LentTables;

// The bytes of block 0 that its head and its one entry take.
const USED: usize = HEAD + kind::NETWORK.size;

// Two fields of two bytes, one behind the other.
fn put_two(out: &mut [u8], o: usize, x: u16, y: u16)
    requires { o + 4 ≤ length out.old }
    ensures { out.new ≡ put 4 out.old o (x + 65536 * y) }
{
    put16(out, o, x);
    put16(out, o + 2, y);
}

// Three of them.
fn put_three(out: &mut [u8], o: usize, x: u16, y: u16, z: u16)
    requires { o + 6 ≤ length out.old }
    ensures { out.new ≡ put 6 out.old o (x + 65536 * (y + 65536 * z)) }
{
    put16(out, o, x);
    put_two(out, o + 2, y, z);
}

// The header's fields, as the one entry of block 0.
fn put_header(out: &mut [u8], h: Header)
    requires within_limits { WithinLimits h }
    requires number_bound { (h.number < 2 ^ 32) × (head_size + network_size ≤ length out.old) }
    ensures { out.new ≡ put network_size out.old 8 (header_number h) }
{
    put32(out, 8, h.number);
    put16(out, 12, h.period);
    put16(out, 14, h.nodes);
    put16(out, 16, h.arcs);
    put16(out, 18, h.cells);
    put32(out, 20, h.points);
    put8(out, 24, h.hours as u8);
}

// The m cells from node `first` on, written from byte `base` on.
fn put_cells(out: &mut [u8], base: usize, first: usize, m: usize, cells: &[u16])
    requires { (base + cell_size * m ≤ length out.old) × (first + m ≤ length cells.now) }
    ensures { Filled base (base + cell_size * m)
        (part_byte cell_size (cell_byte cells.now) base first) out.old
        out.new }
{
    for e in 0..m {
        put16(out, base + kind::CELL.size * e, cells[first + e]);
    }
}

// The m entries of three fields from entry `first` on.
fn put_triples(
    out: &mut [u8],
    base: usize,
    first: usize,
    m: usize,
    xs: &[u16],
    ys: &[u16],
    zs: &[u16],
)
    requires m_in_bounds { base + arc_size * m ≤ length out.old }
    requires m_in_bounds_2 { (first + m ≤ length xs.now) × (first + m ≤ length ys.now)
        × (first + m ≤ length zs.now) }
    ensures { Filled base (base + arc_size * m)
        (part_byte arc_size (triple_byte xs.now ys.now zs.now) base
        first) out.old out.new }
{
    for e in 0..m {
        let a = first + e;
        put_three(out, base + kind::ARC.size * e, xs[a], ys[a], zs[a]);
    }
}

// The m points from point `first` on.
fn put_points(out: &mut [u8], base: usize, first: usize, m: usize, ticks: &[u16], travels: &[u16])
    requires m_in_bounds { base + point_size * m ≤ length out.old }
    requires m_in_bounds_2 { (first + m ≤ length ticks.now) × (first + m ≤ length travels.now) }
    ensures { Filled base (base + point_size * m)
        (part_byte point_size (point_byte ticks.now travels.now) base first)
        out.old out.new }
{
    for e in 0..m {
        let q = first + e;
        put_two(out, base + kind::POINT.size * e, ticks[q], travels[q]);
    }
}

// Block 0.
fn header_block(out: &mut [u8], h: Header)
    requires within_limits { WithinLimits h }
    requires number_bound { (h.number < 2 ^ 32) × (block_size ≤ length out.old) }
    ensures { Filled 0 block_size (file_byte (header_body network_kind network_size (header_byte h)))
        out.old out.new }
{
    write_head(out, 0, kind::NETWORK.number, 1);
    put_header(out, h);
    write_zeros(out, USED, SUMMED);
    write_check(out, 0);
}

// Block b, one of the cells' run.
fn cells_block(out: &mut [u8], b: usize, nodes: usize, cells: &[u16])
    requires in_run { InRun 1 cell_per nodes b (length out.old) }
    requires nodes_in_bounds { nodes ≤ length cells.now }
    ensures { Filled (block_size * b) (block_size * (b + 1))
        (file_byte (run_body cell_kind cell_per cell_size nodes (cell_byte cells.now) 1))
        out.old out.new }
{
    let at = BLOCK * b + HEAD;
    let m = kind::CELL.entries_in(nodes, b - 1);
    write_head(out, b, kind::CELL.number, m);
    put_cells(out, at, kind::CELL.per * (b - 1), m, cells);
    write_zeros(out, at + kind::CELL.size * m, at + ENTRIES);
    write_check(out, b);
}

// Block b, one of a run of entries of three fields, which starts at block `from`.
fn triples_block(
    out: &mut [u8],
    b: usize,
    kind: u8,
    from: usize,
    n: usize,
    xs: &[u16],
    ys: &[u16],
    zs: &[u16],
)
    requires in_run { InRun from arc_per n b (length out.old) }
    requires n_in_bounds { (n ≤ length xs.now) × (n ≤ length ys.now) × (n ≤ length zs.now) × (kind < 256) }
    ensures { Filled (block_size * b) (block_size * (b + 1))
        (file_byte (run_body kind arc_per arc_size n
        (triple_byte xs.now ys.now zs.now) from))
        out.old out.new }
{
    let at = BLOCK * b + HEAD;
    let m = kind::ARC.entries_in(n, b - from);
    write_head(out, b, kind, m);
    put_triples(out, at, kind::ARC.per * (b - from), m, xs, ys, zs);
    write_zeros(out, at + kind::ARC.size * m, at + ENTRIES);
    write_check(out, b);
}

// Block b, one of the nodes' run.
fn nodes_block(out: &mut [u8], b: usize, l: Layout, tables: &LentTables<'_>)
    requires in_run { InRun 1 (node_per l.hours) l.nodes b (length out.old) }
    requires nodes_in_bounds { (l.nodes ≤ length tables.now.cells.now)
        × (l.nodes ≤ length tables.now.opens.now) × (l.nodes ≤ length tables.now.closes.now) }
    ensures { Filled (block_size * b) (block_size * (b + 1))
        (file_byte (run_body (node_kind l.hours) (node_per l.hours) (node_size l.hours) l.nodes
        (node_byte l.hours tables.now.cells.now tables.now.opens.now tables.now.closes.now) 1))
        out.old out.new }
{
    if l.hours == 0 {
        cells_block(out, b, l.nodes, tables.cells);
        return;
    }
    triples_block(
        out,
        b,
        kind::HOURS.number,
        1,
        l.nodes,
        tables.cells,
        tables.opens,
        tables.closes,
    );
}

// Block b, one of the points' run.
fn points_block(out: &mut [u8], b: usize, l: Layout, tables: &LentTables<'_>)
    requires in_run { InRun l.pointblock point_per l.points b (length out.old) }
    requires points_in_bounds { (l.points ≤ length tables.now.ticks.now)
        × (l.points ≤ length tables.now.travels.now) }
    ensures { Filled (block_size * b) (block_size * (b + 1))
        (file_byte (run_body point_kind point_per point_size l.points
        (point_byte tables.now.ticks.now tables.now.travels.now) l.pointblock))
        out.old out.new }
{
    let at = BLOCK * b + HEAD;
    let m = kind::POINT.entries_in(l.points, b - l.pointblock);
    let first = kind::POINT.per * (b - l.pointblock);
    write_head(out, b, kind::POINT.number, m);
    put_points(out, at, first, m, tables.ticks, tables.travels);
    write_zeros(out, at + kind::POINT.size * m, at + ENTRIES);
    write_check(out, b);
}

// Block b of the network's file.
fn write_block(out: &mut [u8], h: Header, l: Layout, b: usize, tables: &LentTables<'_>)
    requires packable { Packable h l (tables_of tables.now) }
    requires b_lt_blocks { (b < l.blocks) × (block_size * l.blocks ≤ length out.old) }
    ensures { Filled (block_size * b) (block_size * (b + 1))
        (file_byte (body_by h (network_of h (tables_of tables.now)))) out.old out.new }
{
    if b < 1 {
        header_block(out, h);
        return;
    }
    if b < l.arcblock {
        nodes_block(out, b, l, tables);
        return;
    }
    if b < l.pointblock {
        triples_block(
            out,
            b,
            kind::ARC.number,
            l.arcblock,
            l.arcs,
            tables.tails,
            tables.heads,
            tables.counts,
        );
        return;
    }
    points_block(out, b, l, tables);
}

// The network's file, into the first bytes of a list that has room for it.
pub fn encode_network(out: &mut [u8], h: Header, l: Layout, tables: &LentTables<'_>)
    requires packable { Packable h l (tables_of tables.now) }
    requires blocks_in_bounds { block_size * l.blocks ≤ length out.old }
    ensures { out.new ≡ overwritten (encode (network_of h (tables_of tables.now))) out.old }
{
    for b in 0..l.blocks {
        write_block(out, h, l, b, tables);
    }
}
