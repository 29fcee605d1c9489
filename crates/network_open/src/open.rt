// Open: the tables of a network file, written into lent tables once nothing is refused.
ghost use Rattle.std.specs.Prelude.{◌≡◌, ◌≤◌, length};
ghost use Rattle.network.specs.Tables.{tables_of, tables_in, each, SameTables};
ghost use Rattle.network.specs.Decode.{decode, Laid};
ghost use Rattle.theory_loops.specs.Fill.{Filled, overwritten};
ghost use Rattle.network_open.specs.Open.{too_short, Room, OpenCall};

use file_blocks::pairs::decode_pairs;
use file_refusals::reason::Reason;
use file_refusals::{Refusal, refused};
use network::header::{Header, Layout};
use network::tables::{LentTables, LentTablesMut};
use network_validate::validate::validate;

// Refusal 30: has one of these tables no room for the header's counts?
#[tactic(auto, unfolding(crate::specs::Open::too_short_by))]
pub fn is_short(h: Header, tables: &LentTables<'_>) -> bool
    ensures { result ≡ too_short h (tables_of tables.now) }
{
    let nodes = usize::from(h.nodes);
    let arcs = usize::from(h.arcs);
    let points = h.points as usize;
    tables.cells.len() < nodes
        || tables.opens.len() < nodes
        || tables.closes.len() < nodes
        || tables.tails.len() < arcs
        || tables.heads.len() < arcs
        || tables.counts.len() < arcs
        || tables.ticks.len() < points
        || tables.travels.len() < points
}

// The cells of the nodes, into a table with room for them.
fn write_cells(file: &[u8], l: Layout, cells: &mut [u16])
    requires laid { Laid file.now l }
    requires nodes_in_bounds { l.nodes ≤ length cells.old }
    ensures { cells.new ≡ overwritten (decode file.now).cell_of cells.old }
{
    l.nodes_run().decode16(file, 0, cells);
}

// The first n entries of a table become one value.
fn fill(table: &mut [u16], n: usize, value: u16)
    requires { n ≤ length table.old }
    ensures { Filled 0 n (λ _. value) table.old table.new }
{
    table[..n].fill(value);
}

// The hours of the nodes: where none are held, they are open all day.
fn write_hours(file: &[u8], l: Layout, opens: &mut [u16], closes: &mut [u16])
    requires laid { Laid file.now l }
    requires nodes_in_bounds { (l.nodes ≤ length opens.old) × (l.nodes ≤ length closes.old) }
    ensures { (opens.new ≡ overwritten (decode file.now).opens
        opens.old)
        × (closes.new ≡ overwritten (decode file.now).closes closes.old) }
{
    let n = l.nodes;
    let period = l.period;
    if l.hours == 0 {
        fill(opens, n, 0);
        fill(closes, n, period as u16);
        return;
    }
    let run = l.hours_run();
    run.decode16(file, 2, opens);
    run.decode16(file, 4, closes);
}

// The tails, heads and counts of the arcs.
fn write_arcs(file: &[u8], l: Layout, tails: &mut [u16], heads: &mut [u16], counts: &mut [u16])
    requires laid { Laid file.now l }
    requires arcs_in_bounds { (l.arcs ≤ length tails.old) × (l.arcs ≤ length heads.old)
        × (l.arcs ≤ length counts.old) }
    ensures { (tails.new ≡ overwritten (decode file.now).tails
        tails.old)
        × (heads.new ≡ overwritten (decode file.now).heads heads.old)
        × (counts.new ≡ overwritten (decode file.now).counts counts.old) }
{
    let run = l.arcs_run();
    run.decode16(file, 0, tails);
    run.decode16(file, 2, heads);
    run.decode16(file, 4, counts);
}

// The ticks and travels of the points.
fn write_points(file: &[u8], l: Layout, ticks: &mut [u16], travels: &mut [u16])
    requires laid { Laid file.now l }
    requires points_in_bounds { (l.points ≤ length ticks.old) × (l.points ≤ length travels.old) }
    ensures { (ticks.new ≡ overwritten (decode file.now).ticks
        ticks.old)
        × (travels.new ≡ overwritten (decode file.now).travels travels.old) }
{
    decode_pairs(file, l.points_run(), ticks, travels);
}

// All eight tables.
fn write_tables(file: &[u8], l: Layout, tables: &mut LentTablesMut<'_>)
    requires laid { Laid file.now l }
    requires room { Room l (tables_in tables.old) }
    ensures same { SameTables tables.old tables.new }
    ensures written { tables_in tables.new
        ≡ each overwritten (decode file.now) (tables_in tables.old) }
{
    write_cells(file, l, tables.cells);
    write_hours(file, l, tables.opens, tables.closes);
    write_arcs(file, l, tables.tails, tables.heads, tables.counts);
    write_points(file, l, tables.ticks, tables.travels);
}

// The header's numbers, with the tables' first entries the network's; or a refusal, with every table as it
// was.
pub fn open_network(file: &[u8], tables: &mut LentTablesMut<'_>) -> Result<Header, Refusal>
    ensures same { SameTables tables.old tables.new }
    ensures call { OpenCall file.now (tables_in tables.old) (tables_in tables.new) result }
{
    let h = validate(file)?;
    if is_short(h, &tables.lent()) {
        return refused(Reason::TableShort, 0);
    }
    write_tables(file, h.layout(), tables);
    Ok(h)
}
