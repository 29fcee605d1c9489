// Pack: the file of a network whose tables are lent, written into lent bytes once nothing is refused. The
// rules are judged on the tables where they stand, and the file is written once, where it is to stand.
ghost use Rattle.std.specs.Prelude.{◌^◌, ◌<◌};
ghost use Rattle.network.specs.Limits.{WithinLimits};
ghost use Rattle.network.specs.Tables.{tables_of, network_of};
ghost use Rattle.network_encode.specs.Packable.{Packable};
ghost use Rattle.network_pack.specs.Pack.{numbers_of, WritesNetwork, PacksNetwork, PacksTables, PackCall};

use file_fields::BLOCK;
use file_refusals::reason::Reason;
use file_refusals::{Refusal, refused};
use network::header::{Header, HeaderNumbers, Layout};
use network::tables::LentTables;
use network_encode::encode::encode_network;
use network_open::open::is_short;
use network_tables::rules::judge_tables;

// Refusal 31, or the file of tables that are long enough.
fn write_out(h: Header, l: Layout, tables: &LentTables<'_>, out: &mut [u8]) -> Result<u32, Refusal>
    requires { Packable h l (tables_of tables.now) }
    ensures { WritesNetwork (network_of h (tables_of tables.now)) out.old out.new result }
{
    let long = BLOCK * l.blocks;
    if out.len() < long {
        return refused(Reason::AnswerShort, 0);
    }
    encode_network(out, h, l, tables);
    Ok(long as u32)
}

// Refusals 7 to 10, 37 and 31, or the file.
fn pack_tables(
    h: Header,
    l: Layout,
    tables: &LentTables<'_>,
    out: &mut [u8],
) -> Result<u32, Refusal>
    requires { Packable h l (tables_of tables.now) }
    ensures { PacksNetwork (network_of h (tables_of tables.now)) out.old out.new result }
{
    judge_tables(h, l, tables)?;
    write_out(h, l, tables, out)
}

// Refusals 7 to 10, 37, 30 and 31 of numbers within the limits, or the file written.
fn pack_within(h: Header, tables: &LentTables<'_>, out: &mut [u8]) -> Result<u32, Refusal>
    requires { WithinLimits h × (h.number < 2 ^ 32) }
    ensures { PacksTables h (tables_of tables.now) out.old out.new result }
{
    if is_short(h, tables) {
        return refused(Reason::TableShort, 0);
    }
    pack_tables(h, h.layout(), tables, out)
}

// The length of the network's file, with the first lent bytes that file; or a refusal, with every lent byte
// as it was.
pub fn pack_network(
    numbers: HeaderNumbers,
    tables: &LentTables<'_>,
    out: &mut [u8],
) -> Result<u32, Refusal>
    ensures { PackCall (numbers_of numbers) (tables_of tables.now) out.old out.new result }
{
    match Header::new(numbers) {
        Some(h) => pack_within(h, tables, out),
        None => refused(Reason::NetworkLimits, 0),
    }
}
