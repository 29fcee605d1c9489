// Validation of a network file: refusals 1 to 10 and 37, in place, each fault found as the first in its
// order. Nothing is copied, and every call ends at the first refusal.
ghost use Rattle.std.specs.Prelude.{◌≡◌, ◌+◌, ◌*◌, ◌≤◌, length};
ghost use Rattle.theory_loops.specs.First.{first};
ghost use Rattle.file_fields.specs.Block.{block_size};
ghost use Rattle.file_blocks.specs.Place.{blocks};
ghost use Rattle.file_forms.specs.Form.{unformed};
ghost use Rattle.network.specs.Node.{node_kind, node_size, node_per};
ghost use Rattle.network.specs.Limits.{WithinLimits};
ghost use Rattle.network.specs.Decode.{header_at, decode, Laid};
ghost use Rattle.network.specs.Validate.{made_at, first_unformed, validated_rules, validated_form};
ghost use Rattle.network.specs.Validate.{validated_length, validated_header, validated_first, validated};
ghost use Rattle.network.specs.Rules.{judged};

use file_blocks::kind;
use file_fields::BLOCK;
use file_fields::fields::{le8, le16, le32};
use file_forms::form::{first_unformed, is_bad_length, is_block_of};
use file_forms::reader::first_bad_sum;
use file_refusals::reason::Reason;
use file_refusals::{Refusal, refused};
use network::header::{Header, HeaderNumbers, Layout};
use network::limits::MOST_BYTES;
use network_rules::rules::judge;

// The header that the first block's numbers make.
fn header_at(file: &[u8]) -> Option<Header>
    requires { block_size ≤ length file.now }
    ensures { result ≡ made_at file.now }
{
    Header::new(HeaderNumbers {
        number: le32(file, 8),
        period: u32::from(le16(file, 12)),
        nodes: u32::from(le16(file, 14)),
        arcs: u32::from(le16(file, 16)),
        cells: u32::from(le16(file, 18)),
        points: le32(file, 20),
        hours: u32::from(le8(file, 24)),
    })
}

// The first block of the nodes that is out of its form, or the block after them.
fn first_bad_nodes(file: &[u8], l: Layout) -> usize
    requires { Laid file.now l }
    ensures { result ≡ 1 + first (blocks (node_per l.hours) l.nodes)
        (unformed file.now 1 (node_kind l.hours) (node_per l.hours) (node_size l.hours)
        l.nodes) }
{
    first_unformed(file, l.nodes_run())
}

// The first block after the header that is out of its form, or the count of blocks.
fn first_bad_form(file: &[u8], l: Layout) -> usize
    requires { Laid file.now l }
    ensures { result ≡ first_unformed file.now (header_at file.now) }
{
    let i = first_bad_nodes(file, l);
    if i < l.arcblock {
        return i;
    }
    let j = first_unformed(file, l.arcs_run());
    if j < l.pointblock {
        return j;
    }
    first_unformed(file, l.points_run())
}

// Refusals 7 to 10 and 37.
fn validate_rules(file: &[u8], h: Header, l: Layout) -> Result<Header, Refusal>
    requires { Laid file.now l }
    ensures { result ≡ validated_rules h (judged (decode file.now)) }
{
    judge(file, l)?;
    Ok(h)
}

// Refusals 6 to 10 and 37.
fn validate_form(file: &[u8], h: Header, l: Layout) -> Result<Header, Refusal>
    requires laid { Laid file.now l }
    requires h_value { h ≡ header_at file.now }
    ensures { result ≡ validated_form file.now h }
{
    let b = first_bad_form(file, l);
    if b < l.blocks {
        return refused(Reason::NetworkForm, b as u32);
    }
    validate_rules(file, h, l)
}

// Refusals 5 to 10 and 37.
fn validate_length(file: &[u8], h: Header) -> Result<Header, Refusal>
    requires within_limits { WithinLimits h }
    requires h_value { h ≡ header_at file.now }
    ensures { result ≡ validated_length file.now h }
{
    let l = h.layout();
    if file.len() != BLOCK * l.blocks {
        return refused(Reason::NetworkSize, 0);
    }
    validate_form(file, h, l)
}

// Refusals 4 to 10 and 37.
fn validate_header(file: &[u8]) -> Result<Header, Refusal>
    requires { block_size ≤ length file.now }
    ensures { result ≡ validated_header file.now (made_at file.now) }
{
    match header_at(file) {
        Some(h) => validate_length(file, h),
        None => refused(Reason::NetworkLimits, 0),
    }
}

// Refusals 3 to 10 and 37.
fn validate_first(file: &[u8]) -> Result<Header, Refusal>
    requires { block_size ≤ length file.now }
    ensures { result ≡ validated_first file.now }
{
    if is_block_of(file, 0, kind::NETWORK, 1) {
        return validate_header(file);
    }
    refused(Reason::NetworkFirst, 0)
}

// The header of a network file, or the first of the refusals 1 to 7, 37 and 8 to 10, and its lowest place.
pub fn validate(file: &[u8]) -> Result<Header, Refusal>
    ensures { result ≡ validated file.now }
{
    if is_bad_length(file.len(), MOST_BYTES) {
        return refused(Reason::NetworkLength, 0);
    }
    let b = first_bad_sum(file);
    if b < file.len() / BLOCK {
        return refused(Reason::NetworkSum, b as u32);
    }
    validate_first(file)
}
