// A line of a road file: a remark, the sizes, an arc, or of no such shape.
ghost use Rattle.std.specs.Prelude.{◌≡◌};
ghost use Rattle.text_spaced.specs.Scanning.{fresh, scanned_all};
ghost use Rattle.dimacs_line.specs.Shape.{arc_met, sizes_met, shape_of};

use text_spaced::spaced::{is_whole, scan_line};

// The most digits of a number.
const DIGITS: u32 = 9;

// How many nodes and arcs the file has.
#[derive(Clone, Copy)]
pub struct Sizes {
    pub nodes: u32,
    pub arcs: u32,
}

// An arc, by the numbers of its line.
#[derive(Clone, Copy)]
pub struct Arc {
    pub tail: u32,
    pub head: u32,
    pub weight: u32,
}

#[derive(Clone, Copy)]
pub enum Shape {
    Remark,
    Sizes(Sizes),
    Arc(Arc),
    Other,
}

// The arc of three numbers.
#[tactic(auto, unfolding(crate::specs::Shape::arc_met))]
fn arc_of(numbers: &[u8]) -> Option<Arc>
    ensures { result ≡ arc_met (scanned_all 9 fresh numbers.now) }
{
    let s = scan_line(numbers, DIGITS)?;
    if !is_whole(s, 3) {
        return None;
    }
    Some(Arc {
        tail: s.first,
        head: s.second,
        weight: s.value,
    })
}

// The sizes of two numbers.
#[tactic(auto, unfolding(crate::specs::Shape::sizes_met))]
fn sizes_of(numbers: &[u8]) -> Option<Sizes>
    ensures { result ≡ sizes_met (scanned_all 9 fresh numbers.now) }
{
    let s = scan_line(numbers, DIGITS)?;
    if !is_whole(s, 2) {
        return None;
    }
    Some(Sizes {
        nodes: s.first,
        arcs: s.value,
    })
}

// The shape of a line.
pub fn shape_of(line: &[u8]) -> Shape
    ensures { result ≡ shape_of line.now }
{
    if line.starts_with(b"c") {
        return Shape::Remark;
    }
    if let Some(numbers) = line.strip_prefix(b"a ") {
        return arc_of(numbers).map_or(Shape::Other, Shape::Arc);
    }
    if let Some(numbers) = line.strip_prefix(b"p sp ") {
        return sizes_of(numbers).map_or(Shape::Other, Shape::Sizes);
    }
    Shape::Other
}
