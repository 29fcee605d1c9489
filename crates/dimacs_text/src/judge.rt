// The whole text of a road file, line by line: refusal 35 where its form or order is wrong, 36 where a size,
// an end or a weight is; else its sizes, with its arcs noted.
ghost use Rattle.std.specs.Prelude.{◌≡◌};
ghost use Rattle.text_lines.specs.Lines.{lines_of};
ghost use Rattle.dimacs_reading.specs.Reading as readings;
ghost use Rattle.dimacs_reading.specs.Reading.{read_all};
ghost use Rattle.dimacs_text.specs.Noting.{ReadInto, JudgedInto};

use crate::roads::Roads;
use dimacs_line::line::Sizes;
use dimacs_line::next::next_line;
use dimacs_reading::reading::{Reading, begun, step};
use dimacs_reading::verdict::judged;
use file_refusals::Refusal;

// All lines of a text, up to one that is refused, with their arcs noted.
fn read(text: &[u8], roads: &mut Roads) -> Reading
    ensures { (result ≡ read_all readings.begun (lines_of text.now)) × ReadInto text.now result roads.new }
{
    let mut r = begun();
    let mut at = 0;
    while at < text.len() {
        let line = next_line(text, at);
        roads.note_line(r.seen as usize, line.shape);
        r = step(r, line.shape);
        if r.stopped {
            return r;
        }
        at = line.end + 1;
    }
    r
}

// The sizes of a text that is accepted, with its arcs in the tables; or a refusal.
pub fn judge(text: &[u8], roads: &mut Roads) -> Result<Sizes, Refusal>
    ensures { JudgedInto text.now result roads.new }
{
    judged(read(text, roads))
}
