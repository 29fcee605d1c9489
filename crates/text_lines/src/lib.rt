// text_lines: texts as bytes and their lines, and where a line ends.
// It owns what a line is (specs/Lines.antt), and calls the kit's `memchr`, which looks at many
// bytes together.
#![tactic(auto)]

pub mod lines;
