// The entries of the text's lines, one line after the other. Every line is known to be good.
ghost use Rattle.std.specs.Prelude.{◌≡◌, ◌≤◌, length};
ghost use Rattle.words.specs.Words.{rows};
ghost use Rattle.rules.specs.Text.{rule_of, meant};
ghost use Rattle.check_rules.specs.Promises.{Accepted};
ghost use Rattle.translate.specs.Added.{with_rules, LineFits, LineIn};

use crate::heads::{put_body, put_scope};
use crate::link::link;
use check_rules::bound::marks;
use rules::shape::shape_of;
use text::reader::line_from;

// The entries of a line's rule; the entry after them.
pub fn put_line(table: &mut [u32], ends: &mut [u32], line: &[u8], first: u32) -> u32
    requires { LineFits first (rows table.old) (rule_of line.now) × (length table.old ≤ 32768) × (4096 ≤ length ends.old) }
    ensures { LineIn (rule_of line.now) table.old first table.new result }
{
    let rule = shape_of(line).unwrap();
    let mask = marks(line, 0, line.len() + 1, 0);
    let body = put_scope(table, first, mask);
    let stop = put_body(table, &rule, body);
    link(table, body, stop, ends);
    stop
}

// The entries of all lines, after those in use.
fn put_lines(table: &mut [u32], ends: &mut [u32], used: u32, text: &[u8])
    requires { Accepted table.old used text.now × (length table.old ≤ 32768) × (4096 ≤ length ends.old) }
    ensures { table.new ≡ with_rules (meant text.now) table.old used }
{
    let mut e = used;
    let mut at: usize = 0;
    while at < text.len() {
        let b = line_from(text, at);
        let end = b.end;
        e = put_line(table, ends, &text[at..end], e);
        at = b.next;
    }
}

// The same, with the ends in a frame of its own: they do not stand in the frame of what checks the text.
#[inline(never)]
pub(crate) fn put_text(table: &mut [u32], used: u32, text: &[u8])
    requires { Accepted table.old used text.now × (length table.old ≤ 32768) }
    ensures { table.new ≡ with_rules (meant text.now) table.old used }
{
    let mut ends = [0u32; 4096];
    put_lines(table, &mut ends, used, text);
}
