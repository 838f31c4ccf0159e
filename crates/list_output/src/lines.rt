// The lines of the output that stand once: the header, the refusals and the last line. Each is written whole or not at all.
ghost use Rattle.list_line.specs.Writing.{Written};
ghost use Rattle.list_printed.specs.Output.{header_line, last_line, malformed_line, refused_line};

use base::LINE_FEED;
use list_line::writing::{put_byte, put_bytes, put_decimal};

pub fn put_header(out: &mut [u8], at: usize) -> usize
    ensures { Written header_line at out.old out.new result }
{
    put_bytes(out, at, b"first last score shared permille strand\n")
}

pub fn put_malformed(out: &mut [u8], at: usize) -> usize
    ensures { Written malformed_line at out.old out.new result }
{
    put_bytes(out, at, b"refused input\n")
}

pub fn put_refused(out: &mut [u8], at: usize, number: u32) -> usize
    ensures { Written (refused_line number) at out.old out.new result }
{
    let mut text = [0u8; 32];
    let mut n = put_bytes(&mut text, 0, b"refused ");
    n = put_decimal(&mut text, n, number);
    n = put_byte(&mut text, n, LINE_FEED);
    put_bytes(out, at, &text[..n])
}

pub fn put_last(out: &mut [u8], at: usize, found: u32, cells: u32) -> usize
    ensures { Written (last_line found cells) at out.old out.new result }
{
    let mut text = [0u8; 64];
    let mut n = put_bytes(&mut text, 0, b"found ");
    n = put_decimal(&mut text, n, found);
    n = put_bytes(&mut text, n, b" cells ");
    n = put_decimal(&mut text, n, cells);
    n = put_byte(&mut text, n, LINE_FEED);
    put_bytes(out, at, &text[..n])
}
