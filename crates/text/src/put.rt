// Bytes and numbers put into lent memory. Each function answers the place after what it put: a struct of memory and place would have to promise at
// each step that it holds the same memory.
ghost use Rattle.std.specs.Prelude.{[], ◌∷◌, ◌+◌, ◌≤◌, ◌<◌, length};
ghost use Rattle.text.specs.Numbers.{decimal_text};
ghost use Rattle.text.specs.Lines.{number_fields, line_of};
ghost use Rattle.text.specs.Putting.{Put};

use crate::{LF, TAB};

pub fn put_byte(out: &mut [u8], at: usize, byte: u8) -> usize
    requires { at < length out.old }
    ensures { Put (byte ∷ []) at out.old result out.new }
{
    out[at] = byte;
    at + 1
}

// Bytes or numbers as they are, one a cell.
pub fn put_all<T: Copy>(out: &mut [T], at: usize, items: &[T]) -> usize
    requires { at + length items.now ≤ length out.old }
    ensures { Put items.now at out.old result out.new }
{
    // By number: a copy of the whole slice would be the library's, for which a caller in C has to bring `memmove` besides.
    for i in 0..items.len() {
        out[at + i] = items[i];
    }
    at + items.len()
}

// A number in decimal. What the library prints is known of a `String` alone, which there is not without a heap.
pub fn put_decimal(out: &mut [u8], at: usize, n: usize) -> usize
    requires { at + length (decimal_text n) ≤ length out.old }
    ensures { Put (decimal_text n) at out.old result out.new }
{
    if n < 10 {
        return put_byte(out, at, b'0' + n as u8);
    }
    let last = put_decimal(out, at, n / 10);
    put_byte(out, last, b'0' + (n % 10) as u8)
}

// A tab and a number for each.
fn put_fields(out: &mut [u8], at: usize, numbers: &[usize]) -> usize
    requires { at + length (number_fields numbers.now) ≤ length out.old }
    ensures { Put (number_fields numbers.now) at out.old result out.new }
{
    let mut end = at;
    for number in numbers {
        let digits = put_byte(out, end, TAB);
        end = put_decimal(out, digits, *number);
    }
    end
}

// A line: a word and numbers.
pub fn put_line(out: &mut [u8], at: usize, word: &[u8], numbers: &[usize]) -> usize
    requires { at + length (line_of word.now numbers.now) ≤ length out.old }
    ensures { Put (line_of word.now numbers.now) at out.old result out.new }
{
    let first = put_all(out, at, word);
    let end = put_fields(out, first, numbers);
    put_byte(out, end, LF)
}
