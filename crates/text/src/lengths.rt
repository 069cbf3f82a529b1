// How many bytes numbers and lines have.
ghost use Rattle.std.specs.Prelude.{◌≡◌, ◌≤◌, length};
ghost use Rattle.text.specs.Numbers.{decimal_text};
ghost use Rattle.text.specs.Lines.{line_of};

// A number in decimal, 20 bytes at most; 0 has a digit too.
#[tactic(auto, using(crate::proofs::Decimals::one_digit, crate::proofs::Decimals::two_digits, crate::proofs::Decimals::three_digits, crate::proofs::Decimals::decimal_width))]
fn decimal_length(n: usize) -> usize
    ensures { (result ≡ length (decimal_text n)) × (result ≤ 20) }
{
    // Most numbers here are short: of these comparisons tell sooner than the library's logarithm.
    if n < 10 {
        return 1;
    }
    if n < 100 {
        return 2;
    }
    if n < 1_000 {
        return 3;
    }
    n.ilog10() as usize + 1
}

// A line: a word and numbers. No line of a plan text or a listing has a longer word or more numbers.
pub fn line_length(word: &[u8], numbers: &[usize]) -> usize
    requires { (length word.now ≤ 10) × (length numbers.now ≤ 16) }
    ensures { (result ≡ length (line_of word.now numbers.now)) × (result ≤ 350) }
{
    let mut bytes = word.len() + 1;
    for number in numbers {
        bytes += 1 + decimal_length(*number);
    }
    bytes
}
